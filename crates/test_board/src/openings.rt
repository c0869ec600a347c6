// Sizes of boards.
use std::alloc::Global;
use synic_board::{Board, OpenFault};

/// Processors, pages, and the result of opening such a board.
const SIZES: [(u8, u8, Result<(u8, u8), OpenFault>); 7] = [
    (1, 1, Ok((1, 1))),
    (8, 64, Ok((8, 64))),
    (0, 1, Err(OpenFault::BadSize)),
    (9, 1, Err(OpenFault::BadSize)),
    (1, 0, Err(OpenFault::BadSize)),
    (1, 65, Err(OpenFault::BadSize)),
    (255, 255, Err(OpenFault::BadSize)),
];

/// The processors and pages of a board that is opened with these sizes.
fn open(alloc: Global, processors: u8, pages: u8) -> Result<(u8, u8), OpenFault> {
    let board = Board::open(alloc, processors, pages, 0)?;
    Ok((board.processors(), board.pages()))
}

#[test]
fn sizes_are_judged(rt: HostRuntime) {
    for (processors, pages, expected) in SIZES {
        assert_eq!(rt; open(rt.alloc(), processors, pages), expected);
    }
}
