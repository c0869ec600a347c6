// Sizes of shared boards.
ghost use Rattle.std.specs.Prelude.{◌≡◌};
ghost use Rattle.synic_board.specs.State.{opened};

use board_threads::{OpenFault, Origin, RecordedBoard};
use std::alloc::Global;
use std::marker::Brand;

#[derive(Clone, Copy)]
struct Sizes {
    processors: u8,
    pages: u8,
    actors: u8,
    lines: u8,
}

/// The sizes of an opened board.
#[derive(Clone, Copy, PartialEq, Eq, Debug)]
struct Opened {
    processors: u8,
    actors: usize,
    /// The number of the last actor, and how many calls it has made.
    last: Option<(u8, usize)>,
    lines: usize,
}

const SMALL: Sizes = Sizes {
    processors: 1,
    pages: 1,
    actors: 1,
    lines: 0,
};

const LARGE: Sizes = Sizes {
    processors: 8,
    pages: 64,
    actors: 16,
    lines: 16,
};

const BAD_SIZE: Result<Opened, OpenFault> = Err(OpenFault::BadSize);

const OPENINGS: [(Sizes, Result<Opened, OpenFault>); 12] = [
    (
        SMALL,
        Ok(Opened {
            processors: 1,
            actors: 1,
            last: Some((0, 0)),
            lines: 0,
        }),
    ),
    (
        LARGE,
        Ok(Opened {
            processors: 8,
            actors: 16,
            last: Some((15, 0)),
            lines: 16,
        }),
    ),
    (
        Sizes {
            processors: 0,
            ..SMALL
        },
        BAD_SIZE,
    ),
    (
        Sizes {
            processors: 9,
            ..LARGE
        },
        BAD_SIZE,
    ),
    (
        Sizes {
            processors: 255,
            ..LARGE
        },
        BAD_SIZE,
    ),
    (Sizes { pages: 0, ..SMALL }, BAD_SIZE),
    (Sizes { pages: 65, ..LARGE }, BAD_SIZE),
    (Sizes { actors: 0, ..SMALL }, BAD_SIZE),
    (
        Sizes {
            actors: 17,
            ..LARGE
        },
        BAD_SIZE,
    ),
    (
        Sizes {
            actors: 255,
            ..SMALL
        },
        BAD_SIZE,
    ),
    (Sizes { lines: 17, ..LARGE }, BAD_SIZE),
    (
        Sizes {
            lines: 255,
            ..SMALL
        },
        BAD_SIZE,
    ),
];

fn open<S: Origin>(alloc: Global, sizes: Sizes) -> Result<Opened, OpenFault>
    requires { S.start ≡ opened sizes.processors sizes.pages 0 }
{
    let Sizes {
        processors,
        pages,
        actors,
        lines,
    } = sizes;
    match RecordedBoard::<S>::open(alloc, processors, pages, 0, actors, lines) {
        Ok((board, actors, lines)) => Ok(Opened {
            processors: board.processors(),
            actors: actors.len(),
            last: actors
                .last()
                .map(|actor| (actor.number(), actor.calls().len())),
            lines: lines.len(),
        }),
        Err(fault) => Err(fault),
    }
}

#[test]
fn sizes_of_a_shared_board_are_judged(rt: HostRuntime) {
    for (at, (sizes, expected)) in OPENINGS.iter().enumerate() {
        let opened = open::<Brand>(rt.alloc(), *sizes);
        assert_eq!(rt; opened, *expected, "at {at}");
    }
}
