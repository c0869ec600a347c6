// What a user needs first, with a single `use`.
use crate::{
    Board, CheckEnd, Event, Notice, Notices, PayloadBytes, PortShape, ReplayEnd, Reply, Sint,
    Vector, Vp, check_trace, msr, replay,
};
use std::test::Fail;

#[test]
fn a_vector_is_asserted_and_taken(rt: HostRuntime) -> Result<(), Fail> {
    // README synic_board: begin
    let mut board = Board::open(rt.alloc(), 1, 4, 0)?;
    let mut notices = Notices::open(rt.alloc())?;
    let vector = Vector::new(0x50).ok_or("vector")?;
    let reply = board.perform(&Event::Assert { vp: 0, vector }, &mut notices);
    assert_eq!(rt; reply, Reply::Done);
    assert_eq!(rt;
        board.perform(&Event::Take { vp: 0 }, &mut notices),
        Reply::Taken(Some(vector))
    );
    // README synic_board: end
    Ok(())
}

/// Enables the SynIC and the message page of processor 0, and opens a port to source 2. Returns
/// whether all were done.
fn is_prepared(board: &mut Board, notices: &mut Notices) -> bool {
    let (vp, sint) = (0, 2);
    let shape = PortShape::Messages { buffers: 2 };
    for (register, value) in [(msr::SCONTROL, 1), (msr::SIMP, 0x2001)] {
        let write = Event::Write {
            vp,
            register,
            value,
        };
        if board.perform(&write, notices) != Reply::Done {
            return false;
        }
    }
    let open = Event::OpenPort {
        port: 3,
        vp,
        sint,
        shape,
    };
    board.perform(&open, notices) == Reply::Done
}

#[test]
fn a_message_reaches_its_slot(rt: HostRuntime) -> Result<(), Fail> {
    // README synic: begin
    let mut board = Board::open(rt.alloc(), 1, 4, 0)?;
    let mut notices = Notices::open(rt.alloc())?;
    assert!(rt; is_prepared(&mut board, &mut notices));
    let post = Event::Post {
        port: 3,
        kind: 1,
        payload: PayloadBytes::new(),
    };
    assert_eq!(rt; board.perform(&post, &mut notices), Reply::Accepted(0));
    let placed = Notice::Placed {
        ticket: 0,
        vp: Vp::new(0).ok_or("processor")?,
        sint: Sint::new(2).ok_or("source")?,
    };
    assert!(rt; notices.as_slice().contains(&placed));
    // README synic: end
    Ok(())
}

#[test]
fn a_script_has_its_text(rt: HostRuntime) -> Result<(), Fail> {
    // README board_script: begin
    let mut script: &[u8] = b"board 1 4 0\nread 0 40000081\n";
    let mut text = Vec::new(rt.alloc());
    assert_eq!(rt; replay(rt.alloc(), &mut script, &mut text), ReplayEnd::Done);
    assert_eq!(rt; text.as_slice(), b"= value 1\n".as_slice());
    // README board_script: end
    Ok(())
}

#[test]
fn a_trace_has_its_verdict(rt: HostRuntime) -> Result<(), Fail> {
    // README text_trace: begin
    let mut trace: &[u8] = b"trace 1\nboard 1 4 0\n0 read 0 40000081\n= value 1\nend 1\n";
    let mut verdict = Vec::new(rt.alloc());
    assert_eq!(rt;
        check_trace(rt.alloc(), &mut trace, &mut verdict),
        CheckEnd::Legal(1)
    );
    // README text_trace: end
    Ok(())
}
