// A live board whose guest does nothing. The scenes borrow what `played` owns: where nothing is
// owned, a proof stays small for any number of assertions.
use board_terms::{Kind, Moment, Notice, Notices, PortShape, Refusal, Sint, Ticket, Vp};
use live_board::{LiveBoard, LiveNotices};
use std::alloc::Global;
use std::process::Abort;
use synic_board::{Board, Event, Reply, msr};

/// Performs an event after which no processor is owed an EOM.
fn act(live: &mut LiveBoard, event: &Event, notices: &mut LiveNotices) -> Option<Reply> {
    let (reply, owed) = live.perform(event, notices);
    if owed == 0 { Some(reply) } else { None }
}

fn write(register: u32, value: u64) -> Event {
    Event::Write {
        vp: 0,
        register,
        value,
    }
}

fn open_port(port: u8, shape: PortShape) -> Event {
    let (vp, sint) = (0, 2);
    Event::OpenPort {
        port,
        vp,
        sint,
        shape,
    }
}

/// A board of one processor with message port 3 and flag port 4, both to SINT2.
fn ported(alloc: Global, notices: &mut Notices) -> Option<Board> {
    let Ok(mut board) = Board::open_sparse(alloc, 1, 0) else {
        return None;
    };
    board.perform(&write(msr::SCONTROL, 1), notices);
    board.perform(&write(msr::SIMP, 0x2001), notices);
    board.perform(&write(msr::SIEFP, 0x3001), notices);
    board.perform(&write(msr::SINT2, 0x50), notices);
    board.perform(&open_port(3, PortShape::Messages { buffers: 2 }), notices);
    let flags = PortShape::Flags {
        base: 0,
        count: 128,
    };
    board.perform(&open_port(4, flags), notices);
    Some(board)
}

/// Plays a scene on a live board and a list of notices of its own, and returns the next ticket; `None` if
/// an allocation fails.
fn played<
    B: FnOnce(Global, &mut Notices) -> Option<Board>,
    S: FnOnce(&mut LiveBoard, &mut LiveNotices),
>(alloc: Global, board: B, scene: S) -> Option<Ticket>
    requires board { B.IsAlwaysCallable board }
    requires scene { S.IsAlwaysCallable scene }
{
    let mut opening = Notices::open(alloc).ok()?;
    let mut notices = LiveNotices::open(alloc).ok()?;
    let opened = board(alloc, &mut opening)?;
    let (mut live, _) = LiveBoard::open(alloc, opened).ok()?;
    scene(&mut live, &mut notices);
    Some(live.into_board(&mut notices).next_ticket())
}

/// Resets a processor that is on the board.
fn reset(live: &mut LiveBoard, vp: Vp, notices: &mut LiveNotices) -> Option<Reply> {
    if vp.number() < live.board().processors() {
        Some(live.reset(vp, notices))
    } else {
        None
    }
}

/// Looks at the slots of a processor that is on the board.
fn observe(live: &mut LiveBoard, vp: Vp, notices: &mut LiveNotices) {
    if vp.number() < live.board().processors() {
        live.observe(vp, notices);
    }
}

/// Loads all words of the pages of a processor that is on the board.
fn refresh(live: &mut LiveBoard, vp: Vp, notices: &mut LiveNotices) {
    if vp.number() < live.board().processors() {
        live.refresh(vp, notices);
    }
}

/// Posts and signals, while the first message stays in its slot.
fn post_and_signal(rt: &impl Abort, live: &mut LiveBoard, notices: &mut LiveNotices) {
    let (vp, sint) = (Vp::new(0).unwrap(), Sint::new(2).unwrap());
    // README live_board: begin
    assert_eq!(rt; live.post(3, 1, b"a", notices), Reply::Accepted(0));
    assert_eq!(rt;
        notices.as_slice().get(1),
        Some(&Notice::Placed {
            vp,
            sint,
            ticket: 0
        })
    );
    observe(live, vp, notices);
    assert_eq!(rt; notices.as_slice().len(), 0); // the guest has not emptied the slot
    assert_eq!(rt; live.post(3, 1, b"b", notices), Reply::Accepted(1));
    assert_eq!(rt;
        notices.as_slice().get(1),
        Some(&Notice::Pending { vp, sint })
    );
    assert_eq!(rt; live.signal(4, 100, notices), Reply::FlagWasClear);
    assert_eq!(rt; live.signal(4, 100, notices), Reply::FlagWasSet);
    // README live_board: end
    assert_eq!(rt; live.post(3, 1, b"c", notices), Reply::Accepted(2));
    assert_eq!(rt; notices.as_slice().len(), 1);
    assert_eq!(rt; live.board().summary().queued(vp, sint), 2);
}

#[test]
fn posts_and_signals_reach_the_pages(rt: HostRuntime) {
    let next = played(rt.alloc(), ported, |live, notices| {
        post_and_signal(&rt, live, notices)
    });
    assert_eq!(rt; next, Some(3));
}

/// Signals of a flag while its page is hidden, and once it is seen.
fn signal_a_hidden_page(rt: &impl Abort, live: &mut LiveBoard, notices: &mut LiveNotices) {
    let vp = Vp::new(0).unwrap();
    // page 2^52 - 1 is SIM's, so that SIEF is not visible there
    let page = 0xffff_ffff_ffff_f001;
    act(live, &write(msr::SIMP, page), notices);
    act(live, &write(msr::SIEFP, page), notices);
    assert_eq!(rt; live.signal(4, 7, notices), Reply::FlagWasClear);
    assert_eq!(rt; live.signal(4, 7, notices), Reply::FlagWasSet);
    act(live, &write(msr::SIEFP, 0x3001), notices);
    assert_eq!(rt; live.signal(4, 7, notices), Reply::FlagWasSet);
    assert_eq!(rt;
        live.post(9, 1, b"", notices),
        Reply::Refused(Refusal::UnknownPort)
    );
    observe(live, vp, notices);
    assert_eq!(rt; notices.as_slice().len(), 0);
}

#[test]
fn a_page_that_is_not_mapped_is_written(rt: HostRuntime) {
    let next = played(rt.alloc(), ported, |live, notices| {
        signal_a_hidden_page(&rt, live, notices)
    });
    assert_eq!(rt; next, Some(0));
}

/// Two posts, of which the second stays queued when the guest empties the slot.
fn queue(rt: &impl Abort, board: &mut Board, notices: &mut Notices) {
    assert_eq!(rt; board.post(3, 1, b"a", notices), Reply::Accepted(0));
    assert_eq!(rt; board.post(3, 1, b"b", notices), Reply::Accepted(1));
    assert_eq!(rt; board.store(0x2200, &[0, 0, 0, 0], notices), Reply::Done);
}

/// Two EOMs, of which the first places the queued message.
fn end_twice(rt: &impl Abort, live: &mut LiveBoard, notices: &mut LiveNotices) {
    let (vp, sint) = (Vp::new(0).unwrap(), Sint::new(2).unwrap());
    let eom = write(msr::EOM, 0);
    assert_eq!(rt; act(live, &eom, notices), Some(Reply::Done));
    assert_eq!(rt;
        notices.as_slice().first(),
        Some(&Notice::Placed {
            vp,
            sint,
            ticket: 1
        })
    );
    assert_eq!(rt; act(live, &eom, notices), Some(Reply::Done));
    assert_eq!(rt; notices.as_slice().len(), 0);
    observe(live, vp, notices);
    assert_eq!(rt; notices.as_slice().len(), 0);
}

/// The board after `queue`.
fn queued(rt: &impl Abort, alloc: Global, notices: &mut Notices) -> Option<Board> {
    let mut board = ported(alloc, notices)?;
    queue(rt, &mut board, notices);
    Some(board)
}

#[test]
fn an_eom_places_what_is_queued(rt: HostRuntime) {
    let next = played(
        rt.alloc(),
        |alloc, notices| queued(&rt, alloc, notices),
        |live, notices| { end_twice(&rt, live, notices) },
    );
    assert_eq!(rt; next, Some(2));
}

/// A timer whose count has passed when it is started, twice.
fn start_a_due_timer(rt: &impl Abort, live: &mut LiveBoard, notices: &mut LiveNotices) {
    let (vp, sint) = (Vp::new(0).unwrap(), Sint::new(2).unwrap());
    let count = Event::Write {
        vp: 0,
        register: msr::STIMER0_COUNT,
        value: 50,
    };
    let config = Event::Write {
        vp: 0,
        register: msr::STIMER0_CONFIG,
        value: 0x20001,
    };
    assert_eq!(rt; act(live, &count, notices), Some(Reply::Done));
    assert_eq!(rt; notices.as_slice().len(), 0);
    assert_eq!(rt; act(live, &config, notices), Some(Reply::Done));
    assert_eq!(rt; live.board().next_ticket(), 1);
    assert_eq!(rt; live.board().summary().queued(vp, sint), 0);
    assert_eq!(rt; act(live, &config, notices), Some(Reply::Done));
    assert_eq!(rt; live.board().summary().queued(vp, sint), 1);
    assert_eq!(rt;
        notices.as_slice().last(),
        Some(&Notice::Pending { vp, sint })
    );
    observe(live, vp, notices);
    assert_eq!(rt; notices.as_slice().len(), 0);
}

/// The board at moment 100.
fn ticked(rt: &impl Abort, alloc: Global, notices: &mut Notices) -> Option<Board> {
    let mut board = ported(alloc, notices)?;
    let reply = board.perform(&Event::Tick { moment: 100 }, notices);
    assert_eq!(rt; reply, Reply::Done);
    Some(board)
}

#[test]
fn a_timer_that_is_due_sends_at_once(rt: HostRuntime) {
    let next = played(
        rt.alloc(),
        |alloc, notices| ticked(&rt, alloc, notices),
        |live, notices| { start_a_due_timer(&rt, live, notices) },
    );
    assert_eq!(rt; next, Some(2));
}

fn at(moment: Moment) -> Event {
    Event::Tick { moment }
}

/// Ticks before and at two deadlines of a timer, and one back.
fn tick(rt: &impl Abort, live: &mut LiveBoard, notices: &mut LiveNotices) {
    let (vp, sint) = (Vp::new(0).unwrap(), Sint::new(2).unwrap());
    assert_eq!(rt; act(live, &at(99), notices), Some(Reply::Done));
    assert_eq!(rt; notices.as_slice().len(), 0);
    assert_eq!(rt; act(live, &at(100), notices), Some(Reply::Done));
    assert_eq!(rt;
        notices.as_slice().get(2),
        Some(&Notice::Placed {
            vp,
            sint,
            ticket: 0
        })
    );
    assert_eq!(rt; act(live, &at(200), notices), Some(Reply::Done));
    assert_eq!(rt;
        notices.as_slice().last(),
        Some(&Notice::Pending { vp, sint })
    );
    assert_eq!(rt;
        act(live, &at(100), notices),
        Some(Reply::Refused(Refusal::ClockBack))
    );
    observe(live, vp, notices);
    assert_eq!(rt; notices.as_slice().len(), 0);
}

/// The board with timer 0 periodic, which sends to SINT2.
fn periodic(alloc: Global, notices: &mut Notices) -> Option<Board> {
    let mut board = ported(alloc, notices)?;
    board.perform(&write(msr::STIMER0_CONFIG, 0x20003), notices);
    board.perform(&write(msr::STIMER0_COUNT, 100), notices);
    Some(board)
}

#[test]
fn a_tick_places_and_marks(rt: HostRuntime) {
    let next = played(rt.alloc(), periodic, |live, notices| {
        tick(&rt, live, notices)
    });
    assert_eq!(rt; next, Some(2));
}

/// A post and a signal before a reset, and the signal again after it.
fn reset_between_signals(rt: &impl Abort, live: &mut LiveBoard, notices: &mut LiveNotices) {
    let (vp, sint) = (Vp::new(0).unwrap(), Sint::new(2).unwrap());
    assert_eq!(rt; live.post(3, 1, b"a", notices), Reply::Accepted(0));
    assert_eq!(rt; live.signal(4, 7, notices), Reply::FlagWasClear);
    assert_eq!(rt; reset(live, vp, notices), Some(Reply::Done));
    let withdrawn = Notice::Withdrawn {
        vp,
        sint,
        ticket: 0,
    };
    assert_eq!(rt; notices.as_slice().first(), Some(&withdrawn));
    act(live, &write(msr::SCONTROL, 1), notices);
    act(live, &write(msr::SIMP, 0x2001), notices);
    act(live, &write(msr::SIEFP, 0x3001), notices);
    assert_eq!(rt; live.signal(4, 7, notices), Reply::FlagWasClear);
    observe(live, vp, notices);
    assert_eq!(rt; notices.as_slice().len(), 0);
}

#[test]
fn a_reset_withdraws_what_is_left(rt: HostRuntime) {
    let next = played(rt.alloc(), ported, |live, notices| {
        reset_between_signals(&rt, live, notices)
    });
    assert_eq!(rt; next, Some(1));
}

/// Loads before and after the page becomes a live one, and two other events.
fn load(rt: &impl Abort, live: &mut LiveBoard, notices: &mut LiveNotices) {
    let elsewhere = Some(Reply::Refused(Refusal::Elsewhere));
    let load = Event::Load {
        address: 0x2200,
        length: 4,
    };
    assert!(rt; matches!(act(live, &load, notices), Some(Reply::Bytes(_))));
    act(live, &write(msr::SIMP, 0x2001), notices);
    assert_eq!(rt; act(live, &load, notices), elsewhere);
    let suspend = Event::Suspend { vp: 0 };
    assert_eq!(rt; act(live, &suspend, notices), Some(Reply::Done));
    let reset = Event::Reset { vp: 1 };
    assert_eq!(rt;
        act(live, &reset, notices),
        Some(Reply::Refused(Refusal::NoSuchProcessor))
    );
}

#[test]
fn an_access_of_a_live_page_is_the_callers(rt: HostRuntime) {
    let next = played(
        rt.alloc(),
        |alloc, _| Board::open(alloc, 1, 4, 0).ok(),
        |live, notices| { load(&rt, live, notices) },
    );
    assert_eq!(rt; next, Some(0));
}

/// A post and a signal, and what the board's pages have of them after `refresh`.
fn refresh_after_a_post(rt: &impl Abort, live: &mut LiveBoard, notices: &mut LiveNotices) {
    let vp = Vp::new(0).unwrap();
    assert_eq!(rt; live.post(3, 1, b"a", notices), Reply::Accepted(0));
    assert_eq!(rt; live.signal(4, 7, notices), Reply::FlagWasClear);
    refresh(live, vp, notices);
    assert_eq!(rt; notices.as_slice().len(), 0);
    live.refresh_all(notices);
    assert_eq!(rt; notices.as_slice().len(), 0);
    let Some(page) = live.board().own_page(vp, Kind::Sim) else {
        panic!(rt; "no page")
    };
    assert_eq!(rt; page.get(0x210), Some(&b'a')); // the payload in the slot of SINT2
    assert_eq!(rt; live.signal(4, 7, notices), Reply::FlagWasSet);
}

#[test]
fn a_refresh_finds_what_the_host_stored(rt: HostRuntime) {
    let next = played(rt.alloc(), ported, |live, notices| {
        refresh_after_a_post(&rt, live, notices)
    });
    assert_eq!(rt; next, Some(1));
}
