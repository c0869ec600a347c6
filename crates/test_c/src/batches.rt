// Batches that stop early, and the least capacity that suffices.
use c_handles::BoardWithNotices;
use c_terms::{Batch, BatchEnd, CEvent, CNotice, CReply, perform_batch};
use std::alloc::Global;

/// An event of this kind, for processor 1 and port 4.
fn event(kind: u8) -> CEvent {
    CEvent {
        kind,
        vp: 1,
        sint: 2,
        port: 4,
        buffers: 2,
        vector: 0,
        part: 0,
        length: 0,
        flag: 0,
        count: 0,
        register: 0x4000_0080,
        message_type: 1,
        value: 1,
        address: 0,
        moment: 100,
        bytes: [0; 240],
    }
}

/// The initial element of a reply buffer: no valid kind.
fn no_reply() -> CReply {
    CReply {
        kind: 200,
        fault: 0,
        refusal: 0,
        vector: 0,
        length: 0,
        notices: 0,
        value: 0,
        ticket: 0,
        bytes: [0; 8],
    }
}

/// The initial element of a notice buffer: no valid kind.
fn no_notice() -> CNotice {
    CNotice {
        kind: 200,
        vp: 0,
        sint: 0,
        vector: 0,
        timer: 0,
        flag: 0,
        ticket: 0,
        due: 0,
        count: 0,
    }
}

const OPEN_MESSAGES: u8 = 1;

const CLOSE: u8 = 3;

const WRITE: u8 = 4;

const POST: u8 = 6;

const TICK: u8 = 12;

const NONE: u8 = 18;

/// The result of a batch, and the time of its board.
#[derive(Clone, Copy, PartialEq, Eq, Debug)]
struct Ended {
    end: BatchEnd,
    done: usize,
    emitted: usize,
    moment: u64,
}

/// A batch of the events from `first` up to `last`, with buffers of these capacities.
#[derive(Clone, Copy)]
struct Performing {
    first: usize,
    last: usize,
    replies: usize,
    notices: usize,
}

/// All events, with more than enough capacity.
const ALL: Performing = Performing {
    first: 0,
    last: 7,
    replies: 7,
    notices: 300,
};

/// A tick alone, with just enough capacity.
const TICK_ALONE: Performing = Performing {
    first: 6,
    last: 7,
    replies: 1,
    notices: 276,
};

/// The invalid event alone, with just enough capacity.
const NONE_ALONE: Performing = Performing {
    first: 5,
    last: 6,
    ..TICK_ALONE
};

/// The result of a batch that performs nothing.
const NOTHING: Ended = Ended {
    end: BatchEnd::NoRoom,
    done: 0,
    emitted: 0,
    moment: 0,
};

const BATCHES: [(Performing, Ended); 9] = [
    // Two messages are queued and withdrawn, and the clock does not move.
    (
        ALL,
        Ended {
            end: BatchEnd::NoEvent,
            done: 5,
            emitted: 4,
            ..NOTHING
        },
    ),
    (
        Performing { last: 5, ..ALL },
        Ended {
            end: BatchEnd::All,
            done: 5,
            emitted: 4,
            ..NOTHING
        },
    ),
    (
        Performing { replies: 4, ..ALL },
        Ended {
            done: 4,
            emitted: 2,
            ..NOTHING
        },
    ),
    (
        TICK_ALONE,
        Ended {
            end: BatchEnd::All,
            done: 1,
            moment: 100,
            ..NOTHING
        },
    ),
    (
        Performing {
            notices: 275,
            ..TICK_ALONE
        },
        NOTHING,
    ),
    (
        Performing {
            replies: 0,
            ..TICK_ALONE
        },
        NOTHING,
    ),
    // That there is no capacity is checked before the next event.
    (
        Performing {
            replies: 0,
            ..NONE_ALONE
        },
        NOTHING,
    ),
    (
        Performing {
            notices: 275,
            ..NONE_ALONE
        },
        NOTHING,
    ),
    (
        Performing {
            first: 7,
            replies: 0,
            notices: 0,
            ..TICK_ALONE
        },
        Ended {
            end: BatchEnd::All,
            ..NOTHING
        },
    ),
];

/// Enables the SynIC of processor 1, but not its message page. The event before the tick is
/// invalid.
fn events() -> [CEvent; 7] {
    [
        event(WRITE),
        event(OPEN_MESSAGES),
        event(POST),
        event(POST),
        event(CLOSE),
        event(NONE),
        event(TICK),
    ]
}

/// The result of a batch on a board of two processors whose first ticket is 7.
fn end_of(alloc: Global, perform_on: Performing) -> Option<Ended> {
    // README c_terms: begin
    let (events, mut replies, mut notices) = (events(), [no_reply(); 7], [no_notice(); 300]);
    let events = events.get(perform_on.first..perform_on.last)?;
    let replies = replies.get_mut(..perform_on.replies)?;
    let notices = notices.get_mut(..perform_on.notices)?;
    // README c_handles: begin
    let mut board = BoardWithNotices::open(alloc, 2, 1, 7).ok()?;
    // README c_handles: end
    let Batch { end, done, emitted } = perform_batch(&mut board, events, replies, notices);
    // README c_terms: end
    Some(Ended {
        end,
        done,
        emitted,
        moment: board.board.moment(),
    })
}

#[test]
fn a_batch_ends_before_what_it_cannot_perform(rt: HostRuntime) {
    for (at, (perform_on, expected)) in BATCHES.iter().enumerate() {
        assert_eq!(rt; end_of(rt.alloc(), *perform_on), Some(*expected), "at {at}");
    }
}
