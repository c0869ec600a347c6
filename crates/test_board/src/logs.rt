// Entries of each kind, with bytes at their limits.
use arrayvec::ArrayVec;
use board_terms::{PortShape, Refusal, Vector};
use entry_log::EntryLog;
use std::alloc::{AllocError, Global};
use std::test::Fail;
use synic_board::{Entry, Event, Reply};

/// `count` bytes: 255, 254 and so on.
fn falling<const N: usize>(count: u8) -> ArrayVec<u8, N> {
    let mut array = ArrayVec::new();
    for number in 0..count {
        let _ = array.try_push(255 - number);
    }
    array
}

fn open_port(port: u8, shape: PortShape) -> Event {
    let (vp, sint) = (7, 15);
    Event::OpenPort {
        port,
        vp,
        sint,
        shape,
    }
}

fn post(count: u8) -> Event {
    Event::Post {
        port: 9,
        kind: 0x7fff_ffff,
        payload: falling(count),
    }
}

fn store(count: u8) -> Event {
    Event::Store {
        address: 0xffff_ffff_ffff_fff8,
        bytes: falling(count),
    }
}

fn load(length: u8) -> Event {
    Event::Load {
        address: 0x1_0000_0001,
        length,
    }
}

fn write(vp: u8) -> Event {
    Event::Write {
        vp,
        register: 0x4000_00b7,
        value: u64::MAX - 1,
    }
}

fn absorb(part: u8) -> Event {
    Event::Absorb {
        vp: 3,
        part,
        bits: 0x8000_0000_0000_0001,
    }
}

fn send(mask: u64) -> Event {
    Event::Send {
        vector: Vector::new(255).unwrap(),
        mask,
    }
}

fn calls_of_the_host() -> [(Event, Reply); 10] {
    let flags = PortShape::Flags {
        base: 2000,
        count: 48,
    };
    let buffers = PortShape::Messages { buffers: 16 };
    let (port, flag) = (15, 2047);
    let unknown = Reply::Refused(Refusal::UnknownPort);
    [
        (open_port(0, flags), Reply::Done),
        (open_port(255, buffers), Reply::Refused(Refusal::PortOpen)),
        (Event::ClosePort { port }, unknown),
        (post(0), Reply::Accepted(0)),
        (post(240), Reply::Accepted(u64::MAX)),
        (post(1), Reply::Refused(Refusal::NotSuspended)),
        (Event::Signal { port, flag }, Reply::FlagWasClear),
        (Event::Signal { port, flag }, Reply::FlagWasSet),
        (Event::Tick { moment: u64::MAX }, Reply::Done),
        (send(u64::MAX), Reply::Refused(Refusal::NoSuchProcessor)),
    ]
}

fn calls_of_a_guest() -> [(Event, Reply); 10] {
    let register = 0x4000_0080;
    [
        (write(0), Reply::GeneralProtection),
        (write(255), Reply::Refused(Refusal::NoSuchProcessor)),
        (Event::Read { vp: 2, register }, Reply::Value(u64::MAX)),
        (Event::Read { vp: 3, register }, Reply::Value(0)),
        (store(8), Reply::Done),
        (store(0), Reply::Refused(Refusal::BadLength)),
        (load(8), Reply::Bytes(falling(8))),
        (load(1), Reply::Bytes(falling(1))),
        (load(2), Reply::Bytes(falling(2))),
        (load(255), Reply::Refused(Refusal::BadLength)),
    ]
}

/// Some of these replies do not fit their events: a log stores whatever is pushed.
fn calls_of_a_processor() -> [(Event, Reply); 10] {
    let (least, greatest) = (Vector::new(16).unwrap(), Vector::new(255).unwrap());
    [
        (
            Event::Assert {
                vp: 1,
                vector: least,
            },
            Reply::Done,
        ),
        (Event::Take { vp: 1 }, Reply::Taken(Some(greatest))),
        (Event::Take { vp: 2 }, Reply::Taken(None)),
        (absorb(3), Reply::Done),
        (Event::Suspend { vp: 4 }, Reply::Done),
        (Event::Resume { vp: 5 }, Reply::Done),
        (Event::Reset { vp: 6 }, Reply::Done),
        (send(1 << 63), Reply::Done),
        (post(240), Reply::Bytes(falling(8))),
        (store(1), Reply::Bytes(falling(0))),
    ]
}

fn calls_of_all(alloc: Global) -> Result<Vec<(Event, Reply)>, AllocError> {
    let mut calls = Vec::new(alloc);
    for some in [
        calls_of_the_host(),
        calls_of_a_guest(),
        calls_of_a_processor(),
    ] {
        for call in some {
            calls.push(call)?;
        }
    }
    Ok(calls)
}

/// Pushes calls, by actors with descending numbers.
fn enter(log: &mut EntryLog, calls: &[(Event, Reply)]) -> Result<(), AllocError> {
    // README entry_log: begin
    let mut actor = 255u8;
    for (event, reply) in calls {
        log.reserve()?;
        log.push(actor, event, reply);
        actor = actor.saturating_sub(1);
    }
    // README entry_log: end
    Ok(())
}

/// How many entries equal the call at the same index.
fn count_alike(entries: &[Entry], calls: &[(Event, Reply)]) -> usize {
    let (mut alike, mut actor) = (0usize, 255u8);
    for (entry, (event, reply)) in entries.iter().zip(calls.iter()) {
        if entry.actor == actor && entry.event == *event && entry.reply == *reply {
            alike = alike.saturating_add(1);
        }
        actor = actor.saturating_sub(1);
    }
    alike
}

#[test]
fn each_kind_reads_back(rt: HostRuntime) -> Result<(), Fail> {
    let calls = calls_of_all(rt.alloc())?;
    // README entry_log: begin
    let mut log = EntryLog::new(rt.alloc());
    assert_eq!(rt; (log.len(), log.to_entries(rt.alloc())?.len()), (0, 0));
    enter(&mut log, calls.as_slice())?;
    let entries = log.to_entries(rt.alloc())?;
    // README entry_log: end
    assert_eq!(rt; (log.len(), entries.len()), (30, 30));
    assert_eq!(rt; count_alike(entries.as_slice(), calls.as_slice()), 30);
    assert_eq!(rt; EntryLog::NUMBERS_SIZE, 40);
    Ok(())
}
