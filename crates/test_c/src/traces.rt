// The text of an entry, and which fault is reported.
use c_terms::{CEvent, CReply, EntryFault, lines_of};
use std::alloc::Global;
use std::test::Fail;

const ASSERT: u8 = 8;

const POST: u8 = 6;

const ACCEPTED: u8 = 6;

const TAKEN: u8 = 4;

/// An event of this kind, with a payload of three bytes or a vector.
fn event(kind: u8, vector: u8) -> CEvent {
    let mut bytes = [0; 240];
    bytes[1] = 0xfe;
    CEvent {
        kind,
        vp: 7,
        sint: 0,
        port: 15,
        buffers: 0,
        vector,
        part: 0,
        length: 3,
        flag: 0,
        count: 0,
        register: 0,
        message_type: 0x7fff_ffff,
        value: 0,
        address: 0,
        moment: 0,
        bytes,
    }
}

fn reply(kind: u8, vector: u8) -> CReply {
    CReply {
        kind,
        fault: 0,
        refusal: 0,
        vector,
        length: 0,
        notices: 1,
        value: 0,
        ticket: u64::MAX,
        bytes: [0; 8],
    }
}

#[test]
fn an_entry_has_two_lines(rt: HostRuntime) -> Result<(), Fail> {
    // README c_terms: begin
    let lines = lines_of(rt.alloc(), 255, &event(POST, 0), &reply(ACCEPTED, 0))?;
    let text = b"255 post 15 7fffffff 00fe00\n= accepted 18446744073709551615\n";
    assert_eq!(rt; lines.as_slice(), text.as_slice());
    // README c_terms: end
    Ok(())
}

/// The fault of an entry of an assert of one vector and a reply that another was taken.
fn fault_of(alloc: Global, asserted: u8, taken: u8) -> Option<EntryFault> {
    lines_of(alloc, 0, &event(ASSERT, asserted), &reply(TAKEN, taken)).err()
}

#[test]
fn that_there_is_no_event_is_judged_first(rt: HostRuntime) {
    for (asserted, taken, expected) in [
        (15, 15, Some(EntryFault::NoEvent)),
        (15, 16, Some(EntryFault::NoEvent)),
        (16, 15, Some(EntryFault::NoReply)),
        (16, 16, None),
    ] {
        assert_eq!(rt; fault_of(rt.alloc(), asserted, taken), expected);
    }
}
