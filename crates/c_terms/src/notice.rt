// Notices as plain structs.
ghost use Rattle.std.specs.Prelude.{◌≡◌, List, ◌++◌, map, length};
ghost use Rattle.c_terms.specs.Notices.{notice_to_c, empty_notice};
ghost use Rattle.c_terms.specs.Rooms.{Fronts};
ghost use Rattle.c_terms.specs.declared.notice.CNotice.{CNotice as Plain};

use board_terms::Notice;

/// A notice as a plain struct. `kind` says which notice it is, and which fields are used; the
/// others are 0.
#[repr(C)]
#[derive(Clone, Copy)]
pub struct CNotice {
    /// 1 to 9: accepted, placed, pending, requested, flag set, consumed, withdrawn, expired,
    /// skipped.
    pub kind: u8,
    /// The processor.
    pub vp: u8,
    /// The source.
    pub sint: u8,
    /// The vector that was requested.
    pub vector: u8,
    /// The timer of the processor, 0 to 3.
    pub timer: u8,
    /// The flag that was set.
    pub flag: u16,
    /// The ticket of the message.
    pub ticket: u64,
    /// The deadline at which the timer was due, in units of 100 ns.
    pub due: u64,
    /// How many deadlines the timer skipped.
    pub count: u64,
}

/// A notice of this kind that uses only the processor.
fn of_kind(kind: u8, vp: u8) -> CNotice
    ensures { result ≡ empty_notice kind vp }
{
    CNotice {
        kind,
        vp,
        sint: 0,
        vector: 0,
        timer: 0,
        flag: 0,
        ticket: 0,
        due: 0,
        count: 0,
    }
}

/// Encodes a notice.
pub fn notice_to_c(notice: &Notice) -> CNotice
    ensures { result ≡ notice_to_c notice.now }
{
    match *notice {
        Notice::Accepted { ticket, vp, sint } => CNotice {
            sint: sint.number(),
            ticket,
            ..of_kind(1, vp.number())
        },
        Notice::Placed { ticket, vp, sint } => CNotice {
            sint: sint.number(),
            ticket,
            ..of_kind(2, vp.number())
        },
        Notice::Pending { vp, sint } => CNotice {
            sint: sint.number(),
            ..of_kind(3, vp.number())
        },
        Notice::Requested { vp, vector } => CNotice {
            vector: vector.number(),
            ..of_kind(4, vp.number())
        },
        Notice::FlagSet { vp, sint, flag } => CNotice {
            sint: sint.number(),
            flag,
            ..of_kind(5, vp.number())
        },
        Notice::Consumed { ticket, vp, sint } => CNotice {
            sint: sint.number(),
            ticket,
            ..of_kind(6, vp.number())
        },
        Notice::Withdrawn { ticket, vp, sint } => CNotice {
            sint: sint.number(),
            ticket,
            ..of_kind(7, vp.number())
        },
        Notice::Expired { vp, index, due } => CNotice {
            timer: index,
            due,
            ..of_kind(8, vp.number())
        },
        Notice::Skipped { vp, index, count } => CNotice {
            timer: index,
            count,
            ..of_kind(9, vp.number())
        },
    }
}

/// Copies encoded notices to the front of a buffer, as many as fit.
pub fn put_plain(notices: &[Notice], room: &mut [CNotice])
    ensures { Fronts (map notice_to_c notices.now) room.old room.new }
{
    for at in 0..notices.len().min(room.len()) {
        room[at] = notice_to_c(&notices[at]);
    }
}

/// Copies encoded notices to a buffer after the `count` that were copied to its front, as many as fit.
pub fn put_more(notices: &[Notice], count: usize, room: &mut [CNotice])
    ensures { (first before : List Plain) → length first ≡ count → Fronts first before room.old
        → Fronts (first ++ map notice_to_c notices.now) before room.new }
{
    if count < room.len() {
        put_plain(notices, &mut room[count..]);
    }
}
