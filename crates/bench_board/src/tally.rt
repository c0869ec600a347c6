// What a run accumulates.
use board_terms::{Notice, Owner, Sint, TimerId, Vp};
use synic_board::{Board, Reply};

/// The factor between one number of a digest and the next.
const FACTOR: u64 = 0x0100_0000_01b3;

/// Where a digest begins.
const START: u64 = 0xcbf2_9ce4_8422_2325;

/// How many sources a processor has.
const SOURCES: u8 = 16;

/// Accumulates the replies and notices of events.
pub(crate) trait Tally {
    /// Adds the reply and the notices of an event. By value, so that a reply without bytes is in
    /// registers.
    fn add(&mut self, reply: Reply, notices: &[Notice]);
}

/// The number of notices and the sum of the replies: little work compared with an event.
#[derive(Clone, Copy, Default)]
pub(crate) struct Totals {
    pub(crate) notices: u64,
    pub(crate) replies: u64,
}

impl Tally for Totals {
    fn add(&mut self, reply: Reply, notices: &[Notice]) {
        self.notices = self.notices.wrapping_add(notices.len() as u64);
        self.replies = self.replies.wrapping_add(value_of(reply));
    }
}

/// A digest of every reply, notice and summary, in order.
#[derive(Clone, Copy)]
pub(crate) struct Digest(u64);

impl Tally for Digest {
    fn add(&mut self, reply: Reply, notices: &[Notice]) {
        self.add_all(&[kind_of(&reply), value_of(reply)]);
        for notice in notices {
            self.add_notice(notice);
        }
    }
}

impl Digest {
    /// The digest of an empty sequence.
    pub(crate) fn new() -> Digest {
        Digest(START)
    }

    /// Its value.
    pub(crate) fn value(self) -> u64 {
        self.0
    }

    fn add_all(&mut self, values: &[u64]) {
        for value in values {
            self.0 = (self.0 ^ *value).wrapping_mul(FACTOR);
        }
    }

    fn add_notice(&mut self, notice: &Notice) {
        match notice {
            Notice::Accepted { ticket, vp, sint } => self.add_ticket(1, *ticket, *vp, *sint),
            Notice::Placed { ticket, vp, sint } => self.add_ticket(2, *ticket, *vp, *sint),
            Notice::Pending { vp, sint } => self.add_all(&[3, number(*vp), sint.number() as u64]),
            Notice::Requested { vp, vector } => {
                self.add_all(&[4, number(*vp), vector.number() as u64]);
            }
            Notice::FlagSet { vp, sint, flag } => {
                self.add_all(&[5, number(*vp), sint.number() as u64, *flag as u64]);
            }
            Notice::Consumed { ticket, vp, sint } => self.add_ticket(6, *ticket, *vp, *sint),
            Notice::Withdrawn { ticket, vp, sint } => self.add_ticket(7, *ticket, *vp, *sint),
            Notice::Expired { vp, index, due } => {
                self.add_all(&[8, number(*vp), *index as u64, *due]);
            }
            Notice::Skipped { vp, index, count } => {
                self.add_all(&[9, number(*vp), *index as u64, *count]);
            }
        }
    }

    fn add_ticket(&mut self, kind: u64, ticket: u64, vp: Vp, sint: Sint) {
        self.add_all(&[kind, ticket, number(vp), sint.number() as u64]);
    }

    /// Adds the summary of a board.
    pub(crate) fn add_summary(&mut self, board: &Board) {
        let summary = board.summary();
        for vp in (0..board.processors()).filter_map(|vp| Vp::new(vp)) {
            let next = summary.next(vp).map_or(0, |vector| vector.number());
            self.add_all(&[next as u64]);
            for sint in (0..SOURCES).filter_map(|sint| Sint::new(sint)) {
                self.add_all(&[summary.queued(vp, sint) as u64]);
            }
        }
        for page in 0..board.pages() {
            self.add_owner(summary.owner(page as u64));
        }
        self.add_earliest(summary.earliest());
    }

    /// Adds the owners of the first pages of a sparse board, of which the summary has none.
    pub(crate) fn add_owners(&mut self, board: &Board, pages: u16) {
        for page in 0..pages {
            self.add_owner(board.owner(page as u64));
        }
    }

    fn add_owner(&mut self, owner: Owner) {
        match owner {
            Owner::Guest => self.add_all(&[0]),
            Owner::Sim(vp) => self.add_all(&[1, number(vp)]),
            Owner::Sief(vp) => self.add_all(&[2, number(vp)]),
            Owner::Nothing => self.add_all(&[3]),
        }
    }

    fn add_earliest(&mut self, earliest: Option<(u128, TimerId)>) {
        if let Some((due, timer)) = earliest {
            let due = due.to_le_bytes();
            for byte in due {
                self.add_all(&[byte as u64]);
            }
            self.add_all(&[number(timer.vp()), timer.index() as u64]);
        }
    }
}

fn number(vp: Vp) -> u64 {
    vp.number() as u64
}

/// The kind of a reply, as a number.
fn kind_of(reply: &Reply) -> u64 {
    match reply {
        Reply::Done => 1,
        Reply::Value(_) => 2,
        Reply::Bytes(_) => 3,
        Reply::Taken(_) => 4,
        Reply::Accepted(_) => 5,
        Reply::FlagWasClear => 6,
        Reply::FlagWasSet => 7,
        Reply::GeneralProtection => 8,
        Reply::Refused(_) => 9,
    }
}

/// The number in a reply. A flag that was set counts as one, and bytes as their sum.
fn value_of(reply: Reply) -> u64 {
    match reply {
        Reply::Value(value) | Reply::Accepted(value) => value,
        Reply::Bytes(bytes) => bytes
            .iter()
            .fold(0, |sum: u64, byte| sum.wrapping_add(*byte as u64)),
        Reply::Taken(Some(vector)) => vector.number() as u64,
        Reply::FlagWasSet => 1,
        Reply::Refused(refusal) => refusal.number() as u64,
        Reply::Done | Reply::Taken(None) | Reply::FlagWasClear | Reply::GeneralProtection => 0,
    }
}
