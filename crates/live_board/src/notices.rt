// The notices of one call, of which a tick may have more than a list of the board has capacity for.
ghost use Rattle.std.specs.Prelude.{◌≡◌, ◌<◌, ◌≤◌, ◌+◌, [], ◌∷◌, ◌++◌, length, IfOk};

use board_terms::{Notice, Notices};
use std::alloc::{AllocError, Global};
use std::marker::Model;

/// The greatest number of notices of one call: of a tick 16 for looks and 16 for marks at each of 64
/// processors, and its own 192, and 320 of an EOM of each processor.
pub const MOST_NOTICES: usize = 22_720;

/// A list of notices with capacity for those of any call.
#[derive(Drop)]
pub(crate) struct Journal {
    items: Vec<Notice>,
}

impl Model for Journal {
    ghost use Rattle.std.specs.Prelude.{List, ◌≤◌, vec_len, vec_capacity};
    ghost use Rattle.board_terms.specs.declared.notices.Notice.{Notice};

    ghost Value = { List Notice };

    ghost view = { λ a. a.items.items };

    ghost invariant = { λ a. (22720 ≤ vec_capacity a.items) × (vec_len a.items ≤ 22720) };
}

impl Journal {
    /// An empty list. The only call here that allocates.
    fn open(alloc: Global) -> Result<Journal, AllocError>
        ensures { IfOk result (λ n. n ≡ []) }
    {
        let items = Vec::with_capacity(alloc, MOST_NOTICES)?;
        Ok(Journal { items })
    }

    /// Appends a notice.
    fn push(&mut self, notice: Notice)
        requires { length self.old < 22720 }
        ensures { self.new ≡ self.old ++ notice ∷ [] }
    {
        self.items.push_reserved(notice);
    }

    /// Empties the list.
    pub(crate) fn clear(&mut self)
        ensures { self.new ≡ [] }
    {
        self.items.clear();
    }

    /// The notices, in order.
    fn as_slice(&self) -> &[Notice]
        ensures value { result.now ≡ self.now }
        ensures bound { length result.now ≤ 22720 }
    {
        self.items.as_slice()
    }
}

/// Moves all notices of a list to the end of a journal.
pub(crate) fn move_to(notices: &mut Notices, journal: &mut Journal)
    requires { length journal.old + length notices.old ≤ 22720 }
    ensures moved { journal.new ≡ journal.old ++ notices.old }
    ensures empty { notices.new ≡ [] }
{
    record(notices, journal);
    notices.clear();
}

/// The same, if there is room for all that a list can have.
pub(crate) fn move_all(notices: &mut Notices, journal: &mut Journal)
    requires { length journal.old + 320 ≤ 22720 }
    ensures moved { journal.new ≡ journal.old ++ notices.old }
    ensures few { length notices.old ≤ 320 }
    ensures empty { notices.new ≡ [] }
{
    let _ = notices.as_slice();
    move_to(notices, journal);
}

/// Appends notices to a journal.
fn record(notices: &Notices, journal: &mut Journal)
    requires { length journal.old + length notices.now ≤ 22720 }
    ensures { journal.new ≡ journal.old ++ notices.now }
{
    for notice in notices.as_slice() {
        journal.push(*notice);
    }
}

/// The notices of one call on a live board, in order. Those of most calls are in a short list, and those of
/// a tick or a write of a page register in a long one, so one of the two is empty. `open` allocates both.
#[derive(Drop)]
pub struct LiveNotices {
    pub(crate) few: Notices,
    pub(crate) many: Journal,
}

impl Model for LiveNotices {
    ghost use Rattle.std.specs.Prelude.{◌≡◌, ◌⊎◌, List, [], ◌++◌};
    ghost use Rattle.board_terms.specs.declared.notices.Notice.{Notice};

    ghost Value = { List Notice };

    ghost view = { λ a. a.few ++ a.many };

    ghost invariant = { λ a. (a.few ≡ []) ⊎ (a.many ≡ []) };
}

impl LiveNotices {
    /// An empty list with capacity for the notices of any call.
    pub fn open(alloc: Global) -> Result<LiveNotices, AllocError>
        ensures { IfOk result (λ n. n ≡ []) }
    {
        let few = Notices::open(alloc)?;
        let many = Journal::open(alloc)?;
        Ok(LiveNotices { few, many })
    }

    /// Empties the list and keeps its capacity.
    pub fn clear(&mut self)
        ensures { self.new ≡ [] }
    {
        self.few.clear();
        self.many.clear();
    }

    /// The notices, in order.
    pub fn as_slice(&self) -> &[Notice]
        ensures value { result.now ≡ self.now }
        ensures bound { length result.now ≤ 22720 }
    {
        let few = self.few.as_slice();
        if few.is_empty() {
            self.many.as_slice()
        } else {
            few
        }
    }
}
