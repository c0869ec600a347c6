// A ghost history.
ghost use Rattle.std.specs.Prelude.{◌≡◌, List, [], ◌∷◌, ◌++◌};
ghost use Rattle.std.specs.Coded.{coded_list};
ghost use base.Fml.{ftrue};
ghost use Rattle.synic_board.specs.contracts.history.Entry as entry_row;
ghost use Rattle.synic_board.specs.declared.history.Entry.{Entry};
ghost use Rattle.entry_log.specs.Log.{entry};

use std::marker::{Model, PhantomData};
use std::snapshot::Snapshot;
use synic_board::{Event, Reply};

/// The entries of a history. It takes no bytes.
pub struct History {
    marker: PhantomData<()>,
    pub ghost entries: { List Entry } by { coded_list entry_row.the_row.coded },
}

impl Model for History {
    ghost also_owns = { λ _. ftrue };
}

/// A history, and the call that joins it next.
#[derive(Drop)]
pub(crate) struct Added {
    pub before: Snapshot<History>,
    pub actor: u64,
    pub event: Snapshot<Event>,
    pub reply: Snapshot<Reply>,
}

impl History {
    /// A history without entries.
    pub fn new() -> History
        ensures { result.entries ≡ [] }
    {
        History {
            marker: PhantomData,
        }
    }

    /// The history with one more entry, the last.
    pub fn with(&self, actor: u64, event: &Event, reply: &Reply) -> History
        ensures { result.entries ≡ self.now.entries ++ entry actor event.now reply.now ∷ [] }
    {
        History::after(&Added {
            before: Snapshot::of(self),
            actor,
            event: Snapshot::of(event),
            reply: Snapshot::of(reply),
        })
    }

    /// The history with the call that joins it.
    pub(crate) fn after(added: &Added) -> History
        ensures { result.entries
            ≡ added.now.before.value.entries ++ entry added.now.actor added.now.event.value added.now.reply.value ∷ [] }
    {
        let _ = added;
        History {
            marker: PhantomData,
        }
    }
}

impl Drop for History {
    fn drop(self) {
        let Self { marker: _ } = self;
    }
}

// A history has no bytes, and its ghost value does not depend on the thread.
unsafe impl Send for History {}
