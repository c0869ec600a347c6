// Where the setup and the last absorbs are in a history.
ghost use Rattle.std.specs.Prelude.{◌≡◌, ◌↔◌, IsTrue, All};
ghost use Rattle.board_threads.specs.inside.Work.{InPlace};

use synic_board::Entry;

/// Whether the first and the last entries are by actor 0. The contract of a lock says nothing about
/// the order in which it is acquired, so this has to be checked.
pub(crate) fn are_in_place(history: &[Entry], setup: usize, ends: usize) -> bool
    ensures placed { IsTrue result → InPlace setup ends history.now }
    ensures all { InPlace setup ends history.now → IsTrue result }
{
    if history.len() < setup || history.len() - setup < ends {
        return false;
    }
    let (first, others) = history.split_at(setup);
    let (_, last) = others.split_at(others.len() - ends);
    are_main(first) && are_main(last)
}

fn are_main(entries: &[Entry]) -> bool
    ensures { IsTrue result ↔ All (λ e. e.actor ≡ 0) entries.now }
{
    for entry in entries {
        if entry.actor != 0 {
            return false;
        }
    }
    true
}
