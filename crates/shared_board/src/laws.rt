// What the raises of lines, and what watchers have seen, have to do with the history of a shared board.
ghost use Rattle.std.specs.Prelude.{◌≡◌, ◌⊎◌, ℕ, ◌++◌, List, All, length, map};
ghost use mathlib.Core.List.{IsPrefix};
ghost use Rattle.posted_words.specs.Settled.{Settled};
ghost use Rattle.posted_words.specs.Words.{Token, actions_of};
ghost use Rattle.synic_board.specs.State.{State};
ghost use Rattle.synic_board.specs.declared.history.Entry.{Entry};
ghost use Rattle.published_words.specs.Words.{Watching, IsWithin};
ghost use Rattle.actor_calls.specs.Absorbed.{AreAbsorbed};
ghost use Rattle.shared_board.specs.Calling.{Calling, calls_by};
ghost use Rattle.shared_board.specs.Sweeping.{OnlyRaises, swept_by};
ghost use Rattle.shared_board.specs.Witnessed.{IsEnded};

/// If each actor absorbs by a sweeper of its own, then once all actors, sweepers and lines are back,
/// for each vector: the raises that were answered `Fresh` are as many as the absorbs in the history
/// with its bit, plus one if it is still set; and if the vector was raised at all, some raise was
/// `Fresh`. The premises are what `SharedBoard::into_board` and `PostedWords::gather` ensure, and
/// what each absorb adds to its actor and to its sweeper.
pub fn each_fresh_raise_is_absorbed_once()
    ensures { (start now : State) (history : List Entry) (actors : List Calling) (sweepers lines : List Token) (n : ℕ)
        (standing : List ℕ)
        → IsEnded start now history actors → map actions_of sweepers ≡ map swept_by actors → All OnlyRaises lines
        → length standing ≡ n → Settled n (map actions_of (sweepers ++ lines)) standing
        → AreAbsorbed n (map actions_of lines) history standing }
{}

/// Two watchers whose histories are prefixes of one history: what one of them has seen begins with
/// what the other has seen. The premises are what `PublishingBoard::compare` and
/// `WatchedBoard::into_board_with_watchers` ensure.
pub fn two_watchers_agree()
    ensures { (history : List Entry) (one other : Watching) → IsWithin history one → IsWithin history other
        → IsPrefix one.seen other.seen ⊎ IsPrefix other.seen one.seen }
{}

/// With all actors back: in the history that a watcher has seen, the entries of each actor are that
/// actor's first calls, in order. The premises are what `WatchedBoard::into_board_with_watchers`
/// ensures.
pub fn a_watcher_sees_first_calls()
    ensures { (start now : State) (history : List Entry) (actors : List Calling) (watcher : Watching)
        → IsEnded start now history actors → IsWithin history watcher
        → All (λ (a : Calling). IsPrefix (calls_by a.number start watcher.seen) a.calls) actors }
{}
