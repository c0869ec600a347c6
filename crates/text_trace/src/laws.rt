//! Theorems about the definitions.
ghost use Rattle.std.specs.Prelude.{◌≡◌, ℕ, List, length};
ghost use Rattle.std.specs.List.{All};
ghost use Rattle.synic_board.specs.State.{State};
ghost use Rattle.synic_board.specs.History.{IsLegal};
ghost use Rattle.synic_board.specs.declared.history.Entry.{Entry};
ghost use Rattle.text_history.specs.Trace.{IsEntry, IsBeginning, IsTrace, trace};
ghost use Rattle.text_history.specs.declared.format.Format.{Format};
ghost use Rattle.text_trace.specs.Verdicts.{FirstIllegal};

/// A text has at most one first wrong line.
pub fn one_wrong_line()
    ensures { (text : List ℕ) (k l : ℕ) → FirstIllegal text k → FirstIllegal text l → k ≡ l }
{}

/// A text determines how many entries it has.
pub fn one_count()
    ensures { (text : List ℕ) (m n : ℕ) → IsTrace text m → IsTrace text n → m ≡ n }
{}

/// A text is the trace of at most one history, from one beginning and state, in one format: parsing
/// the printed trace of a legal history gives that history.
pub fn one_history()
    ensures { (text : List ℕ) (m n : ℕ) (a : IsTrace text m) (b : IsTrace text n)
        → (a.format ≡ b.format) × (a.beginning ≡ b.beginning) × (a.state ≡ b.state) × (a.history ≡ b.history) }
{}

/// The printed text of a legal history, in any format, is its trace.
pub fn written_is_legal()
    ensures { (f : Format) (beginning : List ℕ) (s : State) (history : List Entry) → IsBeginning f beginning s
        → All (IsEntry f) history → IsLegal s history
        → IsTrace (trace f beginning s history) (length history) }
{}
