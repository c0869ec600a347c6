// Judges, which validate the lines of a text.
ghost use Rattle.std.specs.Prelude.{ℕ, ◌<◌, ◌≤◌, List, IfOk, length};
ghost use Rattle.text_driver.specs.Judging.{Answers, GoesOn};

use text_base::Sink;

/// The result of taking a line.
#[derive(Clone, Copy)]
pub enum Taken<F> {
    /// The line is good, and its answer was put.
    Good,
    /// The line is wrong.
    Wrong(F),
    /// An allocation failed.
    Memory,
}

/// Validates a text line by line. A good line leads from one state to the next.
pub trait Judge {
    /// What is wrong with a line.
    type Fault: Copy;

    // The judge may take one more line after that many good ones.
    ghost ready: { ℕ → Self → Type 0 } = { λ _ _. Unit {0} };

    // In a state, a line is good, this is its answer, and it leads to another state.
    ghost good: { Self → List ℕ → List ℕ → Self → Type 0 };

    // In a state, a line has this fault.
    ghost wrong: { Self → List ℕ → Self.Fault → Type 0 };

    /// Takes a line, without its line feed, and appends its answer to `out`; nothing for a line that is
    /// not good. An error is one of `out`.
    fn take<S: Sink>(&mut self, line: &[u8], out: &mut S) -> Result<Taken<Self::Fault>, S::Error>
        requires short { length line.now ≤ 640 }
        requires ready { (lines : ℕ) × (lines < 1073741824) × ready lines self.old }
        ensures taken { IfOk result
            (λ taken. Answers good wrong taken self.old self.new line.now (S.text out.old) (S.text out.new)) }
        ensures ready { IfOk result (λ taken. GoesOn ready taken self.old self.new) };
}
