// What the rule of a page refuses, whatever the bodies of `LivePage` are.
ghost use Rattle.live_pages.specs.inside.Lies.{LiesAreRefused};
ghost use Rattle.std.specs.Prelude.{ℕ};

/// A step of the host that makes up what it found, or does not do what it records, breaks the rule of
/// a page: there is a state in which it may not be taken.
pub(crate) fn lies_are_refused()
    ensures { (key : ℕ) → LiesAreRefused key }
{}
