// The state of a partly read crew script.
ghost use Rattle.std.specs.Prelude.{◌≤◌};

use board_terms::{Vector, Vp};
use board_threads::{Scripts, Setup, Step};

/// The section of the next line, with its steps so far.
#[derive(Drop)]
pub(crate) enum Section {
    Setup,
    Actor(Vec<Step>),
    Line(Vec<(Vp, Vector)>),
}

/// A partly read crew script: the scripts of the closed sections, and the current one.
#[derive(Drop)]
pub(crate) struct CrewScript {
    pub(crate) setup: Setup,
    pub(crate) scripts: Scripts,
    pub(crate) section: Section,
    ghost bound: { setup.processors ≤ 64 },
}
