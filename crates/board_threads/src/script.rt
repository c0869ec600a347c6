// The scripts of a crew, and their validation.
ghost use Rattle.std.specs.Prelude.{◌≡◌, ◌↔◌, ◌≤◌, IsTrue, vec_len};
ghost use Rattle.std.specs.List.{list_any, sum_by};
ghost use Rattle.actor_calls.specs.Sweeps.{is_absorb};
ghost use Rattle.board_threads.specs.Judging.{IsSized, IsSizedOn, AreScriptSizes, is_bad_step, is_bad_script, is_bad_raise, is_bad_line, has_bad_step};

use crate::recorded::MOST;
use board_terms::{Ticket, Vector, Vp};
use synic_board::Event;

/// A step of an actor's script.
#[derive(PartialEq, Debug, Drop)]
pub enum Step {
    /// Performs an event.
    Act(Event),
    /// Sweeps a word, and absorbs its bits.
    Sweep { vp: u8, part: u8 },
}

/// How the board of a crew is opened, and the events that actor 0 performs before any thread
/// starts. Of a crew on a board that is given, only the processors and the events count.
#[derive(Drop)]
pub struct Setup {
    pub processors: u8,
    pub pages: u8,
    pub first_ticket: Ticket,
    pub events: Vec<Event>,
}

/// The steps of each actor from 1 on, and the vectors that each line from 0 on raises.
#[derive(Drop)]
pub struct Scripts {
    pub actors: Vec<Vec<Step>>,
    pub lines: Vec<Vec<(Vp, Vector)>>,
}

/// Whether the sizes are within the limits, for a crew on a board of its own.
pub(crate) fn is_sized(setup: &Setup, scripts: &Scripts) -> bool
    ensures { IsTrue result ↔ IsSized setup.now scripts.now }
{
    let processors = setup.processors;
    let is_board = 1 <= processors && processors <= 8 && 1 <= setup.pages && setup.pages <= 64;
    is_board && are_script_sizes(setup, scripts)
}

/// Whether the sizes are within the limits, for a crew on a board with that many processors.
pub(crate) fn is_sized_on(processors: u8, setup: &Setup, scripts: &Scripts) -> bool
    ensures { IsTrue result ↔ IsSizedOn processors setup.now scripts.now }
{
    setup.processors == processors && are_script_sizes(setup, scripts)
}

fn are_script_sizes(setup: &Setup, scripts: &Scripts) -> bool
    ensures { IsTrue result ↔ AreScriptSizes setup.now scripts.now }
{
    if scripts.actors.len() > 15 || scripts.lines.len() > 16 {
        return false;
    }
    let room = MOST - 4 * usize::from(setup.processors);
    setup.events.len() <= room && fit(scripts.actors.as_slice(), room - setup.events.len())
}

/// Whether all steps fit.
fn fit(scripts: &[Vec<Step>], room: usize) -> bool
    ensures { IsTrue result ↔ sum_by (λ s. vec_len s) scripts.now ≤ room }
{
    let mut left = room;
    for script in scripts {
        if script.len() > left {
            return false;
        }
        left -= script.len();
    }
    true
}

/// Whether an event is an absorb, or a line raises at a processor that is not on the board.
pub(crate) fn has_bad(setup: &Setup, scripts: &Scripts) -> bool
    ensures { result ≡ has_bad_step setup.now scripts.now }
{
    absorbs(setup.events.as_slice())
        || any_is_bad(scripts.actors.as_slice())
        || any_strays(scripts.lines.as_slice(), setup.processors)
}

fn absorbs(events: &[Event]) -> bool
    ensures { result ≡ list_any is_absorb events.now }
{
    for event in events {
        if matches!(event, Event::Absorb { .. }) {
            return true;
        }
    }
    false
}

fn any_is_bad(scripts: &[Vec<Step>]) -> bool
    ensures { result ≡ list_any is_bad_script scripts.now }
{
    for script in scripts {
        if is_bad(script.as_slice()) {
            return true;
        }
    }
    false
}

fn is_bad(script: &[Step]) -> bool
    ensures { result ≡ list_any is_bad_step script.now }
{
    for step in script {
        if matches!(step, Step::Act(Event::Absorb { .. })) {
            return true;
        }
    }
    false
}

fn any_strays(scripts: &[Vec<(Vp, Vector)>], processors: u8) -> bool
    ensures { result ≡ list_any (is_bad_line processors) scripts.now }
{
    for script in scripts {
        if strays(script.as_slice(), processors) {
            return true;
        }
    }
    false
}

fn strays(script: &[(Vp, Vector)], processors: u8) -> bool
    ensures { result ≡ list_any (is_bad_raise processors) script.now }
{
    for (vp, _) in script {
        if vp.number() >= processors {
            return true;
        }
    }
    false
}
