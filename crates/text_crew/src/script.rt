// Parsing a crew script.
ghost use Rattle.std.specs.Prelude.{◌≡◌, ◌≤◌, ◌<◌, ◌↔◌, ◌∷◌, if◌then◌else◌, length, vec_len, nat_lt, IsTrue, OnOk, IfSome, None, Some};
ghost use Rattle.std.specs.List.{sum_by};
ghost use Rattle.std.specs.Option.{option_map};
ghost use Rattle.synic_board.specs.State.{processors};
ghost use Rattle.text_lines.specs.Sizes.{are_sizes, pages_held};
ghost use Rattle.text_crew.specs.Crew.{new_crew, finished, entries};
ghost use Rattle.text_crew.specs.Running.{crew_on};
ghost use Rattle.text_crew.specs.Reading.{parse_act, parse_step, parse_line_step, parse_sweep, parse_section_line, parse_first, with_actor, with_line, section_line, parse_line};
ghost use Rattle.text_crew.specs.inside.View.{section_of, crew_of, optional_crew, state_in, IsLineResult, Appends};

use crate::held::{CrewScript, Section};
use board_terms::{Ticket, Vector, Vp};
use board_threads::{Scripts, Setup, Step};
use std::alloc::{AllocError, Global};
use std::mem;
use synic_board::{Board, Event};
use text_base::Fields;
use text_driver::Taken;
use text_lines::{ScriptFault, event_of, opening_of, skips, u8_of, vector_of};

/// The greatest number of entries of a history.
const MOST: usize = 65_536;

/// Parses a line of at most 640 bytes.
pub(crate) fn read_line(
    alloc: Global,
    script: &mut Option<CrewScript>,
    line: &[u8],
) -> Taken<ScriptFault>
    requires { length line.now ≤ 640 }
    ensures { IsLineResult result (parse_line (optional_crew script.old) line.now) (optional_crew script.new) }
{
    if skips(line) {
        return Taken::Good;
    }
    let mut fields = Fields::new(line);
    let Some(word) = fields.next() else {
        return Taken::Wrong(ScriptFault::Form);
    };
    match script {
        Some(script) => script.take_line(alloc, word, &mut fields),
        None => open(alloc, script, word, &mut fields),
    }
}

/// Takes the first item, which must be a board line.
fn open(
    alloc: Global,
    script: &mut Option<CrewScript>,
    word: &[u8],
    fields: &mut Fields<'_>,
) -> Taken<ScriptFault>
    ensures { IsLineResult result (parse_first word.now fields.old) (optional_crew script.new) }
{
    if word != b"board".as_slice() {
        return Taken::Wrong(ScriptFault::First);
    }
    let Some((processors, pages, first_ticket)) = opening_of(fields) else {
        return Taken::Wrong(ScriptFault::First);
    };
    let Some(pages) = pages_within(processors, pages) else {
        return Taken::Wrong(ScriptFault::Size);
    };
    *script = Some(CrewScript::new(alloc, processors, pages, first_ticket));
    Taken::Good
}

/// The pages that the board of a board line holds, if its sizes are within the limits: none if it is
/// sparse.
fn pages_within(processors: u8, pages: Option<u8>) -> Option<u8>
    ensures { result ≡ (if are_sizes processors pages then Some (pages_held pages) else None) }
{
    let most_processors = if pages.is_none() { 64 } else { 8 };
    if processors < 1 || processors > most_processors {
        return None;
    }
    match pages {
        None => Some(0),
        Some(pages) if 1 <= pages && pages <= 64 => Some(pages),
        Some(_) => None,
    }
}

impl CrewScript {
    /// The script of a crew whose board line was read, without steps.
    fn new(alloc: Global, processors: u8, pages: u8, first_ticket: Ticket) -> CrewScript
        requires { processors ≤ 64 }
        ensures { crew_of result ≡ new_crew processors pages first_ticket }
    {
        CrewScript {
            setup: Setup {
                processors,
                pages,
                first_ticket,
                events: Vec::new(alloc),
            },
            scripts: Scripts {
                actors: Vec::new(alloc),
                lines: Vec::new(alloc),
            },
            section: Section::Setup,
        }
    }

    /// What is read of a script before its first line: a crew of a board that is given, or nothing.
    pub(crate) fn on(alloc: Global, board: &Option<Board>) -> Option<CrewScript>
        ensures value { optional_crew result ≡ option_map crew_on (state_in board.now) }
        ensures bound { IfSome (state_in board.now) (λ s. processors s ≤ 64) }
    {
        let board = board.as_ref()?;
        let script = CrewScript::new(
            alloc,
            board.processors(),
            board.pages(),
            board.next_ticket(),
        );
        Some(script)
    }

    /// Takes a line after the board line.
    fn take_line(
        &mut self,
        alloc: Global,
        word: &[u8],
        fields: &mut Fields<'_>,
    ) -> Taken<ScriptFault>
        ensures { IsLineResult result (parse_section_line (crew_of self.old) word.now fields.old)
            (Some (crew_of self.new)) }
    {
        if word == b"actor".as_slice() {
            return self.begin_actor(alloc, fields);
        }
        if word == b"line".as_slice() {
            return self.begin_line(alloc, fields);
        }
        self.take_step(word, fields)
    }

    /// Takes a line of the current section.
    fn take_step(&mut self, word: &[u8], fields: &mut Fields<'_>) -> Taken<ScriptFault>
        ensures { IsLineResult result
            (section_line (section_of self.old.section) (crew_of self.old) word.now fields.old)
            (Some (crew_of self.new)) }
    {
        let has_room = self.has_room();
        match &mut self.section {
            Section::Setup => match act_of(word, fields) {
                None => Taken::Wrong(ScriptFault::Form),
                Some(_) if !has_room => Taken::Wrong(ScriptFault::Many),
                Some(event) => put(&mut self.setup.events, event),
            },
            Section::Actor(steps) => match step_of(word, fields) {
                None => Taken::Wrong(ScriptFault::Form),
                Some(_) if !has_room => Taken::Wrong(ScriptFault::Many),
                Some(step) => put(steps, step),
            },
            Section::Line(raises) => match raise_of(self.setup.processors, word, fields) {
                None => Taken::Wrong(ScriptFault::Form),
                Some(raise) => put(raises, raise),
            },
        }
    }

    /// Begins the script of the next actor.
    fn begin_actor(&mut self, alloc: Global, fields: &Fields<'_>) -> Taken<ScriptFault>
        ensures { IsLineResult result (with_actor (crew_of self.old) fields.now) (Some (crew_of self.new)) }
    {
        if !fields.is_empty() {
            return Taken::Wrong(ScriptFault::Form);
        }
        if self.close().is_err() {
            return Taken::Memory;
        }
        if self.scripts.actors.len() >= 15 {
            return Taken::Wrong(ScriptFault::Many);
        }
        self.section = Section::Actor(Vec::new(alloc));
        Taken::Good
    }

    /// Begins the script of the next line.
    fn begin_line(&mut self, alloc: Global, fields: &Fields<'_>) -> Taken<ScriptFault>
        ensures { IsLineResult result (with_line (crew_of self.old) fields.now) (Some (crew_of self.new)) }
    {
        if !fields.is_empty() {
            return Taken::Wrong(ScriptFault::Form);
        }
        if self.close().is_err() {
            return Taken::Memory;
        }
        if self.scripts.lines.len() >= 16 {
            return Taken::Wrong(ScriptFault::Many);
        }
        self.section = Section::Line(Vec::new(alloc));
        Taken::Good
    }

    /// Closes the current section.
    pub(crate) fn close(&mut self) -> Result<(), AllocError>
        ensures { OnOk result (crew_of self.new ≡ finished (crew_of self.old)) }
    {
        match mem::replace(&mut self.section, Section::Setup) {
            Section::Setup => {}
            Section::Actor(steps) => {
                if self.scripts.actors.push(steps).is_err() {
                    return Err(AllocError);
                }
            }
            Section::Line(raises) => {
                if self.scripts.lines.push(raises).is_err() {
                    return Err(AllocError);
                }
            }
        }
        Ok(())
    }

    /// Whether one more entry fits into a history.
    fn has_room(&self) -> bool
        ensures { result ≡ nat_lt (entries (crew_of self.now)) 65536 }
    {
        let open = match &self.section {
            Section::Actor(steps) => steps.len(),
            Section::Setup | Section::Line(_) => 0,
        };
        let last = 4 * usize::from(self.setup.processors);
        if self.setup.events.len() >= MOST - last {
            return false;
        }
        let left = MOST - last - self.setup.events.len();
        if open >= left {
            return false;
        }
        fit(self.scripts.actors.as_slice(), left - open)
    }
}

/// Appends an item.
fn put<T: Drop>(items: &mut Vec<T>, item: T) -> Taken<ScriptFault>
    ensures { Appends result items.old.items items.new.items item }
{
    if items.push(item).is_err() {
        return Taken::Memory;
    }
    Taken::Good
}

/// Whether all scripts together have fewer steps than that.
fn fit(scripts: &[Vec<Step>], room: usize) -> bool
    ensures { IsTrue result ↔ sum_by (λ s. vec_len s) scripts.now < room }
{
    let mut left = room;
    for script in scripts {
        if script.len() >= left {
            return false;
        }
        left -= script.len();
    }
    left > 0
}

/// The event of a line, unless it is an absorb.
fn act_of(word: &[u8], fields: &mut Fields<'_>) -> Option<Event>
    ensures { result ≡ parse_act (word.now ∷ fields.old) }
{
    let event = event_of(word, fields)?;
    if matches!(event, Event::Absorb { .. }) {
        return None;
    }
    Some(event)
}

/// The step of a line of an actor's script.
fn step_of(word: &[u8], fields: &mut Fields<'_>) -> Option<Step>
    ensures { result ≡ parse_step word.now fields.old }
{
    if word == b"absorb".as_slice() {
        return sweep_of(fields);
    }
    let event = act_of(word, fields)?;
    Some(Step::Act(event))
}

fn sweep_of(fields: &mut Fields<'_>) -> Option<Step>
    ensures { result ≡ parse_sweep fields.old }
{
    let vp = u8_of(fields)?;
    let part = u8_of(fields)?;
    if !fields.is_empty() {
        return None;
    }
    Some(Step::Sweep { vp, part })
}

/// The raise of a line in a line's script.
fn raise_of(processors: u8, word: &[u8], fields: &mut Fields<'_>) -> Option<(Vp, Vector)>
    requires { processors ≤ 64 }
    ensures { result ≡ parse_line_step processors word.now fields.old }
{
    if word != b"raise".as_slice() {
        return None;
    }
    let vp = u8_of(fields)?;
    let vector = vector_of(fields)?;
    if !fields.is_empty() || vp >= processors {
        return None;
    }
    let vp = Vp::new(vp)?;
    Some((vp, vector))
}
