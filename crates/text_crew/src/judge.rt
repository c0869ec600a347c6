// The judge for the lines of a crew script.
ghost use Rattle.std.specs.Prelude.{◌≡◌, [], Ok, Err};
ghost use Rattle.text_crew.specs.Reading.{parse_line};
ghost use Rattle.text_crew.specs.inside.View.{optional_crew};

use crate::held::CrewScript;
use crate::script::read_line;
use std::alloc::Global;
use text_base::Sink;
use text_driver::{Judge, Taken};
use text_lines::ScriptFault;

/// Parses the lines of a crew script. Nothing is written before the whole script is read.
#[derive(Drop)]
pub(crate) struct CrewJudge {
    pub(crate) alloc: Global,
    pub(crate) script: Option<CrewScript>,
}

impl Judge for CrewJudge {
    type Fault = ScriptFault;

    ghost good = { λ old line answer new. (answer ≡ [])
        × (parse_line (optional_crew old.script) line ≡ Ok (optional_crew new.script)) };

    ghost wrong = { λ judge line fault. parse_line (optional_crew judge.script) line ≡ Err fault };

    fn take<S: Sink>(&mut self, line: &[u8], _out: &mut S) -> Result<Taken<ScriptFault>, S::Error> {
        Ok(read_line(self.alloc, &mut self.script, line))
    }
}
