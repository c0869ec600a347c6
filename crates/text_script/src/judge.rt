// What `drive` calls for the lines of a script.
ghost use Rattle.text_script.specs.inside.Judging.{IsAnswered, Advances, IsFaulty, machine_of};

use crate::respond::{advance, respond};
use board_terms::Notices;
use std::alloc::Global;
use synic_board::Board;
use text_base::Sink;
use text_driver::{Judge, Taken};
use text_lines::ScriptFault;

/// Validates the lines of a script, and performs them on a board of its own.
#[derive(Drop)]
pub(crate) struct ScriptJudge {
    pub(crate) alloc: Global,
    pub(crate) board: Option<Board>,
    pub(crate) notices: Notices,
}

// README text_driver: begin
impl Judge for ScriptJudge {
    type Fault = ScriptFault;

    ghost good = { λ old line answer new. IsAnswered (machine_of old.board) line answer (machine_of new.board) };

    ghost wrong = { λ judge line fault. IsFaulty (machine_of judge.board) line fault };

    #[inline(always)]
    fn take<S: Sink>(&mut self, line: &[u8], out: &mut S) -> Result<Taken<ScriptFault>, S::Error> {
        respond(self.alloc, &mut self.board, line, &mut self.notices, out)
    }
}
// README text_driver: end

/// Validates and performs the lines of a script in the same way, and forms no answers.
#[derive(Drop)]
pub(crate) struct SaveJudge {
    pub(crate) script: ScriptJudge,
}

impl Judge for SaveJudge {
    type Fault = ScriptFault;

    ghost good = { λ old line answer new. Advances (machine_of old.script.board) line (machine_of new.script.board) };

    ghost wrong = { λ judge line fault. IsFaulty (machine_of judge.script.board) line fault };

    #[inline(always)]
    fn take<S: Sink>(&mut self, line: &[u8], _out: &mut S) -> Result<Taken<ScriptFault>, S::Error> {
        let script = &mut self.script;
        Ok(advance(script.alloc, &mut script.board, line, &mut script.notices))
    }
}
