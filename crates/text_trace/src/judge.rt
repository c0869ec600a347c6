// The judge for the lines of a trace.
ghost use Rattle.text_trace.specs.inside.Stages.{stage_of, IsGood, IsWrong, HasLines};

use crate::stage::{Stage, take_line};
use board_terms::Notices;
use std::alloc::Global;
use text_base::Sink;
use text_driver::{Judge, Taken};

/// Validates the lines of a trace: performs the events on a board of its own, and compares the
/// replies.
#[derive(Drop)]
pub(crate) struct TraceJudge {
    pub(crate) alloc: Global,
    pub(crate) stage: Stage,
    pub(crate) notices: Notices,
    pub(crate) text: Vec<u8>,
}

impl Judge for TraceJudge {
    type Fault = ();

    ghost ready = { λ lines judge. HasLines lines (stage_of judge.stage) };

    ghost good = { λ old line answer new. IsGood (stage_of old.stage) line answer (stage_of new.stage) };

    ghost wrong = { λ judge line fault. IsWrong (stage_of judge.stage) line fault };

    fn take<S: Sink>(&mut self, line: &[u8], _out: &mut S) -> Result<Taken<()>, S::Error> {
        Ok(take_line(
            self.alloc,
            &mut self.stage,
            line,
            &mut self.notices,
            &mut self.text,
        ))
    }
}
