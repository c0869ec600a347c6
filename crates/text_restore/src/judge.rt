// The judge for the lines of an image.
ghost use Rattle.text_restore.specs.Taking.{stage_of, IsGood, IsWrong};

use crate::stage::{Stage, take_line};
use std::alloc::Global;
use text_base::Sink;
use text_driver::{Judge, Taken};

/// Reads the lines of an image into a board.
#[derive(Drop)]
pub(crate) struct ImageJudge {
    pub(crate) alloc: Global,
    pub(crate) stage: Stage,
}

impl Judge for ImageJudge {
    type Fault = ();

    ghost good = { λ old line answer new. IsGood (stage_of old.stage) line answer (stage_of new.stage) };

    ghost wrong = { λ judge line fault. IsWrong (stage_of judge.stage) line fault };

    fn take<S: Sink>(&mut self, line: &[u8], _out: &mut S) -> Result<Taken<()>, S::Error> {
        Ok(take_line(self.alloc, &mut self.stage, line))
    }
}
