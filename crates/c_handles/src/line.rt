// A line that owns a share of its words, for one thread.
ghost use Rattle.std.specs.Prelude.{◌≡◌, ◌<◌, ◌≤◌, ◌↔◌, [], IfOk, OnErr, IfSome, IfNone, IsErrOf, IsSome, replicate, vec_len};
ghost use Rattle.std.specs.Arc.{arc_value};
ghost use Rattle.posted_words.specs.Answers.{is_fresh};
ghost use Rattle.posted_words.specs.Words.{AreManyWordSizes, shared_words, raise_of, sweep_of, token};
ghost use Rattle.c_handles.specs.Lines.{line_model, new_line, with_step, with_one_split_off, IsSwept};

use board_terms::{Vector, Vp};
use posted_words::{Line, PostedFault, PostedWords, Raised};
use std::alloc::Global;
use std::marker::Model;
use std::sync::Arc;
use thiserror::Error;

/// Why no line was split off.
#[derive(Clone, Copy, PartialEq, Eq, Debug, Drop, Error)]
pub enum SplitFault {
    #[error("all lines are given away")]
    NoMore = 1,
    #[error("out of memory")]
    Memory = 2,
}

/// A line with a share of its words, and the lines that it may still split off. Its contract shows
/// the words, the steps of the line, and how many lines are left.
#[derive(Drop)]
pub struct OwnedLine {
    words: Arc<PostedWords>,
    line: Line,
    spare: Vec<Line>,
}

impl Model for OwnedLine {
    ghost use Rattle.std.specs.Prelude.{◌≡◌, [], replicate, vec_len};
    ghost use Rattle.std.specs.Arc.{arc_value};
    ghost use Rattle.posted_words.specs.Words.{token};
    ghost use Rattle.c_handles.specs.Lines.{LineModel, line_model};

    ghost Value = { LineModel };

    ghost view = { λ h. line_model (arc_value h.words) h.line.actions (vec_len h.spare) };

    ghost invariant = { λ h. (h.line.of ≡ (arc_value h.words).name)
        × (h.spare.items ≡ replicate (vec_len h.spare) (token (arc_value h.words).name [])) };
}

impl OwnedLine {
    /// The first line of new words for that many processors, with all bits clear. It has no steps
    /// and may split off 319 lines. `BadSize` unless there are 1 to 64 processors, which is checked
    /// first; `Memory` if an allocation fails.
    pub fn open(alloc: Global, processors: u8) -> Result<OwnedLine, PostedFault>
        ensures size { IsErrOf result PostedFault.BadSize ↔ (¬ AreManyWordSizes processors 64 256) }
        ensures line { IfOk result (λ l. l ≡ line_model (shared_words l.words.name processors 64 256) [] 319) }
    {
        let (words, mut spare, mut lines) = PostedWords::open_many(alloc, processors, 64, 256)?;
        let Some(line) = lines.pop() else {
            unreachable!()
        };
        if spare.append(&mut lines).is_err() {
            return Err(PostedFault::Memory);
        }
        match Arc::new(alloc, words) {
            Ok(words) => Ok(OwnedLine { words, line, spare }),
            Err(_) => Err(PostedFault::Memory),
        }
    }

    /// Splits off a line of the same words, without steps. `NoMore` if none is left, which is
    /// checked first; `Memory` if an allocation fails, or the reference count of the words is at
    /// its limit.
    pub fn split(&mut self, alloc: Global) -> Result<Box<OwnedLine>, SplitFault>
        ensures more { IsErrOf result SplitFault.NoMore ↔ (self.old.spare ≡ 0) }
        ensures given { IfOk result (λ line. line.value ≡ new_line self.old.words) }
        ensures less { IfOk result (λ _. self.new ≡ with_one_split_off self.old) }
        ensures unchanged { OnErr result (self.new ≡ self.old) }
    {
        let Some(line) = self.spare.pop() else {
            return Err(SplitFault::NoMore);
        };
        let Ok(words) = Arc::try_clone(&self.words) else {
            self.spare.push_reserved(line);
            return Err(SplitFault::Memory);
        };
        let spare = Vec::new(alloc);
        match Box::new(alloc, OwnedLine { words, line, spare }) {
            Ok(line) => Ok(line),
            Err(refused) => {
                self.spare.push_reserved(refused.value.line);
                Err(SplitFault::Memory)
            }
        }
    }

    /// Raises a vector, 16 to 255, of a processor of the words. Never blocks. `None`, and no
    /// effect, if there is no such vector or processor. `Fresh` means that the bit was clear, so
    /// the thread must kick the processor; `PostedWords::raise` says what is proved of this.
    pub fn raise(&mut self, vp: u8, vector: u8) -> Option<Raised>
        ensures there { IsSome result ↔ ((vp < self.old.words.processors) × (16 ≤ vector)) }
        ensures raised { IfSome result (λ r. self.new ≡ with_step self.old (raise_of vp vector (is_fresh r))) }
        ensures unchanged { IfNone result (self.new ≡ self.old) }
    {
        let vp = self.processor(vp)?;
        let vector = Vector::new(vector)?;
        Some(self.words.raise(&mut self.line, vp, vector))
    }

    /// Takes the bits of a part, 0 to 3, of a processor of the words. Never blocks. Bit `n` of part
    /// `p` is vector `64 * p + n`. `None`, and no effect, if there is no such part or processor.
    pub fn sweep(&mut self, vp: u8, part: u8) -> Option<u64>
        ensures there { IsSome result ↔ ((vp < self.old.words.processors) × (part < 4)) }
        ensures swept { IfSome result (λ bits. self.new ≡ with_step self.old (sweep_of vp part bits)) }
        ensures unchanged { IfNone result (self.new ≡ self.old) }
    {
        let vp = self.processor(vp)?;
        if part < 4 {
            Some(self.words.sweep(&mut self.line, vp, part))
        } else {
            None
        }
    }

    /// `sweep` for a board of that many processors: takes nothing, and returns 0, if the board or the
    /// words do not have this part of this processor.
    pub fn sweep_for(&mut self, processors: u8, vp: u8, part: u8) -> u64
        ensures { IsSwept processors self.old vp part result self.new }
    {
        if vp < processors {
            self.sweep(vp, part).unwrap_or(0)
        } else {
            0
        }
    }

    /// The processor with this number, if the words have it.
    fn processor(&self, number: u8) -> Option<Vp>
        ensures there { IsSome result ↔ (number < self.now.words.processors) }
        ensures value { IfSome result (λ vp. vp ≡ number) }
    {
        if number < self.words.processors() {
            Vp::new(number)
        } else {
            None
        }
    }
}
