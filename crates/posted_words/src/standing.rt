// The bits that no sweep took.
ghost use Rattle.std.specs.Prelude.{◌≡◌, ◌<◌, ◌↔◌, IsTrue, All, length, slice_index};
ghost use Rattle.posted_words.specs.Words.{word_of};

use crate::words::word_of;
use board_terms::Vp;
use std::marker::Model;

/// The bits that were set when the tokens were gathered: four words for each processor.
#[derive(Drop)]
pub struct Standing {
    pub(crate) words: Vec<u64>,
}

impl Model for Standing {
    ghost use Rattle.std.specs.Prelude.{ℕ, List};

    ghost Value = { List ℕ };

    ghost view = { λ s. s.words.items };
}

impl Standing {
    /// The bits of a processor's part, 0 to 3: bit `n` of part `p` is vector `64 * p + n`. Requires
    /// that the words have the processor.
    pub fn word(&self, vp: Vp, part: u8) -> u64
        requires there { word_of vp part < length self.now }
        requires part { part < 4 }
        ensures { result ≡ slice_index self.now (word_of vp part) }
    {
        self.words[word_of(vp, part)]
    }

    /// Whether no bit is set.
    pub fn is_clear(&self) -> bool
        ensures { IsTrue result ↔ All (λ word. word ≡ 0) self.now }
    {
        let words = self.words.as_slice();
        for word in words {
            if *word != 0 {
                return false;
            }
        }
        true
    }
}
