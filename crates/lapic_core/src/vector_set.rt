// A set of vectors, as four words of 64 bits.
ghost use Rattle.std.specs.Prelude.{◌≡◌, ◌<◌, ◌↔◌, None, IsTrue};
ghost use Rattle.std.specs.FinSet as set;
ghost use Rattle.lapic_core.specs.Vectors.{greatest, word_of};
ghost use Rattle.lapic_core.specs.Words.{from_words};
ghost use Rattle.lapic_core.specs.Ranges.{AreVectors};

use board_terms::Vector;
use std::marker::Model;

/// A set of interrupt vectors.
#[derive(Drop)]
pub struct VectorSet {
    // Bit number % 64 of word number / 64 is set iff the vector is a member. The lowest 16 bits are
    // always clear, since no vector has them.
    words: [u64; 4],
}

impl Model for VectorSet {
    ghost use Rattle.std.specs.Coded.{coded_ℕ};
    ghost use Rattle.std.specs.FinSet as set;
    ghost use Rattle.lapic_core.specs.Vectors.{Vectors};
    ghost use Rattle.lapic_core.specs.inside.Words.{word_members, NoneBelow16};

    ghost Value = { Vectors };

    ghost coded = { set.code coded_ℕ };

    ghost view = { λ a. word_members a.words };

    ghost invariant = { λ a. NoneBelow16 a.words };
}

impl VectorSet {
    /// The empty set.
    pub fn new() -> VectorSet
        ensures { result ≡ set.empty }
    {
        VectorSet { words: [0; 4] }
    }

    /// The set with these words, as `word` returns them; `None` if one of the lowest 16 bits of the
    /// first is set, since no vector has those numbers.
    pub fn from_words(words: [u64; 4]) -> Option<VectorSet>
        ensures { result ≡ from_words words }
    {
        if words[0] % 0x1_0000 != 0 {
            return None;
        }
        Some(VectorSet { words })
    }

    /// An equal set.
    pub fn copy(&self) -> VectorSet
        ensures { result ≡ self.now }
    {
        VectorSet { words: self.words }
    }

    /// Adds a vector.
    pub fn insert(&mut self, vector: Vector)
        ensures { self.new ≡ set.insert self.old vector }
    {
        let number = vector.number() as usize;
        self.words[number / 64] |= 1 << (number % 64);
    }

    /// Removes a vector.
    pub fn remove(&mut self, vector: Vector)
        ensures { self.new ≡ set.remove self.old vector }
    {
        let number = vector.number() as usize;
        self.words[number / 64] &= !(1 << (number % 64));
    }

    /// Whether a vector is a member.
    pub fn contains(&self, vector: Vector) -> bool
        ensures { result ≡ set.contains self.now vector }
    {
        let number = vector.number() as usize;
        (self.words[number / 64] >> (number % 64)) & 1 == 1
    }

    /// Word `part` of the set, 0 to 3: its bit i is set iff vector 64 * part + i is a member.
    pub fn word(&self, part: u8) -> u64
        requires { part < 4 }
        ensures { result ≡ word_of self.now part }
    {
        self.words[part as usize]
    }

    /// What holds for the members of every set. Does nothing.
    pub fn facts(&self)
        ensures { AreVectors self.now }
    {
        let _words = &self.words;
    }

    /// The greatest member; `None` if the set is empty.
    #[inline(always)]
    pub fn greatest(&self) -> Option<Vector>
        ensures { result ≡ greatest self.now }
    {
        if self.is_empty() {
            return None;
        }
        self.search()
    }

    /// Whether the set is empty, which needs no search.
    #[inline(always)]
    pub(crate) fn is_empty(&self) -> bool
        ensures { IsTrue result ↔ (None ≡ greatest self.now) }
    {
        // Words that are not adjacent: adjacent ones are read as one value of 16 bytes, which waits for
        // the store of a word.
        self.words[1] | self.words[3] == 0 && self.words[0] | self.words[2] == 0
    }

    /// The same as `greatest`. Out of line, since an empty set, the usual case, needs no search.
    #[inline(never)]
    pub(crate) fn search(&self) -> Option<Vector>
        ensures { result ≡ greatest self.now }
    {
        // from the top down: the first word that is not 0 has the greatest member
        for at in (0..4usize).rev() {
            let word = self.words[at];
            if word != 0 {
                return Vector::new((64 * at + 63 - word.leading_zeros() as usize) as u8);
            }
        }
        None
    }
}
