// The boards that are measured.
ghost use Rattle.std.specs.Prelude.{◌≤◌};

/// How many processors a board has: 1 or 8, and then it holds its guest's pages, or 64, and then it is
/// sparse.
#[derive(Clone, Copy, PartialEq, Eq, Debug)]
pub(crate) enum Size {
    One,
    Eight,
    SixtyFour,
}

impl Size {
    /// The numbers on the command line.
    pub(crate) const WORDS: [&'static str; 3] = ["1", "8", "64"];

    /// The size whose number is at an index of `WORDS`; eight processors without one.
    pub(crate) fn at(index: Option<usize>) -> Size {
        match index {
            Some(0) => Size::One,
            Some(2) => Size::SixtyFour,
            _ => Size::Eight,
        }
    }

    /// The number of processors.
    pub(crate) fn processors(self) -> u8
        ensures { result ≤ 64 }
    {
        match self {
            Size::One => 1,
            Size::Eight => 8,
            Size::SixtyFour => 64,
        }
    }

    /// Whether the guest's pages are in the caller's memory.
    pub(crate) fn is_sparse(self) -> bool {
        self == Size::SixtyFour
    }

    /// How often a round goes over the processors: a round of one processor is not too short.
    pub(crate) fn turns(self) -> u8 {
        if self == Size::One { 8 } else { 1 }
    }

    /// How many processors get posts and signals: all of a sparse board, or one, and then the board has
    /// no other.
    pub(crate) fn targets(self) -> u8
        ensures { result ≤ 64 }
    {
        if self.is_sparse() { 64 } else { 1 }
    }

    /// How many message ports each of them has: 16 ports in all, or on the sparse board 256.
    pub(crate) fn ports_of_target(self) -> u8
        ensures { result ≤ 16 }
    {
        if self.is_sparse() { 4 } else { 16 }
    }

    /// How often each overlay moves in a round: over 64 pages, or on the sparse board over 256.
    pub(crate) fn moves(self) -> u8 {
        match self {
            Size::One => 64,
            Size::Eight => 8,
            Size::SixtyFour => 4,
        }
    }
}
