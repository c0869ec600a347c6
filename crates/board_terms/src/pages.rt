// Guest pages: which page a guest sees, and what it loads and stores.
use crate::vp::Vp;
use arrayvec::ArrayVec;

/// The bytes of a guest load or store, at most 8.
pub type Bytes8 = ArrayVec<u8, 8>;

/// The two overlay pages of a processor: message slots (SIM) and event flags (SIEF).
#[derive(Clone, Copy, PartialEq, Eq, Debug)]
pub enum Kind {
    Sim,
    Sief,
}

/// Which page a guest sees at a page number.
#[derive(Clone, Copy, PartialEq, Eq, Debug)]
pub enum Owner {
    /// The guest page.
    Guest,
    /// The message page of a processor, an overlay.
    Sim(Vp),
    /// The event flags page of a processor, an overlay.
    Sief(Vp),
    /// No page: the number is outside the guest's memory.
    Nothing,
}
