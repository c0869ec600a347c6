// The host's accesses to a page, and the turns of host and guest.

/// An access of the host to one word of a page. Ghost.
pub enum Access {
    /// A load, and the value that it found.
    Load { word: u64, found: u64 },
    /// An atomic or with a mask, and the value that it found.
    FetchOr { word: u64, mask: u64, found: u64 },
    /// A store.
    Store { word: u64, value: u64 },
}

/// A turn of the host or of the guest. Ghost.
pub enum Turn {
    /// An access of the host.
    ByHost(Access),
    /// A write of a value to a word, by the guest or a device of it.
    ByGuest { word: u64, value: u64 },
}
