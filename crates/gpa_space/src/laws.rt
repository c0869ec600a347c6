// Theorems about what a guest sees.
ghost use Rattle.gpa_space.specs.Laws.{OverlaysLieInOrder, StoredBytesAreLoaded};

/// Of the overlays at one page the first is visible, the next one once it has left, and none at a
/// page outside the space: worked cases.
pub fn overlays_are_in_order()
    ensures { OverlaysLieInOrder }
{}

/// A guest loads the bytes that it stored, whichever page is visible.
pub fn stored_bytes_are_loaded()
    ensures { StoredBytesAreLoaded }
{}
