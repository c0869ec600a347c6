// The order of the pieces of an image.
ghost use Rattle.std.specs.Prelude.{◌≡◌, ◌↔◌, ◌<◌, IsTrue};
ghost use Rattle.text_restore.specs.Restoring.{rank, rank_of, IsLater, IsInTurn, lapics_after};

use board_terms::Kind;
use text_image::Piece;

/// The rank of the end of an image.
pub(crate) const END: u64 = 10 * 256 * 256 * 65536;

/// The rank that is given by a section and up to three numbers.
fn rank(section: u8, a: u8, b: u8, c: u16) -> u64
    ensures { result ≡ rank section a b c }
{
    ((u64::from(section) * 256 + u64::from(a)) * 256 + u64::from(b)) * 65536 + u64::from(c)
}

/// The rank of a piece in an image.
pub(crate) fn rank_of(piece: &Piece) -> u64
    ensures { result ≡ rank_of piece.now }
{
    match piece {
        Piece::Moment(_) => rank(1, 0, 0, 0),
        Piece::Lapic { vp, .. } => rank(2, *vp, 0, 0),
        Piece::Control { vp, .. } => rank(3, *vp, 0, 0),
        Piece::Overlay { vp, kind, .. } => match kind {
            Kind::Sief => rank(3, *vp, 1, 0),
            Kind::Sim => rank(3, *vp, 2, 0),
        },
        Piece::Source { vp, sint, .. } => rank(3, *vp, 3 + sint.number(), 0),
        Piece::Guest { page, at, .. } => rank(4, *page, 0, *at),
        Piece::Own { vp, kind, at, .. } => match kind {
            Kind::Sim => rank(5, *vp, 0, *at),
            Kind::Sief => rank(5, *vp, 1, *at),
        },
        Piece::Port { port, .. } => rank(6, *port, 0, 0),
        Piece::Timer { vp, index, .. } => rank(7, *vp, *index, 0),
        Piece::Queued { vp, sint, .. } => rank(8, *vp, *sint, 0),
        Piece::Slot { vp, sint, .. } => rank(9, *vp, *sint, 0),
        Piece::End => rank(10, 0, 0, 0),
    }
}

/// Whether a piece comes after the last one.
pub(crate) fn is_later(last: u64, piece: &Piece) -> bool
    ensures { IsTrue result ↔ IsLater last piece.now }
{
    match piece {
        Piece::Queued { .. } => last <= rank_of(piece),
        _ => last < rank_of(piece),
    }
}

/// Whether the local APICs before a piece are those that have to be.
pub(crate) fn is_in_turn(processors: u8, lapics: u8, piece: &Piece) -> bool
    ensures { IsTrue result ↔ IsInTurn processors lapics piece.now }
{
    match piece {
        Piece::Moment(_) => lapics == 0,
        Piece::Lapic { vp, .. } => *vp == lapics,
        _ => lapics == processors,
    }
}

/// The number of local APICs after a piece.
pub(crate) fn lapics_after(lapics: u8, piece: &Piece) -> u8
    ensures { lapics < 255 → result ≡ lapics_after lapics piece.now }
{
    match piece {
        Piece::Lapic { .. } => lapics.saturating_add(1),
        _ => lapics,
    }
}
