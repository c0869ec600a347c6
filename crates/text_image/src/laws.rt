//! Theorems about the definitions.
ghost use Rattle.std.specs.Prelude.{◌≡◌, ◌↔◌, ℕ, List, Some};
ghost use Rattle.text_base.specs.Fields.{spaced};
ghost use Rattle.text_image.specs.declared.piece.Piece.{Piece};
ghost use Rattle.text_image.specs.Pieces.{piece_fields, IsPiece, DenotesPiece};
ghost use Rattle.text_image.specs.Parsing.{piece_at};

/// Parsing a line gives a piece iff the line denotes it.
pub fn reading_a_piece_is_exact()
    ensures { (line : List ℕ) (piece : Piece) → (piece_at line ≡ Some piece) ↔ DenotesPiece line piece }
{}

/// A line denotes at most one piece.
pub fn one_piece()
    ensures { (line : List ℕ) (a b : Piece) → DenotesPiece line a → DenotesPiece line b → a ≡ b }
{}

/// No two lines denote the same piece.
pub fn one_piece_line()
    ensures { (a b : List ℕ) (piece : Piece) → DenotesPiece a piece → DenotesPiece b piece → a ≡ b }
{}

/// Each piece whose fields are in range has a line, as an image has it.
pub fn some_piece_line()
    ensures { (piece : Piece) → IsPiece piece → DenotesPiece (spaced (piece_fields piece)) piece }
{}
