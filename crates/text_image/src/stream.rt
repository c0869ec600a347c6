// Writing an image to a stream.
ghost use Rattle.std.specs.Prelude.{◌≡◌, not};
ghost use Rattle.text_base.specs.Outputs.{Holds};
ghost use Rattle.text_image.specs.Image.{image};
ghost use Rattle.text_image.specs.Saving.{Saves};

use crate::image::put_image;
use std::io::Write;
use synic_board::Board;
use text_base::Output;

/// How a save ends.
#[derive(Clone, Copy, PartialEq, Eq, Debug)]
pub enum SaveEnd {
    /// The image was written.
    Done,
    /// A write or the flush failed, or a write returned 0. A prefix of the image was written.
    Writing,
}

/// Writes the image of a board, and flushes. Takes no memory.
pub fn save<W: Write>(board: &Board, writer: &mut W) -> SaveEnd
    ensures saves { Saves result board.now.state (W.contents writer.old) (W.contents writer.new) }
{
    let saved = put_through(board, writer);
    if saved.whole {
        SaveEnd::Done
    } else {
        SaveEnd::Writing
    }
}

/// A writer, and whether all of an image was written to it and flushed.
#[derive(Drop)]
struct Saved<'a, W: Write> {
    writer: &'a mut W,
    whole: bool,
}

/// Writes the image of a board, and flushes.
fn put_through<'a, W: Write>(board: &Board, writer: &'a mut W) -> Saved<'a, W>
    ensures name { result.writer.ghost_name ≡ writer.entry.ghost_name }
    ensures written { Holds (W.contents writer.entry.now) (W.contents result.writer.now) (image board.now.state)
        (not result.whole) }
{
    let mut output = Output::new(writer);
    match put_image(&mut output, board) {
        Ok(()) => {}
        Err(never) => match never {},
    }
    let (writer, whole) = output.finish();
    Saved { writer, whole }
}
