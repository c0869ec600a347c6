// Posted words and a line that raises.
use crate::stopped::{Stopped, ended};
use board_terms::{Vector, Vp};
use posted_words::PostedWords;
use std::alloc::Global;

pub(crate) fn opened(alloc: Global) -> Result<bool, Stopped> {
    let (words, sweepers, lines) = PostedWords::open(alloc, 8, 16, 16)?;
    ended(words.processors() == 8 && (sweepers.len(), lines.len()) == (16, 16))
}

/// A line raises vector 0x60, and then the tokens are gathered.
pub(crate) fn gathered(alloc: Global) -> Result<bool, Stopped> {
    let (words, sweepers, mut lines) = PostedWords::open(alloc, 8, 1, 1)?;
    let Some(mut line) = lines.pop() else {
        return Err(Stopped::Otherwise);
    };
    words.raise(&mut line, Vp::new(7).unwrap(), Vector::new(0x60).unwrap());
    if lines.push(line).is_err() {
        return Err(Stopped::Memory);
    }
    let standing = words.gather(sweepers, lines)?;
    ended(standing.word(Vp::new(7).unwrap(), 1) == 0x1_0000_0000)
}
