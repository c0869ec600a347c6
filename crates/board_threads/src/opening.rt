// The sizes of a shared board, and its actors.
ghost use Rattle.std.specs.Prelude.{◌≡◌, ◌↔◌, [], IsTrue, IfOk, IsErrOf, map, replicate};
ghost use Rattle.std.specs.List.{range_with_len};
ghost use Rattle.atomic_table.specs.Seated.{TableId};
ghost use Rattle.posted_words.specs.Words.{AreWordSizes, shared_words, token};
ghost use Rattle.board_threads.specs.Sharing.{new_actor};

use crate::actor::Actor;
use posted_words::{Line, PostedFault, PostedWords, Sweeper};
use std::alloc::{AllocError, Global};
use synic_board::OpenFault;

pub(crate) fn are_word_sizes(processors: u8, actors: u8, lines: u8) -> bool
    ensures { IsTrue result ↔ AreWordSizes processors actors lines }
{
    1 <= processors && processors <= 64 && 1 <= actors && actors <= 16 && lines <= 16
}

/// Posted words, with an actor for each sweeper and the lines.
pub(crate) fn open_words(
    alloc: Global,
    processors: u8,
    actors: u8,
    lines: u8,
) -> Result<(PostedWords, Vec<Actor>, Vec<Line>), OpenFault>
    ensures size { IsErrOf result OpenFault.BadSize ↔ (¬ AreWordSizes processors actors lines) }
    ensures sizes { IfOk result (λ _. AreWordSizes processors actors lines) }
    ensures words { IfOk result (λ r. r.0 ≡ shared_words r.0.name processors actors lines) }
    ensures actors { IfOk result (λ r. r.1.items ≡ map (new_actor r.0.name) (range_with_len 0 actors)) }
    ensures lines { IfOk result (λ r. r.2.items ≡ replicate lines (token r.0.name [])) }
{
    let (words, sweepers, lines) = match PostedWords::open(alloc, processors, actors, lines) {
        Ok(opened) => opened,
        Err(PostedFault::BadSize) => return Err(OpenFault::BadSize),
        Err(PostedFault::Memory) => return Err(OpenFault::Memory),
    };
    match number_all(alloc, actors, sweepers) {
        Ok(actors) => Ok((words, actors, lines)),
        Err(_) => Err(OpenFault::Memory),
    }
}

/// An actor for each sweeper, numbered from 0.
fn number_all(
    alloc: Global,
    count: u8,
    mut sweepers: Vec<Sweeper>,
) -> Result<Vec<Actor>, AllocError>
    requires { (t : TableId) × (sweepers.items ≡ replicate count (token t [])) }
    ensures { IfOk result (λ v. (t : TableId) → sweepers.items ≡ replicate count (token t [])
        → v.items ≡ map (new_actor t) (range_with_len 0 count)) }
{
    let mut actors = Vec::new(alloc);
    for number in 0..count {
        actors.reserve(1)?;
        let Some(sweeper) = sweepers.pop() else {
            unreachable!()
        };
        actors.push_reserved(Actor::new(alloc, number, sweeper));
    }
    Ok(actors)
}
