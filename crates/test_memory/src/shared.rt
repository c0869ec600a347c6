// Calls of a shared board.
ghost use Rattle.std.specs.Prelude.{◌≡◌, ◌<◌, true, IfOk, length};
ghost use Rattle.posted_words.specs.Words.{IsOf};
ghost use Rattle.synic_board.specs.State.{opened};
ghost use Rattle.actor_calls.specs.Absorbed.{only_raises};

use crate::stopped::{Stopped, ended};
use board_terms::{Vector, Vp};
use board_threads::{Actor, CallFault, Ended, Line, Origin, RecordedBoard};
use std::alloc::Global;
use std::sync::Wait;
use synic_board::{Entry, Event, Reply};

/// The largest board, with first ticket 7.
struct Largest;

impl Origin for Largest {
    ghost start = { opened 8 64 7 };
}

/// The smallest board, with first ticket 0.
struct Smallest;

impl Origin for Smallest {
    ghost start = { opened 1 1 0 };
}

pub(crate) fn opened(alloc: Global) -> Result<bool, Stopped> {
    let (board, actors, lines) = RecordedBoard::<Largest>::open(alloc, 8, 64, 7, 16, 16)?;
    ended(board.processors() == 8 && (actors.len(), lines.len()) == (16, 16))
}

/// Settles a board of many actors and lines that did nothing.
pub(crate) fn settled(alloc: Global) -> Result<bool, Stopped> {
    let (board, actors, lines) = RecordedBoard::<Largest>::open(alloc, 8, 64, 7, 16, 16)?;
    let settled = board.settle(actors, lines)?;
    ended(
        settled.history.is_empty()
            && settled.actors.len() == 16
            && settled.board.next_ticket() == 7,
    )
}

/// Performs a tick, and again if an allocation failed and `again` is set. Returns how often one
/// failed.
fn tick<R: Wait>(
    rt: &R,
    board: &RecordedBoard<Smallest>,
    actor: &mut Actor,
    moment: u64,
    again: bool,
) -> Result<usize, CallFault>
    ensures { actor.new.of ≡ actor.old.of }
{
    match board.perform(rt, actor, Event::Tick { moment }) {
        Ok(_) => Ok(0),
        Err(CallFault::Memory) => {
            if again {
                board.perform(rt, actor, Event::Tick { moment })?;
            }
            Ok(1)
        }
        Err(fault) => Err(fault),
    }
}

/// Absorbs part 1 of processor 0, in the same way.
fn absorb<R: Wait>(
    rt: &R,
    board: &RecordedBoard<Smallest>,
    actor: &mut Actor,
    again: bool,
) -> Result<usize, CallFault>
    requires { actor.old.of ≡ board.now.name }
    ensures { actor.new.of ≡ actor.old.of }
{
    match board.absorb(rt, actor, 0, 1) {
        Ok(_) => Ok(0),
        Err(CallFault::Memory) => {
            if again {
                board.absorb(rt, actor, 0, 1)?;
            }
            Ok(1)
        }
        Err(fault) => Err(fault),
    }
}

/// Raises vectors 0x40 to 0x49 one by one; after each the actor ticks and absorbs. Returns how
/// often an allocation failed.
fn take_turns<R: Wait>(
    rt: &R,
    board: &RecordedBoard<Smallest>,
    actor: &mut Actor,
    line: &mut Line,
    again: bool,
) -> Result<usize, CallFault>
    requires some_processor { 0 < board.now.processors }
    requires actor { actor.old.of ≡ board.now.name }
    requires line { IsOf board.now.name line.old }
    requires raises { only_raises line.old.actions ≡ true }
    ensures actor { actor.new.of ≡ actor.old.of }
    ensures line { IsOf board.now.name line.new }
    ensures raises { only_raises line.new.actions ≡ true }
{
    let mut wanted = 0usize;
    for turn in 0..10 {
        let vector = Vector::new(0x40 + turn).unwrap();
        board.raise(line, Vp::new(0).unwrap(), vector);
        wanted = wanted
            .saturating_add(tick(rt, board, actor, u64::from(turn), again)?)
            .saturating_add(absorb(rt, board, actor, again)?);
    }
    Ok(wanted)
}

/// The result of settling ten turns, and how often an allocation failed in them.
fn settled_turns<R: Wait>(rt: &R, alloc: Global, again: bool) -> Result<(Ended, usize), Stopped>
    ensures { IfOk result (λ r. length r.0.standing ≡ 4) }
{
    let (board, mut actors, mut lines) = RecordedBoard::<Smallest>::open(alloc, 1, 1, 0, 1, 1)?;
    let (Some(mut actor), Some(mut line)) = (actors.pop(), lines.pop()) else {
        return Err(Stopped::Otherwise);
    };
    let wanted = take_turns(rt, &board, &mut actor, &mut line, again)?;
    if actors.push(actor).is_err() || lines.push(line).is_err() {
        return Err(Stopped::Memory);
    }
    Ok((board.settle(actors, lines)?, wanted))
}

/// The sum of all absorbed bits.
fn absorbed_bits(history: &[Entry]) -> u64 {
    let mut all = 0u64;
    for entry in history {
        if let Event::Absorb { bits, .. } = entry.event {
            all = all.wrapping_add(bits);
        }
    }
    all
}

/// Whether each pair of entries is a tick and an absorb of the one vector that was raised before,
/// and both are done.
fn are_turns(history: &[Entry]) -> bool {
    let mut turn = 0u8;
    for pair in history.chunks(2) {
        let [first, second] = pair else {
            return false;
        };
        let tick = Event::Tick {
            moment: u64::from(turn),
        };
        let absorb = Event::Absorb {
            vp: 0,
            part: 1,
            bits: 1 << (turn % 64),
        };
        if first.event != tick || second.event != absorb {
            return false;
        }
        if first.reply != Reply::Done || second.reply != Reply::Done {
            return false;
        }
        turn = turn.wrapping_add(1);
    }
    true
}

/// Whether the history has twenty calls except `left_out`, and each raised bit was absorbed or is
/// set.
fn is_whole(settled: &Ended, left_out: usize) -> bool
    requires { length settled.now.standing ≡ 4 }
{
    let history = settled.history.as_slice();
    let standing = settled.standing.word(Vp::new(0).unwrap(), 1);
    history.len().saturating_add(left_out) == 20
        && (left_out > 0 || are_turns(history))
        && absorbed_bits(history).wrapping_add(standing) == 0x3ff
}

/// After an allocation failure the calls continue: the failed call is repeated, or left out.
pub(crate) fn called<R: Wait>(rt: &R, alloc: Global, again: bool) -> Result<bool, Stopped> {
    let (settled, wanted) = settled_turns(rt, alloc, again)?;
    let left_out = if again { 0 } else { wanted };
    if wanted <= 1 && is_whole(&settled, left_out) {
        Ok(wanted == 1)
    } else {
        Err(Stopped::Otherwise)
    }
}
