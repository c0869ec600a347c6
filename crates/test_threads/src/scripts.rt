// Setups and scripts.
ghost use Rattle.std.specs.Prelude.{◌≡◌, IfOk};

use board_terms::{Vector, Vp};
use board_threads::{Scripts, Setup, Step};
use std::alloc::{AllocError, Global};
use synic_board::Event;
use test_steps::{SCONTROL, SIMP, SINT2, open_messages, post, write};

/// One processor with its SynIC, its message page and SINT2, and port 3 with two buffers.
pub(crate) fn with_port(alloc: Global) -> Result<Setup, AllocError>
    ensures { IfOk result (λ s. s.processors ≡ 1) }
{
    let mut events = Vec::new(alloc);
    for (register, value) in [(SCONTROL, 1), (SIMP, 0x2001), (SINT2, 0x50)] {
        events.push(write(0, register, value))?;
    }
    events.push(open_messages(3, 0, 2))?;
    Ok(Setup {
        processors: 1,
        pages: 4,
        first_ticket: 0,
        events,
    })
}

/// A post of one byte to port 3.
pub(crate) fn say(byte: u8) -> Step {
    Step::Act(post(3, &[byte]))
}

/// A raise of vector 0x60 or 0x61.
pub(crate) fn raise_60(vp: Vp) -> (Vp, Vector) {
    (vp, Vector::new(0x60).unwrap())
}

fn raise_61(vp: Vp) -> (Vp, Vector) {
    (vp, Vector::new(0x61).unwrap())
}

/// Two actors that each post a message, and two lines, one of which raises its vector twice.
pub(crate) fn posts_and_raises(alloc: Global) -> Result<Scripts, AllocError> {
    let one = Vec::from_array(alloc, [say(0x0a)])?;
    let other = Vec::from_array(alloc, [say(0x0b)])?;
    let vp = Vp::new(0).unwrap();
    let twice = Vec::from_array(alloc, [raise_60(vp), raise_60(vp)])?;
    let once = Vec::from_array(alloc, [raise_61(vp)])?;
    Ok(Scripts {
        actors: Vec::from_array(alloc, [one, other])?,
        lines: Vec::from_array(alloc, [twice, once])?,
    })
}

/// An actor that posts, one that sweeps the part of vector 0x60 and then takes, and a line that
/// raises it.
pub(crate) fn post_look_and_raise(alloc: Global) -> Result<Scripts, AllocError> {
    let posts = Vec::from_array(alloc, [say(0x0a)])?;
    let take = Step::Act(Event::Take { vp: 0 });
    let looks = Vec::from_array(alloc, [Step::Sweep { vp: 0, part: 1 }, take])?;
    let raises = Vec::from_array(alloc, [raise_60(Vp::new(0).unwrap())])?;
    Ok(Scripts {
        actors: Vec::from_array(alloc, [posts, looks])?,
        lines: Vec::from_array(alloc, [raises])?,
    })
}

/// Three lines and no actor: the first raises two vectors, each other line one of them.
pub(crate) fn only_lines(alloc: Global) -> Result<Scripts, AllocError> {
    let vp = Vp::new(0).unwrap();
    let both = Vec::from_array(alloc, [raise_60(vp), raise_61(vp)])?;
    let one = Vec::from_array(alloc, [raise_60(vp)])?;
    let other = Vec::from_array(alloc, [raise_61(vp)])?;
    Ok(Scripts {
        actors: Vec::new(alloc),
        lines: Vec::from_array(alloc, [both, one, other])?,
    })
}
