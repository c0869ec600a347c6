// The owners of buffers.
ghost use Rattle.std.specs.Prelude.{◌≡◌, ◌<◌, ◌≤◌};
ghost use Rattle.message_queues.specs.Queues.{most_ports};
ghost use Rattle.message_queues.specs.inside.Owners.{owner_of, owner_of_timer};

use board_terms::{Message, TimerId};
use event_ports::port_count;

/// How many numbers a port can have.
pub(crate) const PORTS: usize = 256;

/// The greatest number of ports of a board of that many processors: as many as a sparse one has.
pub(crate) fn most_ports(processors: u8) -> usize
    ensures value { result ≡ most_ports processors }
    ensures bound { processors ≤ 64 → result ≤ 256 }
{
    usize::from(port_count(processors, true))
}

/// The owner of a message's buffer.
#[inline]
pub(crate) fn owner_of(message: &Message) -> usize
    ensures { result ≡ owner_of message.now }
{
    match message {
        Message::FromPort { port, .. } => *port as usize,
        Message::FromTimer { timer, .. } => owner_of_timer(*timer),
    }
}

/// The owner of a timer's buffer. The timers follow the numbers that a port can have.
#[inline]
pub(crate) fn owner_of_timer(timer: TimerId) -> usize
    ensures value { result ≡ owner_of_timer timer }
    ensures index { timer.1 < 4 }
{
    PORTS + timer.number() as usize
}
