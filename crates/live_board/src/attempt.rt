// Whether a post makes a delivery attempt.
ghost use Rattle.std.specs.Prelude.{◌≡◌, ◌<◌, ◌≤◌, length, Some, count_by};
ghost use Rattle.event_ports.specs.Ports.{port_at};
ghost use Rattle.message_queues.specs.Queues.{queue_of, is_from_port, port_used};
ghost use Rattle.synic_board.specs.State.{processors, ports_of};
ghost use Rattle.live_board.specs.inside.Parts.{is_attempted};

use board_terms::{Message, PortShape, Sint, Vp};
use event_ports::Port;
use synic_board::Board;
use synic_regs::Register;

/// Bit 0 of SCONTROL, SIMP and SIEFP enables the SynIC, its message page and its event flags page.
pub(crate) const ENABLE: u64 = 1;

/// Bit 31 of a message type is reserved for the hypervisor (TLFS, "Message Types").
const HYPERVISOR_TYPE: u32 = 0x8000_0000;

/// Whether a message was posted to a port.
fn is_from_port(message: &Message, number: u8) -> bool
    ensures { result ≡ is_from_port number message.now }
{
    match message {
        Message::FromPort { port, .. } => *port == number,
        Message::FromTimer { .. } => false,
    }
}

/// How many messages of a port are in the queue of a source.
fn count_queued(board: &Board, vp: Vp, sint: Sint, number: u8) -> usize
    requires { vp < processors board.now.state }
    ensures { result ≡ count_by (is_from_port number) (queue_of board.now.state.queues vp sint) }
{
    let mut count = 0;
    let queued = board.summary().queued(vp, sint);
    for index in 0..queued {
        let Some(message) = board.message(vp, sint, index) else {
            unreachable!()
        };
        if is_from_port(message, number) {
            count += 1;
        }
    }
    count
}

/// Whether a post of this type to a port makes a delivery attempt: it is accepted, and the SynIC and
/// its message page are enabled.
pub(crate) fn is_attempted(board: &Board, number: u8, kind: u32, port: &Port) -> bool
    requires { port_at (ports_of board.now.state) number ≡ Some port.now }
    ensures { result ≡ is_attempted board.now.state number kind port.now }
{
    board.facts();
    let PortShape::Messages { buffers } = port.shape else {
        return false;
    };
    if kind == 0 || kind >= HYPERVISOR_TYPE {
        return false;
    }
    if board.register(port.vp, Register::Control) & ENABLE != ENABLE {
        return false;
    }
    if board.register(port.vp, Register::Sim) & ENABLE != ENABLE {
        return false;
    }
    if count_queued(board, port.vp, port.sint, number) >= usize::from(buffers) {
        return false;
    }
    board.next_ticket() < u64::MAX
}
