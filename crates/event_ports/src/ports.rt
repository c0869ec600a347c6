// The open ports.
ghost use Rattle.std.specs.Prelude.{◌≡◌, ◌<◌, ◌≤◌, ◌+◌, true, None, Some, IfOk, IfSome, IsSome, ◌↔◌, OnOk, OnErr, MatchResult, length};
ghost use Rattle.event_ports.specs.Shapes.{fits, takes_messages, buffers_of};
ghost use Rattle.event_ports.specs.Ports.{port_count, no_ports, with_port, without_port, has_room, open_refusal, target_of, message_target_of, flag_place_of};

use board_terms::{PortShape, Refusal, Sint, Vp};
use std::alloc::{AllocError, Global};
use std::marker::Model;

/// The greatest number of event flags of one source (TLFS, "Event Flags").
const FLAGS: u32 = 2048;

/// Bit 31 of a message type is reserved for the hypervisor (TLFS, "Message Types").
const HYPERVISOR_TYPE: u32 = 0x8000_0000;

/// The ports of a board, unless it is sparse and has more than four processors.
const PORTS: u16 = 16;

/// The greatest number of message buffers that the ports of one processor have in all.
const MOST_BUFFERS: u16 = 256;

/// An open port: its target, a source of a processor, and its shape.
#[derive(Clone, Copy, PartialEq, Eq, Debug)]
pub struct Port {
    pub vp: Vp,
    pub sint: Sint,
    pub shape: PortShape,
}

/// The open ports of a board, by their numbers: 0 to 15, or on a sparse board four for each processor if
/// these are more.
#[derive(Drop)]
pub struct Ports {
    ports: Vec<Option<Port>>,
    // How many message buffers the ports of each processor have. `open_port` and `close_port` update it.
    buffers: Vec<u16>,
}

impl Model for Ports {
    ghost use Rattle.event_ports.specs.Ports.{Ports};

    ghost Value = { Ports };

    ghost use Rattle.event_ports.specs.inside.View.{ports_of, PortsInvariant};

    ghost view = { ports_of };

    ghost invariant = { PortsInvariant };
}

/// Whether a shape is in range: 1 to 16 buffers, or at least one flag and none from 2048 on.
fn fits(shape: PortShape) -> bool
    ensures { result ≡ fits shape }
{
    match shape {
        PortShape::Messages { buffers } => buffers >= 1 && buffers <= 16,
        PortShape::Flags { base, count } => count >= 1 && base as u32 + count as u32 <= FLAGS,
    }
}

/// How many ports a board has: 16, or on a sparse board four for each processor if these are more.
#[tactic(auto, unfolding(crate::specs::Ports::port_count))]
pub fn port_count(processors: u8, is_sparse: bool) -> u16
    ensures value { result ≡ port_count processors is_sparse }
    ensures bound { processors ≤ 64 → result ≤ 256 }
{
    let each = 4 * u16::from(processors);
    if is_sparse && each > PORTS {
        each
    } else {
        PORTS
    }
}

/// The message buffers of a port of that shape.
fn buffers_of(shape: PortShape) -> u16
    ensures { result ≡ buffers_of shape }
{
    match shape {
        PortShape::Messages { buffers } => u16::from(buffers),
        PortShape::Flags { .. } => 0,
    }
}

impl Ports {
    /// All ports closed, on a board with that many processors, 1 to 64. The only call here that
    /// allocates.
    pub fn open(alloc: Global, processors: u8, is_sparse: bool) -> Result<Ports, AllocError>
        requires some { 1 ≤ processors }
        requires bound { processors ≤ 64 }
        ensures { IfOk result (λ s. s ≡ no_ports processors is_sparse) }
    {
        let ports = vec![in alloc; None; port_count(processors, is_sparse) as usize]?;
        let buffers = vec![in alloc; 0; processors as usize]?;
        Ok(Ports { ports, buffers })
    }

    /// Opens a port. Refused, in this order: `UnknownPort` unless the board has a port of that number;
    /// `PortOpen`; `BadTarget` if the processor is not on the board, the source is above 15, the shape is
    /// out of range, or the ports of the processor would have more than 256 message buffers.
    #[inline(never)]
    pub fn open_port(&mut self, port: u8, vp: u8, sint: u8, shape: PortShape) -> Result<(), Refusal>
        ensures answer { MatchResult result (λ _. open_refusal self.old port vp sint shape ≡ None)
            (λ r. open_refusal self.old port vp sint shape ≡ Some r) }
        ensures opened { IfOk result
            (λ _. self.new ≡ with_port self.old port (record { vp = vp; sint = sint; shape = shape })) }
        ensures refused { OnErr result (self.new ≡ self.old) }
    {
        match self.ports.get(port as usize) {
            None => return Err(Refusal::UnknownPort),
            Some(Some(_)) => return Err(Refusal::PortOpen),
            Some(None) => {}
        }
        let Some(vp) = self.processor(vp) else {
            return Err(Refusal::BadTarget);
        };
        let Some(sint) = Sint::new(sint) else {
            return Err(Refusal::BadTarget);
        };
        if !fits(shape) || !self.has_room(vp, shape) {
            return Err(Refusal::BadTarget);
        }
        self.buffers[usize::from(vp.number())] += buffers_of(shape);
        self.ports[port as usize] = Some(Port { vp, sint, shape });
        Ok(())
    }

    /// Closes a port and returns it. `UnknownPort` if it is not open.
    #[inline(always)]
    pub fn close_port(&mut self, port: u8) -> Result<Port, Refusal>
        ensures answer { result ≡ target_of self.old port }
        ensures on_the_board { IfOk result (λ p. p.vp < self.old.processors) }
        ensures closed { OnOk result (self.new ≡ without_port self.old port) }
        ensures refused { OnErr result (self.new ≡ self.old) }
    {
        let closed = self.target(port)?;
        self.buffers[usize::from(closed.vp.number())] -= buffers_of(closed.shape);
        self.ports[port as usize] = None;
        Ok(closed)
    }

    /// Returns an open port. `UnknownPort` if it is not open.
    #[inline(always)]
    pub fn target(&self, port: u8) -> Result<Port, Refusal>
        ensures answer { result ≡ target_of self.now port }
        ensures on_the_board { IfOk result (λ p. p.vp < self.now.processors) }
        ensures in_range { IfOk result (λ p. fits p.shape ≡ true) }
        ensures known { OnOk result (port < length self.now.ports) }
    {
        match self.ports.get(port as usize) {
            Some(Some(target)) => Ok(*target),
            _ => Err(Refusal::UnknownPort),
        }
    }

    /// The target of a message of a type. Refused, in this order: `UnknownPort`; `WrongKind` for a
    /// port of event flags; `BadType` for type 0 and types with bit 31 set.
    pub fn message_target(&self, port: u8, kind: u32) -> Result<Port, Refusal>
        ensures answer { result ≡ message_target_of self.now port kind }
        ensures on_the_board { IfOk result (λ p. p.vp < self.now.processors) }
        ensures in_range { IfOk result (λ p. fits p.shape ≡ true) }
        ensures messages { IfOk result (λ p. takes_messages p.shape ≡ true) }
        ensures known { OnOk result (port < length self.now.ports) }
    {
        let target = self.target(port)?;
        match target.shape {
            PortShape::Flags { .. } => Err(Refusal::WrongKind),
            PortShape::Messages { .. } => {
                if kind == 0 || kind >= HYPERVISOR_TYPE {
                    Err(Refusal::BadType)
                } else {
                    Ok(target)
                }
            }
        }
    }

    /// The event flag that a signal sets: the processor, the source, and the base of the port plus
    /// the number. Refused, in this order: `UnknownPort`; `WrongKind` for a port of messages;
    /// `BadFlag` for a number not below the port's count.
    #[inline(always)]
    pub fn flag_place(&self, port: u8, flag: u16) -> Result<(Vp, Sint, u16), Refusal>
        ensures answer { result ≡ flag_place_of self.now port flag }
        ensures on_the_board { IfOk result (λ p. p.0 < self.now.processors) }
        ensures below { IfOk result (λ p. p.2 < 2048) }
    {
        let target = self.target(port)?;
        match target.shape {
            PortShape::Messages { .. } => Err(Refusal::WrongKind),
            PortShape::Flags { base, count } => {
                if flag < count {
                    Ok((target.vp, target.sint, base + flag))
                } else {
                    Err(Refusal::BadFlag)
                }
            }
        }
    }

    /// Whether a port of that shape leaves a processor with at most 256 message buffers.
    fn has_room(&self, vp: Vp, shape: PortShape) -> bool
        requires on { vp < self.now.processors }
        requires shape { fits shape ≡ true }
        ensures { result ≡ has_room self.now vp shape }
    {
        self.buffers[usize::from(vp.number())] + buffers_of(shape) <= MOST_BUFFERS
    }

    /// The processor with this number, if it is on the board.
    fn processor(&self, number: u8) -> Option<Vp>
        ensures on { IsSome result ↔ (number < self.now.processors) }
        ensures value { IfSome result (λ vp. vp ≡ number) }
    {
        if usize::from(number) < self.buffers.len() {
            Vp::new(number)
        } else {
            None
        }
    }
}
