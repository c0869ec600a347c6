// What a draft asks of the machine that it restores.
ghost use Rattle.std.specs.Prelude.{◌≡◌, ◌≢◌, ◌↔◌, ◌<◌, ◌-◌, IsTrue, None, slice_get, length};
ghost use Rattle.std.specs.Option.{option_copied};
ghost use Rattle.event_ports.specs.Ports.{port_at};
ghost use Rattle.message_queues.specs.Queues.{HasBuffer, port_used, queue_of};
ghost use Rattle.synic_board.specs.State.{processors, ports_of, slot_of};
ghost use Rattle.synic_board.specs.Restoring.{HasNoTickets};

use crate::machine::Machine;
use board_terms::{Message, Moment, Sint, Ticket, Vp, source_number};
use event_ports::Port;

impl Machine {
    /// The present time.
    pub(crate) fn moment(&self) -> Moment
        ensures { result ≡ self.now.state.moment }
    {
        self.moment
    }

    /// The ticket that the next accepted message gets.
    pub(crate) fn next_ticket(&self) -> Ticket
        ensures { result ≡ self.now.state.next_ticket }
    {
        self.next_ticket
    }

    /// How many messages of a port are queued.
    pub(crate) fn port_used(&self, port: u8) -> u8
        ensures { result ≡ port_used self.now.state.queues port }
    {
        self.queues.port_used(port)
    }

    /// Whether there is a free buffer for a message.
    pub(crate) fn has_buffer(&self, message: &Message) -> bool
        ensures { IsTrue result ↔ HasBuffer self.now.state.queues message.now }
    {
        self.queues.has_buffer(message)
    }

    /// The ticket of the message in a slot, if it holds one.
    pub(crate) fn slot_ticket(&self, vp: Vp, sint: Sint) -> Option<Ticket>
        requires { vp < processors self.now.state }
        ensures { result ≡ slot_of self.now.state vp sint }
    {
        self.slots[source_number(vp, sint)]
    }

    /// Whether no slot of a processor holds a ticket.
    pub(crate) fn has_no_tickets(&self, vp: Vp) -> bool
        requires { vp < processors self.now.state }
        ensures { IsTrue result ↔ HasNoTickets self.now.state vp }
    {
        for number in 0..16 {
            let sint = Sint::new(number).unwrap();
            if self.slot_ticket(vp, sint).is_some() {
                return false;
            }
        }
        true
    }

    /// An open port.
    pub(crate) fn port(&self, number: u8) -> Option<Port>
        ensures { result ≡ port_at (ports_of self.now.state) number }
    {
        match self.ports.target(number) {
            Ok(port) => Some(port),
            Err(_) => None,
        }
    }

    /// The first message of a queue.
    pub(crate) fn first_message(&self, vp: Vp, sint: Sint) -> Option<&Message>
        requires { vp < processors self.now.state }
        ensures { option_copied result ≡ slice_get (queue_of self.now.state.queues vp sint) 0 }
    {
        self.queues.head(vp, sint)
    }

    /// The last message of a queue.
    pub(crate) fn last_message(&self, vp: Vp, sint: Sint) -> Option<&Message>
        requires { vp < processors self.now.state }
        ensures { option_copied result
            ≡ slice_get (queue_of self.now.state.queues vp sint) (length (queue_of self.now.state.queues vp sint) - 1) }
    {
        let count = self.queues.count(vp, sint);
        self.queues.message(vp, sint, count.saturating_sub(1))
    }
}
