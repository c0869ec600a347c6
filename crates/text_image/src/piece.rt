// What the lines of an image state.
use arrayvec::ArrayVec;
use board_terms::{Kind, Message, Moment, PortShape, Sint, Ticket};
use lapic_core::Lapic;

/// The bytes of a page that one line holds.
pub type Block = ArrayVec<u8, 256>;

/// What a line of an image states, after its board line.
#[derive(Drop)]
pub enum Piece {
    /// The present time.
    Moment(Moment),
    /// The local APIC of a processor.
    Lapic {
        vp: u8,
        lapic: Lapic,
    },
    /// SCONTROL of a processor.
    Control {
        vp: u8,
        value: u64,
    },
    /// SIMP or SIEFP of a processor.
    Overlay {
        vp: u8,
        kind: Kind,
        value: u64,
    },
    /// A SINT register of a processor.
    Source {
        vp: u8,
        sint: Sint,
        value: u64,
    },
    /// 256 bytes of a guest page, from an offset on.
    Guest {
        page: u8,
        at: u16,
        bytes: Block,
    },
    /// 256 bytes of a page of a processor, from an offset on.
    Own {
        vp: u8,
        kind: Kind,
        at: u16,
        bytes: Block,
    },
    /// An open port.
    Port {
        port: u8,
        vp: u8,
        sint: u8,
        shape: PortShape,
    },
    /// A timer: its registers, and its deadline.
    Timer {
        vp: u8,
        index: u8,
        config: u64,
        count: u64,
        due: Option<u128>,
    },
    /// A queued message.
    Queued {
        vp: u8,
        sint: u8,
        message: Message,
    },
    /// The ticket of the message in a slot.
    Slot {
        vp: u8,
        sint: u8,
        ticket: Ticket,
    },
    /// The end of the image.
    End,
}
