// Prints events.
ghost use Rattle.std.specs.Prelude.{◌≡◌, ◌++◌, ◌∷◌, [], OnOk, decimal};
ghost use Rattle.text_base.specs.Numbers.{hex};
ghost use Rattle.text_base.specs.Fields.{spaced};
ghost use Rattle.synic_board.specs.declared.event.Event.TheVariants.{OpenPort, Write, Read, Post, Signal, Assert, Absorb, Store, Load, Send};
ghost use Rattle.text_lines.specs.Events.{event_fields, IsEvent, AtMostBytes};

use crate::print::{put, put_data};
use board_terms::{Bytes8, PayloadBytes, PortShape};
use synic_board::Event;
use text_base::{Sink, put_byte, put_decimal, put_hex};

/// Appends an event to `out`, without a line feed.
pub fn put_event<S: Sink>(out: &mut S, event: &Event) -> Result<(), S::Error>
    ensures written { OnOk result (S.text out.new ≡ S.text out.old ++ spaced (event_fields event.now)) }
    ensures fits { IsEvent event.now }
{
    match event {
        Event::OpenPort {
            port,
            vp,
            sint,
            shape,
        } => put_open(out, *port, *vp, *sint, *shape),
        Event::ClosePort { port } => put_named(out, b"close", u64::from(*port)),
        Event::Write {
            vp,
            register,
            value,
        } => put_write(out, *vp, *register, *value),
        Event::Read { vp, register } => put_read(out, *vp, *register),
        Event::Post {
            port,
            kind,
            payload,
        } => put_post(out, *port, *kind, payload),
        Event::Signal { port, flag } => put_signal(out, *port, *flag),
        Event::Assert { vp, vector } => put_assert(out, *vp, vector.number()),
        Event::Absorb { vp, part, bits } => put_absorb(out, *vp, *part, *bits),
        Event::Store { address, bytes } => put_store(out, *address, bytes),
        Event::Load { address, length } => put_load(out, *address, *length),
        Event::Tick { moment } => put_named(out, b"tick", *moment),
        Event::Take { vp } => put_named(out, b"take", u64::from(*vp)),
        Event::Suspend { vp } => put_named(out, b"suspend", u64::from(*vp)),
        Event::Resume { vp } => put_named(out, b"resume", u64::from(*vp)),
        Event::Reset { vp } => put_named(out, b"reset", u64::from(*vp)),
        Event::Send { vector, mask } => put_send(out, vector.number(), *mask),
    }
}

/// Appends a field: a decimal number.
pub fn put_decimal_field<S: Sink>(out: &mut S, number: u64) -> Result<(), S::Error>
    ensures { OnOk result (S.text out.new ≡ S.text out.old ++ 32 ∷ decimal number) }
{
    put(out, b" ")?;
    put_decimal(out, number)
}

/// Appends a field: a hexadecimal number.
pub fn put_hex_field<S: Sink>(out: &mut S, number: u64) -> Result<(), S::Error>
    ensures { OnOk result (S.text out.new ≡ S.text out.old ++ 32 ∷ hex number) }
{
    put(out, b" ")?;
    put_hex(out, number)
}

/// Appends a word and a number.
fn put_named<S: Sink>(out: &mut S, word: &[u8], number: u64) -> Result<(), S::Error>
    ensures { OnOk result (S.text out.new ≡ S.text out.old ++ spaced (word.now ∷ decimal number ∷ [])) }
{
    put(out, word)?;
    put_decimal_field(out, number)
}

/// Appends the opening of a port.
fn put_open<S: Sink>(
    out: &mut S,
    port: u8,
    vp: u8,
    sint: u8,
    shape: PortShape,
) -> Result<(), S::Error>
    ensures written { OnOk result
        (S.text out.new ≡ S.text out.old ++ spaced (event_fields (OpenPort port vp sint shape))) }
    ensures fits { IsEvent (OpenPort port vp sint shape) }
{
    put_named(out, b"open", u64::from(port))?;
    match shape {
        PortShape::Messages { buffers } => {
            put(out, b" message")?;
            put_place(out, vp, sint)?;
            put_decimal_field(out, u64::from(buffers))
        }
        PortShape::Flags { base, count } => {
            put(out, b" event")?;
            put_place(out, vp, sint)?;
            put_decimal_field(out, u64::from(base))?;
            put_decimal_field(out, u64::from(count))
        }
    }
}

/// Appends two fields: a processor and a source.
fn put_place<S: Sink>(out: &mut S, vp: u8, sint: u8) -> Result<(), S::Error>
    ensures { OnOk result (S.text out.new ≡ S.text out.old ++ 32 ∷ spaced (decimal vp ∷ decimal sint ∷ [])) }
{
    put_decimal_field(out, u64::from(vp))?;
    put_decimal_field(out, u64::from(sint))
}

/// Appends a register write.
fn put_write<S: Sink>(out: &mut S, vp: u8, register: u32, value: u64) -> Result<(), S::Error>
    ensures { OnOk result (S.text out.new ≡ S.text out.old ++ spaced (event_fields (Write vp register value))) }
{
    put_named(out, b"write", u64::from(vp))?;
    put_hex_field(out, u64::from(register))?;
    put_hex_field(out, value)
}

/// Appends a register read.
fn put_read<S: Sink>(out: &mut S, vp: u8, register: u32) -> Result<(), S::Error>
    ensures { OnOk result (S.text out.new ≡ S.text out.old ++ spaced (event_fields (Read vp register))) }
{
    put_named(out, b"read", u64::from(vp))?;
    put_hex_field(out, u64::from(register))
}

/// Appends a post.
fn put_post<S: Sink>(
    out: &mut S,
    port: u8,
    kind: u32,
    payload: &PayloadBytes,
) -> Result<(), S::Error>
    ensures written { OnOk result
        (S.text out.new ≡ S.text out.old ++ spaced (event_fields (Post port kind payload.now))) }
    ensures fits { AtMostBytes 240 payload.now.items }
{
    let bytes = payload.as_slice();
    put_named(out, b"post", u64::from(port))?;
    put_hex_field(out, u64::from(kind))?;
    put(out, b" ")?;
    put_data(out, bytes)
}

/// Appends a signal.
fn put_signal<S: Sink>(out: &mut S, port: u8, flag: u16) -> Result<(), S::Error>
    ensures { OnOk result (S.text out.new ≡ S.text out.old ++ spaced (event_fields (Signal port flag))) }
{
    put_named(out, b"signal", u64::from(port))?;
    put_decimal_field(out, u64::from(flag))
}

/// Appends an assert.
fn put_assert<S: Sink>(out: &mut S, vp: u8, vector: u8) -> Result<(), S::Error>
    ensures { OnOk result (S.text out.new ≡ S.text out.old ++ spaced (event_fields (Assert vp vector))) }
{
    put_named(out, b"assert", u64::from(vp))?;
    put(out, b" ")?;
    put_byte(out, vector)
}

/// Appends an absorb.
fn put_absorb<S: Sink>(out: &mut S, vp: u8, part: u8, bits: u64) -> Result<(), S::Error>
    ensures { OnOk result (S.text out.new ≡ S.text out.old ++ spaced (event_fields (Absorb vp part bits))) }
{
    put_named(out, b"absorb", u64::from(vp))?;
    put_decimal_field(out, u64::from(part))?;
    put_hex_field(out, bits)
}

/// Appends a store.
fn put_store<S: Sink>(out: &mut S, address: u64, bytes: &Bytes8) -> Result<(), S::Error>
    ensures written { OnOk result (S.text out.new ≡ S.text out.old ++ spaced (event_fields (Store address bytes.now))) }
    ensures fits { AtMostBytes 8 bytes.now.items }
{
    let bytes = bytes.as_slice();
    put(out, b"store")?;
    put_hex_field(out, address)?;
    put(out, b" ")?;
    put_data(out, bytes)
}

/// Appends a load.
fn put_load<S: Sink>(out: &mut S, address: u64, length: u8) -> Result<(), S::Error>
    ensures { OnOk result (S.text out.new ≡ S.text out.old ++ spaced (event_fields (Load address length))) }
{
    put(out, b"load")?;
    put_hex_field(out, address)?;
    put_decimal_field(out, u64::from(length))
}

/// Appends a send.
fn put_send<S: Sink>(out: &mut S, vector: u8, mask: u64) -> Result<(), S::Error>
    ensures { OnOk result (S.text out.new ≡ S.text out.old ++ spaced (event_fields (Send vector mask))) }
{
    put(out, b"send ")?;
    put_byte(out, vector)?;
    put_hex_field(out, mask)
}
