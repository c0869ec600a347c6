// Parses the event of a line, and performs it.
ghost use Rattle.std.specs.Prelude.{◌≡◌, [], ◌∷◌};
ghost use Rattle.std.specs.Option.{option_map};
ghost use Rattle.synic_board.specs.declared.event.Event.TheVariants.{Post, Store};
ghost use Rattle.text_lines.specs.Performing.{MakesOfLine};
ghost use Rattle.text_lines.specs.Reading.{parse_event, parse_open, parse_messages, parse_flags, parse_close, parse_write, parse_read, parse_post, parse_signal, parse_assert, parse_absorb, parse_store, parse_load, parse_tick, parse_processor, parse_take, parse_suspend, parse_resume, parse_reset, parse_send};

use crate::numbers::{hex_u32_of, hex_u64_of, read_bytes, u8_of, u16_of, u64_of, vector_of};
use arrayvec::ArrayVec;
use board_terms::{Bytes8, Notices, PayloadBytes, PortShape};
use synic_board::{Board, Event, Reply};
use text_base::{Fields, is_word};

/// The word of each event with its parser, the most frequent ones first.
macro_rules! each_event {
    ($one:ident) => {
        $one!(b"write", write_of);
        $one!(b"store", store_of);
        $one!(b"take", take_of);
        $one!(b"assert", assert_of);
        $one!(b"tick", tick_of);
        $one!(b"signal", signal_of);
        $one!(b"post", post_of);
        $one!(b"load", load_of);
        $one!(b"read", read_of);
        $one!(b"open", open_of);
        $one!(b"close", close_of);
        $one!(b"absorb", absorb_of);
        $one!(b"suspend", suspend_of);
        $one!(b"resume", resume_of);
        $one!(b"reset", reset_of);
        $one!(b"send", send_of);
    };
}

/// Parses the event with this first word. All remaining fields must be used; `None` if they denote
/// no event.
pub fn event_of(word: &[u8], fields: &mut Fields<'_>) -> Option<Event>
    ensures { result ≡ parse_event (word.now ∷ fields.old) }
{
    macro_rules! one {
        ($word:literal, $parse:ident) => {
            if is_word(word, $word) {
                return $parse(fields);
            }
        };
    }
    each_event!(one);
    None
}

/// Performs the event that the fields denote on a board, and returns what `make` makes of its reply;
/// `None` if they denote no event, and then the board is unchanged. Each kind of event is performed where
/// it is parsed, so none is written to memory. This is compiled for each closure, so that it can be in line
/// where the closure is.
pub fn perform_event<T, F: FnOnce(Reply) -> T>(
    fields: &Fields<'_>,
    board: &mut Board,
    notices: &mut Notices,
    make: F,
) -> Option<T>
    requires { F.IsAlwaysCallable make }
    ensures { MakesOfLine (F.post make) result (parse_event fields.now) board.old board.new notices.new }
{
    macro_rules! one {
        (b"store", $parse:ident) => {
            if let Some(mut rest) = fields.after(b"store") {
                return perform_store(&mut rest, board, notices, make);
            }
        };
        (b"post", $parse:ident) => {
            if let Some(mut rest) = fields.after(b"post") {
                return perform_post(&mut rest, board, notices, make);
            }
        };
        (b"open", $parse:ident) => {
            if let Some(rest) = fields.after(b"open") {
                return perform_open(rest, board, notices, make);
            }
        };
        ($word:literal, $parse:ident) => {
            if let Some(mut rest) = fields.after($word) {
                return perform(board, $parse(&mut rest), notices, make);
            }
        };
    }
    each_event!(one);
    None
}

/// Performs an event, if there is one.
#[inline(always)]
fn perform<T, F: FnOnce(Reply) -> T>(
    board: &mut Board,
    event: Option<Event>,
    notices: &mut Notices,
    make: F,
) -> Option<T>
    requires { F.IsAlwaysCallable make }
    ensures { MakesOfLine (F.post make) result event board.old board.new notices.new }
{
    let event = event?;
    Some(make(board.perform(&event, notices)))
}

/// Performs the opening of a port. Out of line: an event of two shapes is formed in memory, and other lines
/// need not clear its place.
#[inline(never)]
fn perform_open<T, F: FnOnce(Reply) -> T>(
    mut fields: Fields<'_>,
    board: &mut Board,
    notices: &mut Notices,
    make: F,
) -> Option<T>
    requires { F.IsAlwaysCallable make }
    ensures { MakesOfLine (F.post make) result (parse_open fields.entry) board.old board.new notices.new }
{
    perform(board, open_of(&mut fields), notices, make)
}

/// Performs a post, from the payload that is parsed.
#[inline(always)]
fn perform_post<T, F: FnOnce(Reply) -> T>(
    fields: &mut Fields<'_>,
    board: &mut Board,
    notices: &mut Notices,
    make: F,
) -> Option<T>
    requires { F.IsAlwaysCallable make }
    ensures { MakesOfLine (F.post make) result (parse_post fields.old) board.old board.new notices.new }
{
    let mut payload = ArrayVec::new();
    let (port, kind) = read_post(fields, &mut payload)?;
    Some(make(board.post(port, kind, payload.as_slice(), notices)))
}

/// Performs a store, from the bytes that are parsed.
#[inline(always)]
fn perform_store<T, F: FnOnce(Reply) -> T>(
    fields: &mut Fields<'_>,
    board: &mut Board,
    notices: &mut Notices,
    make: F,
) -> Option<T>
    requires { F.IsAlwaysCallable make }
    ensures { MakesOfLine (F.post make) result (parse_store fields.old) board.old board.new notices.new }
{
    let mut bytes = ArrayVec::new();
    let address = read_store(fields, &mut bytes)?;
    Some(make(board.store(address, bytes.as_slice(), notices)))
}

#[inline(always)]
fn open_of(fields: &mut Fields<'_>) -> Option<Event>
    ensures { result ≡ parse_open fields.old }
{
    let port = u8_of(fields)?;
    let word = fields.next()?;
    if is_word(word, b"message") {
        return messages_of(port, fields);
    }
    if is_word(word, b"event") {
        return flags_of(port, fields);
    }
    None
}

#[inline(always)]
fn messages_of(port: u8, fields: &mut Fields<'_>) -> Option<Event>
    ensures { result ≡ parse_messages port fields.old }
{
    let vp = u8_of(fields)?;
    let sint = u8_of(fields)?;
    let buffers = u8_of(fields)?;
    if !fields.is_empty() {
        return None;
    }
    let shape = PortShape::Messages { buffers };
    Some(Event::OpenPort {
        port,
        vp,
        sint,
        shape,
    })
}

#[inline(always)]
fn flags_of(port: u8, fields: &mut Fields<'_>) -> Option<Event>
    ensures { result ≡ parse_flags port fields.old }
{
    let vp = u8_of(fields)?;
    let sint = u8_of(fields)?;
    let base = u16_of(fields)?;
    let count = u16_of(fields)?;
    if !fields.is_empty() {
        return None;
    }
    let shape = PortShape::Flags { base, count };
    Some(Event::OpenPort {
        port,
        vp,
        sint,
        shape,
    })
}

#[inline(always)]
fn close_of(fields: &mut Fields<'_>) -> Option<Event>
    ensures { result ≡ parse_close fields.old }
{
    let port = u8_of(fields)?;
    if !fields.is_empty() {
        return None;
    }
    Some(Event::ClosePort { port })
}

#[inline(always)]
fn post_of(fields: &mut Fields<'_>) -> Option<Event>
    ensures { result ≡ parse_post fields.old }
{
    let mut payload = ArrayVec::new();
    let (port, kind) = read_post(fields, &mut payload)?;
    Some(Event::Post {
        port,
        kind,
        payload,
    })
}

/// Parses a port and a type, and the payload into the empty `payload`. If the fields denote no post,
/// `payload` holds some bytes.
#[inline(always)]
fn read_post(fields: &mut Fields<'_>, payload: &mut PayloadBytes) -> Option<(u8, u32)>
    requires { payload.old.items ≡ [] }
    ensures { option_map (λ p. Post p.0 p.1 payload.new) result ≡ parse_post fields.old }
{
    let port = u8_of(fields)?;
    let kind = hex_u32_of(fields)?;
    if !read_bytes(fields, payload) {
        return None;
    }
    if !fields.is_empty() {
        return None;
    }
    Some((port, kind))
}

#[inline(always)]
fn signal_of(fields: &mut Fields<'_>) -> Option<Event>
    ensures { result ≡ parse_signal fields.old }
{
    let port = u8_of(fields)?;
    let flag = u16_of(fields)?;
    if !fields.is_empty() {
        return None;
    }
    Some(Event::Signal { port, flag })
}

#[inline(always)]
fn store_of(fields: &mut Fields<'_>) -> Option<Event>
    ensures { result ≡ parse_store fields.old }
{
    let mut bytes = ArrayVec::new();
    let address = read_store(fields, &mut bytes)?;
    Some(Event::Store { address, bytes })
}

/// Parses an address, and the bytes into the empty `bytes`. If the fields denote no store, `bytes` holds
/// some of them.
#[inline(always)]
fn read_store(fields: &mut Fields<'_>, bytes: &mut Bytes8) -> Option<u64>
    requires { bytes.old.items ≡ [] }
    ensures { option_map (λ address. Store address bytes.new) result ≡ parse_store fields.old }
{
    let address = hex_u64_of(fields)?;
    if !read_bytes(fields, bytes) {
        return None;
    }
    if !fields.is_empty() {
        return None;
    }
    Some(address)
}

#[inline(always)]
fn load_of(fields: &mut Fields<'_>) -> Option<Event>
    ensures { result ≡ parse_load fields.old }
{
    let address = hex_u64_of(fields)?;
    let length = u8_of(fields)?;
    if !fields.is_empty() {
        return None;
    }
    Some(Event::Load { address, length })
}

#[inline(always)]
fn tick_of(fields: &mut Fields<'_>) -> Option<Event>
    ensures { result ≡ parse_tick fields.old }
{
    let moment = u64_of(fields)?;
    if !fields.is_empty() {
        return None;
    }
    Some(Event::Tick { moment })
}

#[inline(always)]
fn write_of(fields: &mut Fields<'_>) -> Option<Event>
    ensures { result ≡ parse_write fields.old }
{
    let vp = u8_of(fields)?;
    let register = hex_u32_of(fields)?;
    let value = hex_u64_of(fields)?;
    if !fields.is_empty() {
        return None;
    }
    Some(Event::Write {
        vp,
        register,
        value,
    })
}

#[inline(always)]
fn read_of(fields: &mut Fields<'_>) -> Option<Event>
    ensures { result ≡ parse_read fields.old }
{
    let vp = u8_of(fields)?;
    let register = hex_u32_of(fields)?;
    if !fields.is_empty() {
        return None;
    }
    Some(Event::Read { vp, register })
}

#[inline(always)]
fn assert_of(fields: &mut Fields<'_>) -> Option<Event>
    ensures { result ≡ parse_assert fields.old }
{
    let vp = u8_of(fields)?;
    let vector = vector_of(fields)?;
    if !fields.is_empty() {
        return None;
    }
    Some(Event::Assert { vp, vector })
}

#[inline(always)]
fn absorb_of(fields: &mut Fields<'_>) -> Option<Event>
    ensures { result ≡ parse_absorb fields.old }
{
    let vp = u8_of(fields)?;
    let part = u8_of(fields)?;
    let bits = hex_u64_of(fields)?;
    if !fields.is_empty() {
        return None;
    }
    Some(Event::Absorb { vp, part, bits })
}

/// Parses a processor that is the last field.
#[inline(always)]
fn processor_of(fields: &mut Fields<'_>) -> Option<u8>
    ensures { result ≡ parse_processor fields.old }
{
    let vp = u8_of(fields)?;
    if fields.is_empty() { Some(vp) } else { None }
}

#[inline(always)]
fn take_of(fields: &mut Fields<'_>) -> Option<Event>
    ensures { result ≡ parse_take fields.old }
{
    let vp = processor_of(fields)?;
    Some(Event::Take { vp })
}

#[inline(always)]
fn suspend_of(fields: &mut Fields<'_>) -> Option<Event>
    ensures { result ≡ parse_suspend fields.old }
{
    let vp = processor_of(fields)?;
    Some(Event::Suspend { vp })
}

#[inline(always)]
fn resume_of(fields: &mut Fields<'_>) -> Option<Event>
    ensures { result ≡ parse_resume fields.old }
{
    let vp = processor_of(fields)?;
    Some(Event::Resume { vp })
}

#[inline(always)]
fn reset_of(fields: &mut Fields<'_>) -> Option<Event>
    ensures { result ≡ parse_reset fields.old }
{
    let vp = processor_of(fields)?;
    Some(Event::Reset { vp })
}

#[inline(always)]
fn send_of(fields: &mut Fields<'_>) -> Option<Event>
    ensures { result ≡ parse_send fields.old }
{
    let vector = vector_of(fields)?;
    let mask = hex_u64_of(fields)?;
    if !fields.is_empty() {
        return None;
    }
    Some(Event::Send { vector, mask })
}
