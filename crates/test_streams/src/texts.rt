// Numbers, bytes and fields.
use arrayvec::ArrayVec;
use std::alloc::AllocError;
use text_base::{Fields, byte_of, decimal_of, hex_of, put_byte, put_bytes, put_decimal, put_hex};

/// The number to parse, and its greatest value.
#[derive(Clone, Copy)]
enum Number {
    Decimal(u64),
    Hexadecimal(u64),
    Byte,
}

use Number::{Byte, Decimal, Hexadecimal};

const DECIMAL: Number = Decimal(u64::MAX);

const HEXADECIMAL: Number = Hexadecimal(u64::MAX);

const NUMBERS: [(Number, &[u8], Option<u64>); 27] = [
    (DECIMAL, b"0", Some(0)),
    (DECIMAL, b"7", Some(7)),
    (DECIMAL, b"255", Some(255)),
    (DECIMAL, b"18446744073709551615", Some(u64::MAX)),
    (DECIMAL, b"18446744073709551616", None),
    (DECIMAL, b"99999999999999999999999999999999999999", None),
    (DECIMAL, b"00", None),
    (DECIMAL, b"01", None),
    (DECIMAL, b"+1", None),
    (DECIMAL, b"-0", None),
    (DECIMAL, b"", None),
    (Decimal(255), b"256", None),
    (HEXADECIMAL, b"0", Some(0)),
    (HEXADECIMAL, b"40000072", Some(0x4000_0072)),
    (HEXADECIMAL, b"ffffffffffffffff", Some(u64::MAX)),
    (HEXADECIMAL, b"10000000000000000", None),
    (HEXADECIMAL, b"0f", None),
    (HEXADECIMAL, b"5F", None),
    (HEXADECIMAL, b"0x1", None),
    (HEXADECIMAL, b"g", None),
    (Hexadecimal(0xffff_ffff), b"100000000", None),
    (Byte, b"5f", Some(0x5f)),
    (Byte, b"0f", Some(0x0f)),
    (Byte, b"5F", None),
    (Byte, b"5", None),
    (Byte, b"100", None),
    (Byte, b"", None),
];

fn read(number: Number, text: &[u8]) -> Option<u64> {
    match number {
        Decimal(most) => decimal_of(text, most),
        Hexadecimal(most) => hex_of(text, most),
        Byte => byte_of(text).map(u64::from),
    }
}

#[test]
fn reads_numbers(rt: HostRuntime) {
    for (number, text, value) in NUMBERS {
        assert_eq!(rt; read(number, text), value);
    }
}

/// Texts, and the bytes that their first field denotes, if any.
const BYTES: [(&[u8], Option<&[u8]>); 9] = [
    (b"0aff", Some(&[0x0a, 0xff])),
    (b"0aff 01", Some(&[0x0a, 0xff])),
    (b"0a ", Some(&[0x0a])),
    (b"0a 0b0c0d", Some(&[0x0a])),
    (b"", Some(&[])),
    (b"0a0b0c", None),
    (b"0a0", None),
    (b"0A", None),
    (b"-", None),
];

/// Whether the first field decodes to these bytes, or not at all, whatever the buffer held before.
fn is_read_as(text: &[u8], expected: Option<&[u8]>) -> bool {
    let mut bytes = ArrayVec::<u8, 2>::new();
    let _ = bytes.try_push(7);
    let read = Fields::new(text).bytes(&mut bytes);
    match expected {
        Some(expected) => read.is_some() && bytes.as_slice() == expected,
        None => read.is_none(),
    }
}

#[test]
fn reads_bytes(rt: HostRuntime) {
    for (text, bytes) in BYTES {
        assert!(rt; is_read_as(text, bytes));
    }
}

/// Prints numbers and bytes.
fn put(out: &mut Vec<u8>) -> Result<(), AllocError> {
    // README text_base: begin
    put_decimal(out, 0u64)?;
    put_decimal(out, 36_893_488_147_419_103_230u128)?;
    put_hex(out, 0)?;
    put_hex(out, 0x1401)?;
    put_hex(out, u64::MAX)?;
    put_byte(out, 0x0f)?;
    put_bytes(out, &[0x00, 0xff])
    // README text_base: end
}

#[test]
fn writes_numbers_and_bytes(rt: HostRuntime) -> Result<(), AllocError> {
    // README text_base: begin
    let mut out = Vec::new(rt.alloc());
    put(&mut out)?;
    assert_eq!(rt;
        out.as_slice(),
        b"03689348814741910323001401ffffffffffffffff0f00ff".as_slice()
    );
    // README text_base: end
    Ok(())
}

/// The fields of a line, each with whether it is the last.
const FIELDS: [(&[u8], bool); 4] = [(b"take", false), (b"", false), (b"0", false), (b"", true)];

#[test]
fn takes_fields(rt: HostRuntime) {
    let mut fields = Fields::new(b"take  0 ");
    for (field, is_last) in FIELDS {
        assert_eq!(rt; (fields.next(), fields.is_empty()), (Some(field), is_last));
    }
    assert_eq!(rt; fields.next(), None);
    assert_eq!(rt; Fields::new(b"").next(), Some(b"".as_slice()));
}
