// The registers by their numbers, at values from the register table.
ghost use Rattle.std.specs.Prelude.{◌<◌, IfSome, IsTrue};
ghost use Rattle.synic_regs.specs.Regs.{stores};

use crate::steps::{Part, first_other};
use board_terms::{Sint, Vector};
use synic_regs::{Outcome, Register, SynicRegs, decode};

fn sint(number: u8) -> Sint
    requires { number < 16 }
{
    Sint::new(number).unwrap()
}

#[test]
fn numbers_of_the_registers(rt: HostRuntime) {
    let rows = [
        (0x4000_0020, Some(Register::ReferenceCounter)),
        (0x4000_0070, Some(Register::Eoi)),
        (0x4000_0071, None),
        (0x4000_0072, Some(Register::Tpr)),
        (0x4000_0080, Some(Register::Control)),
        (0x4000_0081, Some(Register::Version)),
        (0x4000_0082, Some(Register::Sief)),
        (0x4000_0083, Some(Register::Sim)),
        (0x4000_0084, Some(Register::Eom)),
        (0x4000_008f, None),
        (0x4000_0090, Some(Register::Source(sint(0)))),
        (0x4000_009f, Some(Register::Source(sint(15)))),
        (0x4000_00a0, None),
        (0x4000_00b0, Some(Register::TimerConfig(0))),
        (0x4000_00b1, Some(Register::TimerCount(0))),
        (0x4000_00b6, Some(Register::TimerConfig(3))),
        (0x4000_00b7, Some(Register::TimerCount(3))),
        (0x4000_00b8, None),
    ];
    for (number, register) in rows {
        assert!(rt; decode(number) == register, "at {number:x}");
    }
}

/// A call of the registers, which are named by their numbers.
#[derive(Clone, Copy)]
pub(crate) enum Call {
    Write(u32, u64),
    Read(u32),
    IsEnabled,
    SimIsEnabled,
    SiefIsEnabled,
    Raises(u8),
    IsAuto(u8),
    /// Whether the auto-EOI set contains a vector.
    AutoSetHas(u8),
}

#[derive(Clone, Copy, PartialEq, Debug)]
pub(crate) enum Answer {
    Written(Outcome),
    Word(u64),
    Is(bool),
    Vector(u8),
    NoVector,
}

use Answer::{Is, NoVector, Word, Written};
use Call::{AutoSetHas, IsAuto, IsEnabled, Raises, Read, SiefIsEnabled, SimIsEnabled, Write};

/// A register that is stored.
fn stored(number: u32) -> Option<Register>
    ensures { IfSome result (λ register. IsTrue (stores register)) }
{
    match decode(number)? {
        Register::Control => Some(Register::Control),
        Register::Sief => Some(Register::Sief),
        Register::Sim => Some(Register::Sim),
        Register::Source(sint) => Some(Register::Source(sint)),
        _ => None,
    }
}

fn answer_of(vector: Option<Vector>) -> Answer {
    match vector {
        Some(vector) => Answer::Vector(vector.number()),
        None => NoVector,
    }
}

impl Part for SynicRegs {
    type Call = Call;

    type Answer = Answer;

    fn ask(&mut self, call: Call) -> Option<Answer> {
        // README synic_regs: begin
        Some(match call {
            Write(number, value) => Written(self.write(stored(number)?, value)),
            Read(number) => Word(self.read(stored(number)?)),
            IsEnabled => Is(self.is_enabled()),
            SimIsEnabled => Is(self.sim_is_enabled()),
            SiefIsEnabled => Is(self.sief_is_enabled()),
            Raises(number) => answer_of(self.raises(Sint::new(number)?)),
            IsAuto(number) => Is(self.is_auto(Vector::new(number)?)),
            AutoSetHas(number) => Is(self.auto_set().contains(Vector::new(number)?)),
        })
        // README synic_regs: end
    }
}

const STORED: Answer = Written(Outcome::Stored);

const REFUSED: Answer = Written(Outcome::GeneralProtection);

/// SCONTROL, SIEFP, SIMP and SINT2.
const WHOLE_WORDS: [(Call, Answer); 20] = [
    (Read(0x4000_0080), Word(0)),
    (Read(0x4000_0082), Word(0)),
    (Read(0x4000_0083), Word(0)),
    (Read(0x4000_0092), Word(0x1_0000)),
    (IsEnabled, Is(false)),
    (SiefIsEnabled, Is(false)),
    (SimIsEnabled, Is(false)),
    (Write(0x4000_0080, u64::MAX), STORED),
    (IsEnabled, Is(true)),
    (SiefIsEnabled, Is(false)),
    (Write(0x4000_0082, u64::MAX), STORED),
    (SiefIsEnabled, Is(true)),
    (SimIsEnabled, Is(false)),
    (Write(0x4000_0083, u64::MAX), STORED),
    (SimIsEnabled, Is(true)),
    (Write(0x4000_0092, u64::MAX), STORED),
    (Read(0x4000_0080), Word(u64::MAX)),
    (Read(0x4000_0082), Word(u64::MAX)),
    (Read(0x4000_0083), Word(u64::MAX)),
    (Read(0x4000_0092), Word(u64::MAX)),
];

#[test]
fn registers_store_whole_words(rt: HostRuntime) {
    assert_eq!(rt; first_other(&mut SynicRegs::new(), &WHOLE_WORDS), None);
}

/// SINT3: AutoEOI, then masked, then polling too, then neither, then a vector below 16 unmasked and masked.
const SOURCES: [(Call, Answer); 26] = [
    (Raises(3), NoVector),
    (Write(0x4000_0093, 0x2_0055), STORED),
    (Raises(3), Answer::Vector(0x55)),
    (Raises(2), NoVector),
    (IsAuto(0x55), Is(true)),
    (AutoSetHas(0x55), Is(true)),
    (IsAuto(0x56), Is(false)),
    (AutoSetHas(0x56), Is(false)),
    (Write(0x4000_0093, 0x3_0055), STORED),
    (Raises(3), NoVector),
    (IsAuto(0x55), Is(false)),
    (AutoSetHas(0x55), Is(false)),
    (Write(0x4000_0093, 0x6_0055), STORED),
    (Raises(3), NoVector),
    (IsAuto(0x55), Is(false)),
    (Write(0x4000_0093, 0x0_0055), STORED),
    (Raises(3), Answer::Vector(0x55)),
    (IsAuto(0x55), Is(false)),
    (AutoSetHas(0x55), Is(false)),
    (Write(0x4000_0093, 0x2_000f), REFUSED),
    (Read(0x4000_0093), Word(0x0_0055)),
    (Raises(3), Answer::Vector(0x55)),
    (Write(0x4000_0093, 0x4_000f), REFUSED),
    (Raises(3), Answer::Vector(0x55)),
    (Write(0x4000_0093, 0x3_000f), STORED),
    (Raises(3), NoVector),
];

#[test]
fn sources_raise_and_end_by_themselves(rt: HostRuntime) {
    assert_eq!(rt; first_other(&mut SynicRegs::new(), &SOURCES), None);
}
