// The registers of one processor's synthetic interrupt controller.
ghost use Rattle.std.specs.Prelude.{◌≡◌, ◌<◌, ◌^◌, IsTrue, length};
ghost use Rattle.std.specs.List.{All};
ghost use Rattle.std.specs.FinSet as set;
ghost use Rattle.synic_regs.specs.Regs.{reset_regs, stores, outcome_of, after_write, value_of, has, enable, auto_vectors, auto_eoi_of, raised_by};
ghost use Rattle.synic_regs.specs.Ranges.{AreRegs};
ghost use Rattle.synic_regs.specs.inside.Legal.{AreLegal};

use crate::register::Register;
use crate::words::{EnableWord, SintWord};
use bitflags::Flags;
use board_terms::{Sint, Vector};
use lapic_core::VectorSet;
use std::marker::Model;

/// The result of a register write.
#[derive(Clone, Copy, PartialEq, Eq, Debug)]
pub enum Outcome {
    /// The value is stored whole.
    Stored,
    /// The write raises #GP and changes nothing.
    GeneralProtection,
}

/// SCONTROL, SIEFP, SIMP and SINT0 to SINT15 of one processor, which store all 64 bits (profile).
#[derive(Drop)]
pub struct SynicRegs {
    control: u64,
    sief: u64,
    sim: u64,
    sints: [u64; 16],
    // Cache: the auto-EOI vectors. It depends only on the sources, and each write of a source
    // recomputes it.
    auto: VectorSet,
}

impl Model for SynicRegs {
    ghost use Rattle.synic_regs.specs.Regs.{Regs};
    ghost use Rattle.synic_regs.specs.inside.Codes.{regs_code};

    ghost Value = { Regs };

    ghost coded = { regs_code };

    ghost use Rattle.synic_regs.specs.inside.View.{regs_of, RegsInvariant};

    ghost view = { regs_of };

    ghost invariant = { RegsInvariant };
}

impl SynicRegs {
    /// The registers after reset: every source is masked, and all else is 0.
    pub fn new() -> SynicRegs
        ensures { result ≡ reset_regs }
    {
        let sints = [SintWord::MASKED.bits(); 16];
        SynicRegs {
            control: 0,
            sief: 0,
            sim: 0,
            auto: auto_eoi_of(&sints),
            sints,
        }
    }

    /// Writes SCONTROL, SIEFP, SIMP or a source. A source whose vector is below 16 must be masked,
    /// or the write raises #GP (profile). Requires one of these registers.
    pub fn write(&mut self, register: Register, value: u64) -> Outcome
        requires { IsTrue (stores register) }
        ensures outcome { result ≡ outcome_of register value }
        ensures after { self.new ≡ after_write self.old register value }
    {
        match register {
            Register::Control => self.control = value,
            Register::Sief => self.sief = value,
            Register::Sim => self.sim = value,
            Register::Source(sint) => return self.write_source(sint, value),
            _ => unreachable!(),
        }
        Outcome::Stored
    }

    #[inline(never)]
    fn write_source(&mut self, sint: Sint, value: u64) -> Outcome
        ensures outcome { result ≡ outcome_of (Register.Source sint) value }
        ensures after { self.new ≡ after_write self.old (Register.Source sint) value }
    {
        if !SintWord::new(value).is_legal() {
            return Outcome::GeneralProtection;
        }
        self.sints[sint.number() as usize] = value;
        self.auto = auto_eoi_of(&self.sints);
        Outcome::Stored
    }

    /// The value of SCONTROL, SIEFP, SIMP or a source. Requires one of these registers.
    pub fn read(&self, register: Register) -> u64
        requires { IsTrue (stores register) }
        ensures { result ≡ value_of self.now register }
    {
        match register {
            Register::Control => self.control,
            Register::Sief => self.sief,
            Register::Sim => self.sim,
            Register::Source(sint) => self.sints[sint.number() as usize],
            _ => unreachable!(),
        }
    }

    /// Whether the synthetic interrupt controller is enabled: bit 0 of SCONTROL.
    pub fn is_enabled(&self) -> bool
        ensures { result ≡ has self.now.control enable }
    {
        EnableWord::new(self.control).is_enabled()
    }

    /// Whether the message page is enabled: bit 0 of SIMP.
    pub fn sim_is_enabled(&self) -> bool
        ensures { result ≡ has self.now.sim enable }
    {
        EnableWord::new(self.sim).is_enabled()
    }

    /// Whether the event flags page is enabled: bit 0 of SIEFP.
    pub fn sief_is_enabled(&self) -> bool
        ensures { result ≡ has self.now.sief enable }
    {
        EnableWord::new(self.sief).is_enabled()
    }

    /// Whether a vector is auto-EOI: some source that is neither masked nor polling has this vector
    /// and the AutoEOI bit.
    pub fn is_auto(&self, vector: Vector) -> bool
        ensures { result ≡ set.contains (auto_vectors self.now) vector }
    {
        self.auto.contains(vector)
    }

    /// The auto-EOI vectors.
    pub fn auto_set(&self) -> &VectorSet
        ensures { result.now ≡ auto_vectors self.now }
    {
        &self.auto
    }

    /// The vector that a source raises; `None` if it is masked or polling (profile).
    pub fn raises(&self, sint: Sint) -> Option<Vector>
        ensures { result ≡ raised_by self.now sint }
    {
        SintWord::new(self.sints[sint.number() as usize]).raised()
    }

    /// What holds for the values of all registers. Does nothing.
    pub fn facts(&self)
        ensures ranges { AreRegs self.now }
    {
        let _control = self.control;
        let _sief = self.sief;
        let _sim = self.sim;
        are_words(&self.sints);
    }
}

/// Sixteen values of 64 bits.
fn are_words(sints: &[u64; 16])
    ensures count { length sints.now ≡ 16 }
    ensures words { All (λ word. word < 2 ^ 64) sints.now }
{
    let _words = sints.as_slice();
}

/// The vectors that some of these sources make auto-EOI.
fn auto_eoi_of(sints: &[u64; 16]) -> VectorSet
    requires { AreLegal sints.now }
    ensures { result ≡ auto_eoi_of sints.now }
{
    let mut auto = VectorSet::new();
    for word in sints {
        if let Some(vector) = SintWord::new(*word).auto_eoi() {
            auto.insert(vector);
        }
    }
    auto
}
