// Register accesses of one processor (TLFS, "Virtual Interrupt Controller").
ghost use Rattle.std.specs.Prelude.{◌≡◌, ◌<◌, ◌≤◌, ◌+◌, [], length};
ghost use Rattle.synic_regs.specs.declared.register.Register.TheVariants as register;
ghost use Rattle.synic_board.specs.State.{processors};
ghost use Rattle.synic_board.specs.Registers.{written, stored, read};

use crate::event::Reply;
use crate::machine::Machine;
use crate::summary::Entry;
use board_terms::{Kind, Notices, Sint, TimerId, Vp};
use synic_regs::{Outcome, Register, decode};

/// The SynIC version in SVERSION.
const VERSION: u64 = 1;

impl Machine {
    /// Writes a register.
    #[inline(always)]
    pub(crate) fn write(&mut self, vp: Vp, number: u32, value: u64, notices: &mut Notices) -> Reply
        requires on { vp < processors self.old.state }
        requires empty { notices.old ≡ [] }
        ensures step { (self.new.state, result, notices.new) ≡ written self.old.state vp number value }
        ensures writes_monotone { self.old.writes ≤ self.new.writes }
        ensures bound { self.new.writes ≤ self.old.writes + (2 + length notices.new) }
    {
        let Some(register) = decode(number) else {
            return Reply::GeneralProtection;
        };
        match register {
            Register::Eoi => self.end(vp),
            Register::Tpr => self.set_priority(vp, value),
            Register::Control => self.write_control(vp, value),
            Register::Sief => self.write_overlay(vp, Kind::Sief, value),
            Register::Sim => self.write_overlay(vp, Kind::Sim, value),
            Register::Eom => self.try_all(vp, notices),
            Register::Source(sint) => return self.write_source(vp, sint, value),
            Register::TimerConfig(index) => {
                self.write_timer_config(TimerId::new(vp, index).unwrap(), value, notices);
            }
            Register::TimerCount(index) => {
                self.write_timer_count(TimerId::new(vp, index).unwrap(), value, notices);
            }
            Register::ReferenceCounter | Register::Version => return Reply::GeneralProtection,
        }
        Reply::Done
    }

    /// Writes SCONTROL.
    #[tactic(auto, using(crate::proofs::Rules::lists))]
    pub(crate) fn write_control(&mut self, vp: Vp, value: u64)
        requires { vp < processors self.old.state }
        ensures state { (self.new.state, Reply.Done, []) ≡ stored self.old.state vp register.Control value }
        ensures writes { self.new.writes ≡ self.old.writes }
    {
        let _ = self.regs[vp.number() as usize].write(Register::Control, value);
    }

    /// Writes a source, and updates the auto-EOI vectors.
    #[tactic(auto, using(crate::proofs::Rules::lists))]
    #[inline(always)]
    pub(crate) fn write_source(&mut self, vp: Vp, sint: Sint, value: u64) -> Reply
        requires { vp < processors self.old.state }
        ensures step { (self.new.state, result, []) ≡ stored self.old.state vp (register.Source sint) value }
        ensures writes_monotone { self.old.writes ≤ self.new.writes }
        ensures bound { self.new.writes ≤ self.old.writes + 1 }
    {
        let regs = &mut self.regs[vp.number() as usize];
        if regs.write(Register::Source(sint), value) == Outcome::GeneralProtection {
            return Reply::GeneralProtection;
        }
        let auto = regs.auto_set().copy();
        self.summary.write(Entry::Auto(vp, auto));
        Reply::Done
    }

    /// Reads a register.
    #[tactic(auto, using(crate::proofs::Rules::lists))]
    #[inline(always)]
    pub(crate) fn read(&self, vp: Vp, number: u32) -> Reply
        requires { vp < processors self.now.state }
        ensures { result ≡ read self.now.state vp number }
    {
        let at = vp.number() as usize;
        let Some(register) = decode(number) else {
            return Reply::GeneralProtection;
        };
        match register {
            Register::ReferenceCounter => Reply::Value(self.moment),
            Register::Tpr => Reply::Value(self.lapics[at].task_priority() as u64),
            Register::Version => Reply::Value(VERSION),
            Register::Eom => Reply::Value(0),
            Register::Control | Register::Sief | Register::Sim | Register::Source(_) => {
                Reply::Value(self.regs[at].read(register))
            }
            Register::TimerConfig(index) => {
                Reply::Value(self.timers.read_config(TimerId::new(vp, index).unwrap()))
            }
            Register::TimerCount(index) => {
                Reply::Value(self.timers.read_count(TimerId::new(vp, index).unwrap()))
            }
            Register::Eoi => Reply::GeneralProtection,
        }
    }
}
