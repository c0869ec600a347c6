// Sending an interrupt to several processors.
ghost use Rattle.std.specs.Prelude.{◌≡◌, ◌<◌, ◌≤◌, ◌+◌, ◌^◌, [], length};
ghost use Rattle.synic_board.specs.State.{processors};
ghost use Rattle.synic_board.specs.inside.Effected.{Effected};
ghost use Rattle.synic_board.specs.Interrupts.{requested};
ghost use Rattle.synic_board.specs.Sending.{sent_below, sent};

use crate::event::Reply;
use crate::machine::Machine;
use board_terms::{Notices, Refusal, Vector};

impl Machine {
    /// Requests a vector at each processor of a mask, lowest first.
    #[inline(always)]
    pub(crate) fn send(&mut self, vector: Vector, mask: u64, notices: &mut Notices) -> Reply
        requires fresh { notices.old ≡ [] }
        ensures step { (self.new.state, result, notices.new) ≡ sent self.old.state vector mask }
        ensures writes_monotone { self.old.writes ≤ self.new.writes }
        ensures bound { self.new.writes ≤ self.old.writes + length notices.new }
    {
        // With 64 processors each bit is one of them.
        let count = self.processors();
        if count < 64 && mask >> count != 0 {
            return Reply::Refused(Refusal::NoSuchProcessor);
        }
        self.send_to_each(vector, mask, notices);
        Reply::Done
    }

    /// Requests a vector at the processors of the set bits, and visits no other.
    #[inline(never)]
    fn send_to_each(&mut self, vector: Vector, mask: u64, notices: &mut Notices)
        requires on { mask < 2 ^ processors self.old.state }
        requires room { length notices.old + 64 ≤ 320 }
        ensures { Effected self.old notices.old self.new notices.new (sent_below self.old.state vector mask 64) }
    {
        let mut left = mask;
        let mut behind = 0u8;
        while left != 0 {
            let skipped = left.trailing_zeros() as u8;
            let number = behind + skipped;
            self.send_to(number, vector, notices);
            left = (left >> skipped) / 2;
            behind = number + 1;
        }
    }

    /// Requests a vector at the processor with this number.
    fn send_to(&mut self, number: u8, vector: Vector, notices: &mut Notices)
        requires on { number < processors self.old.state }
        requires room { length notices.old < 320 }
        ensures { Effected self.old notices.old self.new notices.new (requested self.old.state number vector) }
    {
        if let Some(vp) = self.processor(number) {
            self.request(vp, vector, notices);
        }
    }
}
