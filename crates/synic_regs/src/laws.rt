// Laws of the registers.
ghost use Rattle.synic_regs.specs.Registers.{HaveTheirNumbers};

/// `decode` of a number is a register iff the register exists and has that number.
pub fn registers_have_their_numbers()
    ensures { HaveTheirNumbers }
{}
