//! Register numbers, by their names in the TLFS without the prefix `HV_X64_MSR_` ("Virtual
//! Interrupt Controller", "Synthetic Timers" and "Partition Reference Counter"). SINT0 to SINT15
//! are consecutive, and so are STIMER0_CONFIG, STIMER0_COUNT, STIMER1_CONFIG and so on.

/// The partition reference counter, in units of 100 ns.
pub const TIME_REF_COUNT: u32 = 0x4000_0020;

/// End of interrupt.
pub const EOI: u32 = 0x4000_0070;

/// Task priority.
pub const TPR: u32 = 0x4000_0072;

/// SynIC control.
pub const SCONTROL: u32 = 0x4000_0080;

/// SynIC version.
pub const SVERSION: u32 = 0x4000_0081;

/// Event flags page.
pub const SIEFP: u32 = 0x4000_0082;

/// Message page.
pub const SIMP: u32 = 0x4000_0083;

/// End of message.
pub const EOM: u32 = 0x4000_0084;

/// The first synthetic interrupt source.
pub const SINT0: u32 = 0x4000_0090;

/// The source that most guests use for messages.
pub const SINT2: u32 = 0x4000_0092;

/// The last synthetic interrupt source.
pub const SINT15: u32 = 0x4000_009f;

/// The configuration of the first timer.
pub const STIMER0_CONFIG: u32 = 0x4000_00b0;

/// The count of the first timer.
pub const STIMER0_COUNT: u32 = 0x4000_00b1;

/// The configuration of the last timer.
pub const STIMER3_CONFIG: u32 = 0x4000_00b6;

/// The count of the last timer.
pub const STIMER3_COUNT: u32 = 0x4000_00b7;
