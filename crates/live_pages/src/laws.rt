// Laws of the words of a page, and of the protocol of a slot.
ghost use Rattle.live_pages.specs.Traces.{AnybodyMayWrite, AGuestThatWritesNothingIsNotSeen, ASignalledFlagStays};
ghost use Rattle.live_pages.specs.Protocol.{NoWakeUpIsMissed, EachPrecautionIsNeeded};
ghost use Rattle.live_pages.specs.Headers as headers;
ghost use Rattle.std.specs.Prelude.{ℕ};

/// Whatever anybody else writes to a page, the rule of its words holds: the words are what some
/// history leaves, in which the accesses of the host are those of its log.
pub fn anybody_may_write()
    ensures { AnybodyMayWrite }
{}

/// If the guest has written nothing, each access of the host found what the host itself had left.
pub fn a_guest_that_writes_nothing_is_not_seen()
    ensures { AGuestThatWritesNothingIsNotSeen }
{}

/// A bit that an atomic or of the host set stays set in memory until another write clears it.
pub fn a_signalled_flag_stays()
    ensures { ASignalledFlagStays }
{}

/// If the host looks again at the type when it has set MessagePending, and the guest has a barrier
/// between its store of type 0 and its look at the flags, then no message is queued for an empty
/// slot while both are at rest, in whatever order their steps come, on a processor that delays stores.
pub fn no_wake_up_is_missed()
    ensures { NoWakeUpIsMissed }
{}

/// The same for the first word of a slot in memory: the mark is an atomic or of the word,
/// and the guest's store of type 0 writes 32 of its bits.
pub fn no_wake_up_is_missed_in_memory()
    ensures { headers.NoWakeUpIsMissed }
{}

/// Without the second look, or without the barrier, there are steps after which a message is
/// queued for an empty slot and neither host nor guest will move.
pub fn each_precaution_is_needed()
    ensures { EachPrecautionIsNeeded }
{}
