//! What holds in a whole run of a message slot of a live page: laws, each a function with an empty
//! body whose clause is the theorem.
#![tactic(auto)]

ghost use Rattle.law_slots.specs.Slots.{NoMessageWaitsUnseen, AMessageIsFollowed, EachMessageLeaves, EachMessageIsPlaced, AQueueIsNeverStuck, EachPrecautionIsNeeded, AllArePlaced};
ghost use Rattle.law_slots.specs.Pages.{NoMessageWaitsUnseenInMemory, AFlickerIsMissed};
ghost use Rattle.law_slots.specs.Rounds.{AFewRoundsPlace, AnEomFills};
ghost use Rattle.law_slots.specs.Reading.{NoMessageIsTorn};

/// In a whole run of a slot, no message waits unseen: while no call is under way and a message is
/// queued, the guest will ask for it, or the processor is owed an EOM.
#[tactic(auto, using(crate::proofs::Runs::no_message_waits_unseen))]
pub fn no_message_waits_unseen()
    ensures { NoMessageWaitsUnseen }
{}

/// How many messages are before one in the queue is followed as the steps say: while it is there it is
/// the same message, and it leaves the queue when it is placed or withdrawn.
#[tactic(auto, using(crate::proofs::Counts::a_message_is_followed))]
pub fn a_message_is_followed()
    ensures { AMessageIsFollowed }
{}

/// A message that is queued leaves the queue, placed or withdrawn, within 10 steps of a guest that
/// uses its messages, and 10 more for each message before it.
#[tactic(auto, using(crate::proofs::Counts::each_message_leaves))]
pub fn each_message_leaves()
    ensures { EachMessageLeaves }
{}

/// If no message is withdrawn meanwhile, it is placed.
#[tactic(auto, using(crate::proofs::Counts::each_message_is_placed))]
pub fn each_message_is_placed()
    ensures { EachMessageIsPlaced }
{}

/// While a message is queued there is always such a step, or the host has an access to make.
#[tactic(auto, using(crate::proofs::Runs::never_stuck))]
pub fn a_queue_is_never_stuck()
    ensures { AQueueIsNeverStuck }
{}

/// Without the guest's barrier, the host's second look, or the EOM that is owed after a late one, some
/// run is stuck; and so it is if the guest empties its slot by a store of eight bytes, which erases
/// MessagePending too.
pub fn each_precaution_is_needed_in_a_run()
    ensures { EachPrecautionIsNeeded }
{}

/// The same on the history of a page, for calls of which their clauses say: if a message waits after
/// it, the host has left the slot marked, or owes an EOM, or one waited before and it stored no header.
#[tactic(auto, using(crate::proofs::Memory::no_message_waits_unseen))]
pub fn no_message_waits_unseen_in_memory()
    ensures { NoMessageWaitsUnseenInMemory }
{}

/// A host that may store in the header of an empty slot, and put it back, can hide MessagePending from
/// the guest: a message waits unseen.
#[tactic(auto, using(crate::proofs::Flicker::a_flicker_is_missed))]
pub fn a_flicker_is_missed()
    ensures { AFlickerIsMissed }
{}

/// On the history of a page a guest makes at most 9 steps of its rounds before a call stores the header,
/// if each EOM leaves the slot marked; and an EOM that finds the slot empty stores it.
#[tactic(auto, using(crate::proofs::Rounds::a_few_rounds_place, crate::proofs::Rounds::an_eom_fills))]
pub fn a_few_rounds_place()
    ensures rounds { AFewRoundsPlace }
    ensures eom { AnEomFills }
{}

/// Some run places three messages in their order, one of them by an EOM that was owed, without which the
/// queue would have stayed.
pub fn a_run_places_all()
    ensures { AllArePlaced }
{}

/// While a guest reads its message, from the load that finds a type in the header until it empties the slot,
/// no word of the message changes except for MessagePending: if the host stores into the slot only while it
/// knows the slot to be empty, and others do not write there. So no message is torn, in whatever order the
/// guest loads its words.
#[tactic(auto, using(crate::proofs::Reading::no_message_is_torn))]
pub fn no_message_is_torn()
    ensures { NoMessageIsTorn }
{}
