//! What holds of a board with live pages whatever its guests store: theorems over the clauses of `live_board`.
//! Each is a function with an empty body, whose clause is the theorem.
#![tactic(auto)]

ghost use Rattle.law_live.specs.Alone.{CallsLeaveAlone, RunsLeaveAlone};
ghost use Rattle.law_live.specs.Kept.{PostsKeepSlots, EomsKeepSlots, TimersKeepSlots, TicksKeepSlots};

/// A call leaves each processor alone that it may not touch, whatever guests have stored in the pages of others
/// before it or store meanwhile: all that the processor has is unchanged, no notice names it, and the host accesses
/// no word of its live pages.
pub fn a_call_leaves_alone_what_it_may_not_touch()
    ensures { CallsLeaveAlone }
{}

/// The same for calls one after another.
#[tactic(auto, using(crate::proofs::Apart::runs_leave_alone))]
pub fn calls_leave_alone_what_they_may_not_touch()
    ensures { RunsLeaveAlone }
{}

/// Where a guest sees its message page, the host stores in a slot only while it knows the slot to be empty, and sets
/// nothing there but MessagePending: in a post, an EOM, a write of a timer and a tick. So each access of these calls is
/// one of those with which no message is torn (`law_slots`, `no_message_is_torn`).
pub fn a_call_leaves_a_message_alone_that_a_guest_reads()
    ensures post { PostsKeepSlots }
    ensures eom { EomsKeepSlots }
    ensures timer { TimersKeepSlots }
    ensures tick { TicksKeepSlots }
{}
