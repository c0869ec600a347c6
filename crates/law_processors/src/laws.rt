// Theorems about events of different processors.
ghost use Rattle.std.specs.Prelude.{◌≡◌, ◌≢◌, ℕ, true, false, List, []};
ghost use Rattle.std.specs.List.{All};
ghost use Rattle.synic_board.specs.declared.event.Event.{Event};
ghost use Rattle.synic_board.specs.State.{State};
ghost use Rattle.synic_board.specs.Sound.{IsSound, PayloadFits};
ghost use Rattle.synic_board.specs.Step.{step};
ghost use Rattle.arrayvec.specs.ArrayVec.{ArrayVec};
ghost use Rattle.law_processors.specs.Apart.{IsOwn, Commute, LeavesOthers};
ghost use Rattle.lapic_core.specs.Vectors.{Vectors};
ghost use Rattle.law_processors.specs.Elsewhere.{idle, is_apics_own, AnswerAlike};
ghost use Rattle.law_processors.specs.Outside.{Turn, taken_over, whole, AreTurns, with_requests};
ghost use Rattle.law_processors.specs.Isolation.{touches, LeavesAlone, Untouched, RunsAlone, KeepsShared, StoresAlone, NoneIsVisible};
ghost use Rattle.law_processors.specs.Influence.{Agree, ConcernsAlone, ActsAlike};
ghost use Rattle.law_processors.specs.Exchange.{AreConfined, EndAlike};

/// An event of one processor changes no other processor's local APIC, registers or suspension, and no
/// page, port, queue, slot or timer, and not the time.
#[tactic(auto, using(crate::proofs::Commuting::leaves_others))]
pub fn an_own_event_leaves_other_processors()
    ensures { (s : State) (p : ℕ) (event : Event) → IsOwn p event → LeavesOthers s p event }
{}

/// Events of two processors can be exchanged: the state after both is the same, and so are the reply
/// to each and its notices.
#[tactic(auto, using(crate::proofs::Commuting::commute))]
pub fn own_events_of_two_processors_commute()
    ensures { (s : State) (p q : ℕ) (e f : Event) → p ≢ q → IsOwn p e → IsOwn q f → Commute s e f }
{}

/// What an event does apart from the local APICs does not depend on them: two boards that differ in what is
/// requested, in service or masked by TPR alone reply alike, emit the same notices except Requested, and
/// stay such boards. Only the reply to `take` and that to a read of TPR is the local APIC's. So a board whose
/// local APICs are elsewhere, to which requested vectors are forwarded, is the whole board in all else.
#[tactic(auto, using(crate::proofs::Alike::alike))]
pub fn boards_that_differ_in_local_apics_answer_alike()
    ensures { (s t : State) (event : Event) → idle s ≡ idle t → AnswerAlike s t event }
{}

/// What is taken over by a local APIC outside the board stays requested until it is ended there: a run in which, after
/// each event, it takes over requests of a processor and ends some that it has leads, with what it still has, to the
/// board of the same events where the same vectors are ended. So the vectors requested at the whole board are those
/// requested at the board and those outside that are not ended, and all else is the same. What is ended must not be
/// requested at the board once more; `take` and a reset of the processor are left out.
#[tactic(auto, using(crate::proofs::Outside::whole_run))]
pub fn taken_over_requests_stay_requested()
    ensures { (s : State) (p : ℕ) (outside : Vectors) (turns : List Turn) → AreTurns s p turns
        → with_requests (taken_over s p outside turns).0 p (taken_over s p outside turns).1
        ≡ whole (with_requests s p outside) p turns }
{}

/// The events of a local APIC alone, `take` and writes of EOI and TPR, change nothing but that local APIC,
/// and emit nothing.
#[tactic(auto, using(crate::proofs::Alike::own))]
pub fn a_local_apics_own_events_change_nothing_else()
    ensures { (s : State) (event : Event) → is_apics_own event ≡ true → (idle (step s event).0 ≡ idle s)
        × ((step s event).2 ≡ []) }
{}

/// An event leaves each processor alone that it does not touch: all that the processor has is unchanged, and no notice
/// of the event names it.
pub fn an_event_leaves_alone_what_it_does_not_touch()
    ensures { (s : State) (event : Event) (q : ℕ) → IsSound s → touches s event q ≡ false
        → LeavesAlone s event q }
{}

/// A list of events leaves each processor alone that none of them touches in the state where it occurs.
#[tactic(auto, using(crate::proofs::Isolating::runs_alone))]
pub fn a_run_leaves_alone_what_it_does_not_touch()
    ensures { (s : State) (events : List Event) (q : ℕ) → All PayloadFits events → IsSound s
        → Untouched s events q → RunsAlone s events q }
{}

/// What an event that concerns one processor alone does depends on this processor and on what processors share:
/// in two states that agree in these it has the same reply and notices, and leaves the same of the processor.
pub fn an_event_depends_on_its_processor_alone()
    ensures { (q : ℕ) (s t : State) (event : Event) → Agree q s t → ConcernsAlone s event q
        → ConcernsAlone t event q → ActsAlike q s t event }
{}

/// An event of processor p and one of processor q, each of which concerns its own processor alone and leaves what
/// processors share, in whichever order they come, can be exchanged: each has the same reply and notices, and all
/// processors and what they share end the same.
pub fn events_confined_to_two_processors_can_be_exchanged()
    ensures { (p q : ℕ) (s : State) (e f : Event) → p ≢ q → AreConfined p q s e f → EndAlike s e f }
{}

/// What processors share: only a tick moves the clock, only opening and closing change the ports, only a post, a
/// tick and a write of a timer take tickets, only a store changes guest pages, and only a write of SIMP or SIEFP, or
/// a reset, changes which overlay is visible where.
#[tactic(auto, using(crate::proofs::Shared::keeps_shared_parts))]
pub fn shared_parts_change_only_by_their_events()
    ensures { (s : State) (event : Event) → KeepsShared s event }
{}

/// A store where a guest sees no overlay changes guest pages alone, and emits nothing.
#[tactic(auto, using(crate::proofs::Shared::stores_alone))]
pub fn a_store_outside_overlays_changes_guest_pages_alone()
    ensures { (s : State) (address : ℕ) (bytes : ArrayVec ℕ) → NoneIsVisible s address
        → StoresAlone s address bytes }
{}
