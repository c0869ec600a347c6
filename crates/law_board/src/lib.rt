//! What a driver may rely on: theorems about the reference model, for any state that it may be in
//! and any event of any guest. Each is a function with an empty body, whose clause is the theorem.
#![tactic(auto)]

ghost use Rattle.std.specs.Prelude.{◌≡◌, ℕ, ◌<◌, ◌≤◌, ◌+◌, ◌/◌, ◌&&◌, ◌^◌, ◌++◌, ◌∷◌, [], not, true, false, Some, List, length, slice_set, slice_index_or};
ghost use Rattle.std.specs.List.{All};
ghost use Rattle.arrayvec.specs.ArrayVec.{ArrayVec};
ghost use Rattle.gpa_space.specs.Space.{is_flag_set};
ghost use Rattle.synic_board.specs.declared.event.Event.{Event};
ghost use Rattle.synic_regs.specs.Registers.{number_of_register};
ghost use Rattle.synic_regs.specs.declared.register.Register.TheVariants.{Eom};
ghost use Rattle.synic_board.specs.declared.event.Event.TheVariants.{Write, Store, Take};
ghost use Rattle.stimer_bank.specs.Bank.{idle_timer, timer_in};
ghost use Rattle.synic_board.specs.State.{State, opened, processors, space_of, slot_of, bank_of};
ghost use Rattle.synic_board.specs.Interrupts.{is_requested};
ghost use Rattle.synic_board.specs.Step.{step};
ghost use Rattle.synic_board.specs.Bounds.{most_notices};
ghost use Rattle.synic_board.specs.Sound.{IsSound, PayloadFits, HasShape};
ghost use Rattle.synic_board.specs.Buffers.{HasBuffers};
ghost use Rattle.synic_board.specs.Paired.{HasOneSuspension, HasPairedTimers};
ghost use Rattle.synic_board.specs.Locations.{Conserves};
ghost use Rattle.synic_board.specs.Restoring.{with_message, MayJoin};
ghost use Rattle.board_terms.specs.declared.messages.Message.{Message};
ghost use Rattle.stimer_bank.specs.declared.timer.Timer.{Timer};
ghost use Rattle.law_board.specs.Saved.{changed, is_idle, saved, restored};
ghost use Rattle.synic_board.specs.Run.{run_of};
ghost use Rattle.law_board.specs.Accounts.{Accounts};
ghost use Rattle.synic_board.specs.Replies.{IsReply, IsRefusal};
ghost use Rattle.law_board.specs.Leaving.{LeavesSummary, LeavesHidden};
ghost use Rattle.law_board.specs.Sparse.{Memory, AreAllPages, holding, completed, completed_run};
ghost use Rattle.law_board.specs.Requests.{has_request_notice, Takes};
ghost use Rattle.law_board.specs.Timely.{AreTimely};
ghost use Rattle.synic_board.specs.Slots.{IsApart, LeavesSlot};
ghost use Rattle.law_board.specs.Flags.{has_flag_notice, found_clear};
ghost use Rattle.law_board.specs.OneShots.{expiries, armed, writes, makes_periodic, IsOneShot};
ghost use Rattle.law_board.specs.Periods.{sets_timer, skips, IsPeriodic, after_periods};
ghost use Rattle.law_board.specs.Order.{KeepsOrder};
ghost use Rattle.synic_board.specs.Delivery.{delivers, is_slot_empty};
ghost use Rattle.law_board.specs.Seen.{IsSeen};
ghost use Rattle.law_board.specs.Refusals.{LeavesNoTrace, AnswersAlike};
ghost use Rattle.law_board.specs.Sends.{asserts_below, SendsAlike};
ghost use Rattle.synic_board.specs.Timers.{ticked};
ghost use Rattle.law_board.specs.Ticks.{ticked_all};

/// For any events from an opened board: each accepted message got the next ticket, and is in one
/// queue or slot, or was consumed or withdrawn once; no other message appears. Together with `run`,
/// whose board, replies and notices are those of `run_of`, and `Board::summary`, which always
/// equals the summary computed from scratch, this describes a board after any events.
#[tactic(auto, using(crate::proofs::Runs::accounts))]
pub fn each_ticket_is_accounted_for()
    ensures { (processors pages first : ℕ) (events : List Event) → All PayloadFits events
        → Accounts (opened processors pages first) (run_of (opened processors pages first) events) }
{}

/// For any events from an opened board: the state is sound. So the theorems below that assume a
/// sound state hold in each reachable state.
pub fn each_state_is_sound()
    ensures { (processors pages first : ℕ) (events : List Event) → All PayloadFits events
        → IsSound (run_of (opened processors pages first) events).0 }
{}

/// After any events from an opened board, with any number of processors: a reset emits at most 276 notices,
/// and any other event at most 192.
#[tactic(auto, using(synic_board::proofs::keeping::Buffers::bound))]
pub fn each_event_emits_a_bounded_number_of_notices()
    ensures { (processors pages first : ℕ) (events : List Event) (event : Event)
        → length (step (run_of (opened processors pages first) events).0 event).2 ≤ most_notices event }
{}

/// In any state with at most 32 timers, those of eight processors, a tick tries each timer that is due.
#[tactic(auto, using(crate::proofs::Ticking::ticks_all))]
pub fn a_tick_tries_each_of_32_timers()
    ensures { (s : State) (moment : ℕ) → length s.timers ≤ 32 → ticked s moment ≡ ticked_all s moment }
{}

/// For any events from an opened board: the timers of a processor are suspended iff its local APIC is. So
/// the two suspension flags of a processor always agree.
#[tactic(auto, using(crate::proofs::Runs::one_suspension))]
pub fn a_processor_has_one_suspension()
    ensures { (processors pages first : ℕ) (events : List Event) → processors ≤ 64
        → HasOneSuspension (run_of (opened processors pages first) events).0 }
{}

/// No reply has more than 8 bytes, the most that a guest may load at once.
#[tactic(auto, using(crate::proofs::Replies::step_fits))]
pub fn no_reply_has_more_than_eight_bytes()
    ensures { (s : State) (event : Event) → IsReply (step s event).1 }
{}

/// A sparse board and the memory of its guest, 2^52 pages, are a board that holds all these pages: each
/// event has the outcome of that board, where the caller performs in the memory each load and store that
/// the sparse board refuses as `Elsewhere`.
#[tactic(auto, using(crate::proofs::Sparse::step_completed))]
pub fn a_sparse_board_acts_like_one_with_all_pages()
    ensures { (s : State) (memory : Memory) (event : Event) → s.pages ≡ [] → AreAllPages memory
        → step (holding s memory) event ≡ completed memory event (step s event) }
{}

/// The same for any list of events. So what is proved of any board's replies, notices and states holds
/// of a sparse board with the memory of its guest.
#[tactic(auto, using(crate::proofs::Sparse::run_completed))]
pub fn a_sparse_board_runs_like_one_with_all_pages()
    ensures { (s : State) (memory : Memory) (events : List Event) → s.pages ≡ [] → AreAllPages memory
        → run_of (holding s memory) events ≡ completed_run s memory events }
{}

/// A sparse board stays sparse.
#[tactic(auto, using(crate::proofs::Sparse::stays_sparse))]
pub fn a_sparse_board_stays_sparse()
    ensures { (s : State) (event : Event) → s.pages ≡ [] → (step s event).0.pages ≡ [] }
{}

/// A guest store leaves everything in a summary unchanged, and the next ticket.
pub fn a_store_leaves_the_summary()
    ensures { (s : State) (address : ℕ) (bytes : ArrayVec ℕ) → LeavesSummary s (step s (Store address bytes)).0 }
{}

/// A guest store leaves each page unchanged, except the one that the guest sees at its address.
#[tactic(auto, using(crate::proofs::Leaving::leaves_hidden))]
pub fn a_store_leaves_what_is_hidden()
    ensures { (s : State) (address : ℕ) (bytes : ArrayVec ℕ)
        → LeavesHidden s (step s (Store address bytes)).0 (address / 4096) }
{}

/// An event that is refused, or raises #GP, leaves the state unchanged and emits nothing.
#[tactic(auto, using(crate::proofs::Refusing::no_trace))]
pub fn a_refusal_leaves_no_trace()
    ensures { (s : State) (event : Event) → IsRefusal (step s event).1 → LeavesNoTrace s event }
{}

/// Removing an event that is refused, or raises #GP, from a run changes no other reply, no notice,
/// and not the final state.
#[tactic(auto, using(crate::proofs::Refusing::alike))]
pub fn a_refusal_can_be_left_out()
    ensures { (s : State) (before : List Event) (event : Event) (behind : List Event)
        → IsRefusal (step (run_of s before).0 event).1 → AnswersAlike s before event behind }
{}

/// No event emits Expired for a timer before the deadline in the notice.
#[tactic(auto, using(crate::proofs::Timing::on_time))]
pub fn no_timer_expires_early()
    ensures { (s : State) (event : Event) → AreTimely (step s event).0.moment (step s event).2 }
{}

/// An event emits Requested for a vector iff it sets the vector's request bit: the bit was clear
/// before and is set after the event.
#[tactic(auto, using(crate::proofs::Requesting::emitted_of))]
pub fn a_request_notice_means_a_new_request()
    ensures { (s : State) (event : Event) (p v : ℕ) → p < processors s
        → has_request_notice p v (step s event).2 ≡ (not (is_requested s p v) && is_requested (step s event).0 p v) }
{}

/// A send to processors on the board leads to the same state as an assert at each of them, lowest
/// first, and emits the same notices.
#[tactic(auto, using(crate::proofs::Sends::sends_alike))]
pub fn a_send_asserts_at_each_processor()
    ensures { (s : State) (v mask : ℕ) → mask < 2 ^ processors s → SendsAlike s v mask (asserts_below v mask 64) }
{}

/// Between two takes of a vector by a processor, whatever the events between them, a Requested
/// notice of this vector at this processor is emitted.
#[tactic(auto, using(crate::proofs::Requesting::emitted_between))]
pub fn a_vector_is_requested_between_its_takes()
    ensures { (s : State) (events : List Event) (p v : ℕ)
        → Takes s p v → Takes (run_of (step s (Take p)).0 events).0 p v
        → has_request_notice p v (run_of (step s (Take p)).0 events).2 ≡ true }
{}

/// For any events: the messages of a queue are placed in their slot in the order in which they were
/// accepted. The messages placed, and then those queued at the end, are a subsequence of the
/// messages queued at first, and then those accepted.
#[tactic(auto, using(crate::proofs::Queueing::all_in_order))]
pub fn a_queue_keeps_its_order()
    ensures { (s : State) (events : List Event) (p i : ℕ) → KeepsOrder p i s (run_of s events).0 (run_of s events).2 }
{}

/// An event emits FlagSet for a flag iff it is a signal of that flag, was not refused, and found it
/// clear; and then the flag is set.
#[tactic(auto, using(crate::proofs::Flagging::emitted_flag, crate::proofs::Flagging::flag_set))]
pub fn a_flag_notice_means_that_a_signal_set_it()
    ensures emitted { (s : State) (event : Event) (p i flag : ℕ)
        → has_flag_notice p i flag (step s event).2 ≡ found_clear s p i flag event (step s event).1 }
    ensures stands { (s : State) (event : Event) (p i flag : ℕ) → IsSound s → p < processors s → i < 16 → flag < 2048
        → has_flag_notice p i flag (step s event).2 ≡ true → is_flag_set (space_of (step s event).0) p i flag ≡ true }
{}

/// A one-shot timer that no event makes periodic expires at most once for each event that writes
/// it, and once more if it was armed before; and once less if it is armed at the end.
#[tactic(auto, using(crate::proofs::OneShots::bound_expiries))]
pub fn a_one_shot_expires_once_a_write()
    ensures { (s : State) (t : ℕ × ℕ) (events : List Event) → IsOneShot s t
        → All (λ event. makes_periodic t event ≡ false) events
        → expiries t (run_of s events).2 + armed (run_of s events).0 t ≤ armed s t + writes t events }
{}

/// A periodic timer that no event sets (by a write of its registers, or a reset of its processor)
/// keeps its registers and its grid: from its deadline at first to its deadline at the end, each
/// period has one Expired notice, or is counted once in a Skipped notice.
#[tactic(auto, using(crate::proofs::Periods::goes_on))]
pub fn periods_are_accounted_for()
    ensures { (s : State) (t : ℕ × ℕ) (due : ℕ) (events : List Event) → IsPeriodic (timer_in (bank_of s) t) due
        → All (λ event. sets_timer t event ≡ false) events
        → timer_in (bank_of (run_of s events).0) t
        ≡ after_periods (timer_in (bank_of s) t) due
        (expiries t (run_of s events).2 + skips t (run_of s events).2) }
{}

/// An event that is neither a guest store nor a reset of that processor leaves an occupied slot
/// unchanged, and likewise one that holds a ticket: its ticket, and its bytes except
/// MessagePending.
pub fn an_occupied_slot_is_left_to_the_guest()
    ensures occupied { (s : State) (event : Event) (p i : ℕ) → IsSound s → PayloadFits event → IsApart p event
        → p < processors s → i < 16
        → is_slot_empty s p i ≡ false → LeavesSlot s (step s event).0 p i }
    ensures held { (s : State) (event : Event) (p i ticket : ℕ) → IsSound s → PayloadFits event → IsApart p event
        → p < processors s → i < 16
        → slot_of s p i ≡ Some ticket → LeavesSlot s (step s event).0 p i }
{}

/// After a write of EOM, no message of that processor is queued without MessagePending, while its
/// SynIC and its message page are enabled: the queue of each source is empty, or its slot is
/// occupied and has MessagePending set, so that the guest knows to write EOM again (TLFS, "Message
/// Delivery").
#[tactic(auto, using(crate::proofs::Seeing::seen_behind))]
pub fn no_message_waits_unnoticed_after_eom()
    ensures { (s : State) (p i value : ℕ) → IsSound s → p < processors s → i < 16 → delivers s p ≡ true
        → IsSeen (step s (Write p (number_of_register Eom) value)).0 p i }
{}

/// What is saved of a board's state leads back to it: the timers of a processor are suspended iff its
/// local APIC is, so their marks are not saved. No two such states are saved alike.
#[tactic(auto, using(crate::proofs::Saved::saved_back, crate::proofs::Saved::saved_once))]
pub fn a_saved_state_is_restored()
    ensures restored { (s : State) → HasShape s → HasPairedTimers s → restored (saved s) ≡ s }
    ensures once { (s t : State) → HasShape s → HasPairedTimers s → HasShape t → HasPairedTimers t → saved s ≡ saved t
        → s ≡ t }
{}

/// Any events from any sound state, such as one that was restored: the state stays sound, the timers
/// stay suspended with their local APICs, accepted messages are conserved, and a reset emits at most
/// 276 notices, any other event at most 192.
pub fn a_sound_board_stays_sound()
    ensures sound { (s : State) (events : List Event) → All PayloadFits events → IsSound s
        → IsSound (run_of s events).0 }
    ensures buffers { (s : State) (events : List Event) → HasBuffers s → HasBuffers (run_of s events).0 }
    ensures settled { (s : State) (events : List Event) → HasPairedTimers s → HasPairedTimers (run_of s events).0 }
    ensures conserves { (s : State) (events : List Event) → All PayloadFits events → IsSound s
        → Conserves s (run_of s events).0 (run_of s events).2 }
    ensures bound { (s : State) (events : List Event) (event : Event) → HasBuffers s
        → length (step (run_of s events).0 event).2 ≤ most_notices event }
{}

/// A timer that is set after all timers that are not idle is the last one that is saved. So what is
/// saved of a draft grows at its end as the draft takes one timer after another.
pub fn a_last_change_is_saved_last()
    ensures { (xs : List Timer) (j : ℕ) (x : Timer) → j < length xs → is_idle x ≡ false
        → ((i : ℕ) → j ≤ i → i < length xs → is_idle (slice_index_or xs i idle_timer) ≡ true)
        → changed is_idle 0 (slice_set xs j x) ≡ changed is_idle 0 xs ++ (j, x) ∷ [] }
{}

/// With a message that a draft refuses, no state would be sound.
pub fn a_refused_message_fits_no_sound_board()
    ensures { (s : State) (p i : ℕ) (m : Message) → p < processors s → i < 16 → IsSound s
        → IsSound (with_message s p i m) → HasBuffers (with_message s p i m) → MayJoin s p i m }
{}
