//! When a host must tick next: theorems about the reference model. Each is a function with an empty
//! body, whose clause is the theorem.
#![tactic(auto)]

ghost use Rattle.std.specs.Prelude.{◌≡◌, ℕ, ◌<◌, ◌^◌, ◌↔◌, true, false, List, Some, None};
ghost use Rattle.board_terms.specs.Dues.{least};
ghost use Rattle.stimer_bank.specs.Bank.{dues};
ghost use Rattle.synic_board.specs.State.{State, bank_of};
ghost use Rattle.synic_board.specs.Timers.{mode_at, is_ready_for};
ghost use Rattle.synic_board.specs.declared.event.Event.{Event};
ghost use Rattle.synic_board.specs.Step.{step};
ghost use Rattle.synic_board.specs.Alarm.{alarm_after, alarm, alarm_in_word};
ghost use Rattle.law_alarm.specs.Hosts.{Turn, AreInTime, MissNone};
ghost use Rattle.law_alarm.specs.Alarm.{late_board, deadline_after, is_alarm_by, may_move, IsQuiet, Wakes, IsFirst};

/// A tick before the alarm changes nothing but the time, and emits no notice.
#[tactic(auto, using(crate::proofs::Alarms::quiet))]
pub fn a_tick_before_the_alarm_changes_only_the_time()
    ensures { (s : State) (moment : ℕ) → s.moment < moment → is_alarm_by (alarm s) moment ≡ false
        → IsQuiet s moment }
{}

/// A tick at the alarm, or later, makes a timer expire or skip: its first notice is of that.
#[tactic(auto, using(crate::proofs::Alarms::wakes))]
pub fn a_tick_at_the_alarm_wakes_a_timer()
    ensures { (s : State) (moment : ℕ) → s.moment < moment → is_alarm_by (alarm s) moment ≡ true
        → Wakes s moment }
{}

/// The alarm is the least later time at which a tick makes a timer expire or skip; it is none iff no later
/// tick does.
pub fn the_alarm_is_the_first_tick_that_wakes_a_timer()
    ensures some { (s : State) (moment : ℕ) → (alarm s ≡ Some moment) ↔ IsFirst s moment }
    ensures none { (s : State) → (alarm s ≡ None) ↔ ((moment : ℕ) → s.moment < moment → IsQuiet s moment) }
{}

/// An event that is no tick at or after the alarm, no write of a timer, of SCONTROL or of EOM, no suspension, no
/// resumption and no reset, leaves the alarm; and so does a post, unless a message of a timer waits in that queue,
/// or it takes the last ticket.
#[tactic(auto, using(crate::proofs::Moving::stays))]
pub fn other_events_leave_the_alarm()
    ensures { (s : State) (event : Event) → may_move s event ≡ false → alarm (step s event).0 ≡ alarm s }
{}

/// On a clock of 64 bits the alarm below 2^64 serves as well.
#[tactic(auto, using(crate::proofs::Firsts::words))]
pub fn the_alarm_of_a_clock_of_64_bits_serves()
    ensures { (s : State) (moment : ℕ) → moment < 2 ^ 64
        → is_alarm_by (alarm_in_word s) moment ≡ is_alarm_by (alarm s) moment }
{}

/// A host that makes each call no later than at the alarm after the call before it misses no expiry: no tick between
/// two calls would have made a timer expire or skip, and a call at the alarm makes one do so. The answer of a call
/// from C also names each processor that has a next vector (`AreNextBits` of `c_calls`).
#[tactic(auto, using(crate::proofs::Hosts::misses_none))]
pub fn a_host_in_time_misses_no_expiry()
    ensures { (s : State) (turns : List Turn) → AreInTime s turns → MissNone s turns }
{}

/// If no timer has a deadline there is no alarm; if the earliest timer is ready, the alarm is its deadline, or the
/// next moment. So only a blocked earliest timer needs a search.
pub fn the_earliest_timer_has_the_alarm_if_it_is_ready()
    ensures none { (s : State) → least (dues (bank_of s)) ≡ None → alarm s ≡ None }
    ensures some { (s : State) (due : ℕ) (t : ℕ × ℕ) → least (dues (bank_of s)) ≡ Some (due, t)
        → is_ready_for s t (mode_at s t) ≡ true → alarm s ≡ Some (alarm_after s.moment due) }
{}

/// The next deadline after the present hides a timer that is late: here the next tick wakes it, and no deadline is
/// later than the present.
#[tactic(auto, using(crate::proofs::LateTimer::hidden))]
pub fn the_next_deadline_hides_a_late_timer()
    ensures { (alarm late_board ≡ Some 651) × (deadline_after late_board ≡ None) }
{}
