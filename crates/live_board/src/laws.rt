// What a guest can do by its stores to live pages, and what it cannot.
ghost use Rattle.std.specs.Prelude.{◌≡◌, ℕ, ◌<◌, ◌≤◌, ◌++◌, ◌+◌, ◌*◌, Bool, true, false, List, length, Some};
ghost use Rattle.std.specs.List.{All};
ghost use Rattle.board_terms.specs.declared.notices.Notice.{Notice};
ghost use Rattle.board_terms.specs.declared.pages.Kind.{Kind};
ghost use Rattle.board_terms.specs.declared.pages.Kind.TheVariants.{Sim};
ghost use Rattle.arrayvec.specs.ArrayVec.{ArrayVec};
ghost use Rattle.event_ports.specs.declared.ports.Port.{Port};
ghost use Rattle.event_ports.specs.Ports.{port_at};
ghost use Rattle.synic_regs.specs.declared.register.Register.TheVariants.{Eom};
ghost use Rattle.synic_regs.specs.Registers.{register_of};
ghost use Rattle.synic_board.specs.declared.event.Event.{Event};
ghost use Rattle.synic_board.specs.declared.event.Event.TheVariants.{Post, Write};
ghost use Rattle.synic_board.specs.declared.event.Reply.{Reply};
ghost use Rattle.synic_board.specs.declared.event.Reply.TheVariants.{Accepted};
ghost use Rattle.synic_board.specs.Ranges.{HasRanges};
ghost use Rattle.synic_board.specs.State.{State, processors, ports_of};
ghost use Rattle.synic_board.specs.Locations.{Conserves};
ghost use Rattle.synic_board.specs.Sound.{IsSound, HasShape, PayloadFits};
ghost use Rattle.live_pages.specs.declared.access.Access.{Access};
ghost use Rattle.live_pages.specs.Headers.{Slot, Step, are_steps, led_to, is_stuck};
ghost use Rattle.live_pages.specs.Words.{known, header};
ghost use Rattle.live_pages.specs.declared.access.Turn.{Turn};
ghost use Rattle.live_pages.specs.Traces.{IsHistory, accesses, memory};
ghost use Rattle.live_board.specs.Acting.{HasLookedAt, HasProbedAt, IsTimedPaid};
ghost use Rattle.live_board.specs.Hiding.{HidesOnlyWhatWasRefreshed};
ghost use Rattle.live_board.specs.Runs.{Call, AreCalls, IsRunOf, notices_of};
ghost use Rattle.live_board.specs.Refreshing.{IsRefreshed};
ghost use Rattle.live_board.specs.Timers.{is_timer_write};
ghost use Rattle.live_board.specs.Waking.{IsUntouched, LeavesMarked, LeavesNewMarked, LeavesMarkedUnlessOwed, IsLeftMarked, WasMarked, MayFollow};
ghost use Rattle.live_board.specs.Live.{LiveModel, Shadows, IsLive, IsQuietly, IsTimed, IsTicked, IsReset, IsObserved, IsOwnStore, IsStored, has_processor, explained, explained_after};

/// Whatever the host finds in a live page, the events that explain it are stores of words of that
/// page, where the guest sees it. So what is proved of all events of all guests holds of them.
pub fn a_guest_only_stores()
    ensures before { (s : State) (p : ℕ) (k : Kind) (news log : List Access)
        → All (IsOwnStore s p k) (explained s p k news log) }
    ensures after { (s : State) (p : ℕ) (marks log : List Access)
        → All (IsOwnStore s p Sim) (explained_after s p marks log) }
{}

/// An event that accesses no live page is one whose accesses are none.
pub fn an_event_without_accesses_is_live()
    ensures { (old now : LiveModel) (event : Event) (reply : Reply) (notices : List Notice)
        → IsQuietly old event now reply notices → IsLive old event now reply notices }
{}

/// Memory holds what the host knows of a word, unless the guest has stored it since the host's last
/// access to it (`word`). So when the host has stored a slot, the header last, memory holds its image
/// in each word that the guest has not stored since the host did (`slot`): what the guest left there
/// before is in none.
pub fn a_placed_message_is_in_memory()
    ensures word { (turns : List Turn) (w : ℕ) → IsHistory turns → IsUntouched w turns
        → memory turns w ≡ known (accesses turns) w }
    ensures slot { (turns : List Turn) (stores log : List Access) (i : ℕ) (image : ℕ → ℕ) (k : ℕ)
        → IsHistory turns → IsStored i image stores → accesses turns ≡ stores ++ log → k < 32
        → IsUntouched (32 * i + k) turns
        → memory turns (32 * i + k) ≡ image k }
{}

/// Whatever a guest stores meanwhile, an event of a live board conserves the messages: each accepted
/// one is queued, in a slot, consumed or withdrawn, exactly once. The state stays sound.
pub fn an_event_conserves_messages()
    ensures { (old now : LiveModel) (event : Event) (reply : Reply) (notices : List Notice) → IsSound old.board.state
        → PayloadFits event → IsLive old event now reply notices
        → IsSound now.board.state × Conserves old.board.state now.board.state notices }
{}

/// The same for a write of a timer.
pub fn a_timer_write_conserves_messages()
    ensures { (p : ℕ) (old now : LiveModel) (event : Event) (reply : Reply) (owed : Bool) (notices : List Notice)
        → IsSound old.board.state → PayloadFits event → IsTimed p old event now reply owed notices
        → IsSound now.board.state × Conserves old.board.state now.board.state notices }
{}

/// The same for a tick.
pub fn a_tick_conserves_messages()
    ensures { (old now : LiveModel) (moment : ℕ) (reply : Reply) (owed : ℕ) (notices : List Notice)
        → IsSound old.board.state → IsTicked old moment now reply owed notices
        → IsSound now.board.state × Conserves old.board.state now.board.state notices }
{}

/// The same for a reset.
pub fn a_reset_conserves_messages()
    ensures { (p : ℕ) (old now : LiveModel) (reply : Reply) (notices : List Notice) → IsSound old.board.state
        → IsReset p old now reply notices → IsSound now.board.state
        × Conserves old.board.state now.board.state notices }
{}

/// The same for a look at the slots of a processor.
pub fn a_look_conserves_messages()
    ensures { (p : ℕ) (old now : LiveModel) (notices : List Notice) → IsSound old.board.state
        → IsObserved p old now notices → IsSound now.board.state × Conserves old.board.state now.board.state notices }
{}

/// A look at the slots of a processor changes own pages and the tickets in slots, and nothing else:
/// whatever a guest stored there, it changed no register, queue, port or timer, no interrupt request
/// and not the next ticket.
pub fn a_look_changes_only_pages()
    ensures { (p : ℕ) (old now : LiveModel) (notices : List Notice) → IsObserved p old now notices
        → now.board.state ≡ record old.board.state { own = now.board.state.own; slots = now.board.state.slots } }
{}

/// The same for all words of both pages of a processor.
pub fn a_refresh_conserves_messages()
    ensures { (p : ℕ) (old now : LiveModel) (notices : List Notice) → IsSound old.board.state
        → IsRefreshed p old now notices → IsSound now.board.state × Conserves old.board.state now.board.state notices }
{}

/// All words of both pages of a processor change own pages and the tickets in slots, and nothing else.
pub fn a_refresh_changes_only_pages()
    ensures { (p : ℕ) (old now : LiveModel) (notices : List Notice) → IsRefreshed p old now notices
        → now.board.state ≡ record old.board.state { own = now.board.state.own; slots = now.board.state.slots } }
{}

/// A write of SIMP or SIEFP hides no live page but those that it refreshes first: what the guest sees of other
/// overlays stays.
pub fn a_write_hides_only_what_was_refreshed()
    ensures { HidesOnlyWhatWasRefreshed }
{}

/// A whole run: whatever calls of `perform` a host makes, and whatever a guest stores meanwhile, they are a
/// run of the reference model on the events of these calls, in their order and each once, with stores of
/// words by the guest in between: the same state, replies and notices.
pub fn a_run_of_calls_is_one_of_the_model()
    ensures { (calls : List Call) (old now : LiveModel) → AreCalls old calls now
        → IsRunOf calls old.board.state now.board.state }
{}

/// A whole run conserves the messages: each one that was accepted in it is queued, in a slot, consumed or
/// withdrawn, exactly once.
pub fn a_run_of_calls_conserves_messages()
    ensures { (calls : List Call) (old now : LiveModel) → IsSound old.board.state
        → All (λ (c : Call). PayloadFits c.event) calls → AreCalls old calls now
        → IsSound now.board.state × Conserves old.board.state now.board.state (notices_of calls) }
{}

/// A message that stays queued after a call, with the SynIC and its message page enabled, is one that
/// the guest asks for, if it sees the page: in this call the host accesses the header of the slot, and
/// the last access finds or leaves it occupied and with MessagePending. So it is after a post for the
/// port's source, and after an EOM for each source of the processor (`post`, `eom`); after a write of
/// a timer or a tick for each source where other messages wait than before, or the processor is owed
/// an EOM (`timer`, `tick`); and after the write of a timer with this EOM without that exception
/// (`paid`). Memory has such a header after that access, and only others than the host
/// write it later (`memory`). So a guest that empties the slot does it later, and finds MessagePending
/// after its barrier: no steps of the protocol lead from there to a missed wake-up (`protocol`).
pub fn a_waiting_message_is_marked()
    ensures post { (old now : LiveModel) (port kind ticket : ℕ) (payload : ArrayVec ℕ) (target : Port)
        (notices : List Notice) → IsSound old.board.state → length payload.items ≤ 240 → HasShape now.board.state
        → HasRanges now.board.state → Shadows now.board.state now.pages
        → IsLive old (Post port kind payload) now (Accepted ticket) notices → HasLookedAt port old now
        → port_at (ports_of old.board.state) port ≡ Some target → LeavesMarked target.vp target.sint old now }
    ensures eom { (old now : LiveModel) (p i number value : ℕ) (reply : Reply) (notices : List Notice)
        → IsSound old.board.state → HasShape now.board.state → HasRanges now.board.state
        → Shadows now.board.state now.pages
        → p < processors old.board.state → i < 16 → register_of number ≡ Some Eom
        → IsLive old (Write p number value) now reply notices → HasProbedAt p old now → LeavesMarked p i old now }
    ensures timer { (old now : LiveModel) (p i number value : ℕ) (reply : Reply) (owed : Bool) (notices : List Notice)
        → IsSound old.board.state → HasShape now.board.state → HasRanges now.board.state
        → Shadows now.board.state now.pages
        → p < processors old.board.state → i < 16 → is_timer_write (Write p number value) ≡ true
        → IsTimed p old (Write p number value) now reply owed notices → LeavesMarkedUnlessOwed p i old now owed }
    ensures paid { (old now : LiveModel) (p i number value : ℕ) (reply : Reply) (owed : ℕ) (notices : List Notice)
        → IsSound old.board.state → HasShape now.board.state → HasRanges now.board.state
        → Shadows now.board.state now.pages
        → p < processors old.board.state → i < 16 → is_timer_write (Write p number value) ≡ true
        → IsTimedPaid p old (Write p number value) now reply owed notices → LeavesNewMarked p i old now }
    ensures tick { (old now : LiveModel) (p i moment : ℕ) (reply : Reply) (owed : ℕ)
        (notices : List Notice) → IsSound old.board.state → HasShape now.board.state → HasRanges now.board.state
        → Shadows now.board.state now.pages
        → p < processors old.board.state → i < 16 → IsTicked old moment now reply owed notices
        → LeavesMarkedUnlessOwed p i old now (has_processor owed p) }
    ensures memory { (i : ℕ) (log now : List Access) (turns : List Turn) → IsLeftMarked i log now → IsHistory turns
        → accesses turns ≡ now → WasMarked i log turns }
    ensures protocol { (i : ℕ) (log now : List Access) (s : Slot) (steps : List Step) → IsLeftMarked i log now
        → MayFollow (known now (header i)) s → are_steps s steps ≡ true → is_stuck (led_to s steps) ≡ false }
{}
