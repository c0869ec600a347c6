// Theorems about the definitions.
ghost use Rattle.std.specs.Prelude.{◌≡◌, ℕ, Bool, true, None};
ghost use Rattle.lapic_core.specs.Apic.{Apic, next, request, with_task_priority, with_suspension, after_end, is_no_end_required};

/// If no EOI is required (TLFS, "EOI Assist"), the processor has no next vector, and had none after the
/// end of the vector in service (`quiet`). That end may come later than the guest makes it, after any requests,
/// writes of the task priority and suspensions, with the same state (`request`, `priority`, `suspension`). So a
/// hypervisor may perform it when it next asks which vector is next.
pub fn an_end_may_wait()
    ensures quiet { (a : Apic) → is_no_end_required a ≡ true → (next a ≡ None) × (next (after_end a) ≡ None) }
    ensures request { (a : Apic) (v : ℕ) → after_end (request a v) ≡ request (after_end a) v }
    ensures priority { (a : Apic) (value : ℕ)
        → after_end (with_task_priority a value) ≡ with_task_priority (after_end a) value }
    ensures suspension { (a : Apic) (mark : Bool)
        → after_end (with_suspension a mark) ≡ with_suspension (after_end a) mark }
{}
