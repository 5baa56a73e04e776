//! Interrupts.
ghost use Rattle.std.specs.Prelude.{ℕ, Bool, true, Contains, List, ◌∷◌, ◌++◌, ◌≡◌, ◌↔◌, ◌&&◌};
ghost use Rattle.axp_laws.specs.Runs.{Run};
ghost use Rattle.axp_access.specs.declared.Event.{Event};
ghost use Rattle.axp_access.specs.declared.Record.{Record};
ghost use Rattle.axp_base.specs.Cpus.{cpu_number};
ghost use Rattle.axp_access.specs.Order.{before};
ghost use Rattle.axp_access.specs.Numbering.{NumberedAccess};
ghost use Rattle.axp_model.specs.Accesses.{accesses, times};
ghost use Rattle.axp_model.specs.Interrupts.{TakesInterrupt, is_interrupt};
ghost use Rattle.axp_model.specs.Polls.{IsAwaited, poll_item, polled};
ghost use Rattle.axp_laws.specs.PollLaws.{is_signal_or_poll};

/// A Poll of a run shows a signal exactly where one to its processor is BEFORE it and no Poll of
/// the processor that entered stands between the two. It stays so whatever comes later, since later
/// records leave the order of signals and Polls as it is. A Poll enters exactly where it shows a
/// signal and the processor's interrupt level is low.
pub fn poll_rule()
    ensures pending { (later : List Record) (e : Event) (pending entered : Bool) (turn : ℕ)
        (h : List Record)
        → Run (later ++ polled e pending entered turn ∷ h) → (pending ≡ true)
        ↔ IsAwaited (later ++ polled e pending entered turn ∷ h) (poll_item e pending turn h) }
    ensures access { (e : Event) (pending entered : Bool) (turn : ℕ) (h : List Record)
        → accesses (polled e pending entered turn ∷ h) ≡ poll_item e pending turn h ∷ accesses h }
    ensures stays { (later h : List Record) → Run h → (u v : NumberedAccess)
        → Contains (accesses h) u → is_signal_or_poll u ≡ true
        → Contains (accesses h) v → is_signal_or_poll v ≡ true
        → before (times (later ++ h)) u v ≡ before (times h) u v }
    ensures entered { (e : Event) (pending entered : Bool) (turn : ℕ) (h : List Record)
        (run : Run (polled e pending entered turn ∷ h))
        → entered ≡ (pending && (run.processors.intent (cpu_number e.cpu) h).takes_interrupts) }
{}

/// No interrupt falls inside an instruction, a PAL call or an entry: where a Tick is made, or a
/// Poll enters, the processor stands between two groups of accesses, is not finished, and its
/// interrupt level is below 5.
pub fn interrupts_fall_between_groups()
    ensures { (later : List Record) (r : Record) (h : List Record) (run : Run (later ++ r ∷ h))
        → is_interrupt r ≡ true
        → TakesInterrupt (run.processors.intent (cpu_number r.event.cpu) h) }
{}
