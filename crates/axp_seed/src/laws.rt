//! Laws of seeded runs, each proved as the contract of a function that does nothing.
ghost use Rattle.std.specs.Prelude.{ℕ, ◌≡◌, List, Some, None, true, false};
ghost use Rattle.axp_access.specs.declared.Event.{Event};
ghost use Rattle.axp_access.specs.declared.Record.{Record};
ghost use Rattle.axp_base.specs.Cpus.{cpu_number};
ghost use Rattle.axp_image.specs.Contents.{IsValid};
ghost use Rattle.axp_machine.specs.Runs.{IsRun, is_complete, processors_of};
ghost use Rattle.axp_model.specs.Legal.{is_done, legal};
ghost use Rattle.axp_model.specs.Processors.{Processors};
ghost use Rattle.axp_seed.specs.Seeds.{Seeded, next_record, seeded_after};

/// Every event of a seeded run is legal: a seed never asks for what is refused.
pub fn seeded_events_are_legal()
    ensures { (s : Seeded) (r : Record) → IsValid s.machine.image → IsRun s.machine
        → next_record s ≡ Some r
        → legal (processors_of s.machine) s.machine.records r.event ≡ true }
{}

/// A run that is complete has no next event, and stays as it is.
pub fn complete_runs_stay()
    ensures none { (s : Seeded) → is_complete s.machine ≡ true → next_record s ≡ None }
    ensures stays { (n : ℕ) (s : Seeded) → is_complete s.machine ≡ true → seeded_after n s ≡ s }
{}

/// A processor that is done has no legal event: so those whose turn a seed passes by have none.
pub fn done_processors_have_no_event()
    ensures { (ps : Processors) (h : List Record) (e : Event) → is_done ps h (cpu_number e.cpu) ≡ true
        → legal ps h e ≡ false }
{}
