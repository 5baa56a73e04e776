//! Laws of runs, each proved as the contract of a function that does nothing.
ghost use Rattle.std.specs.List.{All, Contains};
ghost use Rattle.std.specs.Prelude.{ℕ, List, ◌≡◌, ◌++◌, ◌≤◌};
ghost use Rattle.axp_access.specs.declared.Event.{Event};
ghost use Rattle.axp_access.specs.declared.Record.{Record};
ghost use Rattle.axp_access.specs.declared.tail_items.TailItem.{TailItem};
ghost use Rattle.axp_base.specs.declared.processors.TheConstants.{MAX_CPUS};
ghost use Rattle.axp_image.specs.Contents.{Contents, IsValid};
ghost use Rattle.axp_model.specs.Outcomes as model;
ghost use Rattle.axp_machine.specs.Constraints.{KeepsConstraints};
ghost use Rattle.axp_machine.specs.Runs.{Seen, IsRun, events_of, processors_of, run, started};
ghost use Rattle.axp_machine.specs.TailOrder.{AreAscending, IsLeft};
ghost use Rattle.axp_machine.specs.Tails.{tail_items};
ghost use Rattle.axp_world.specs.Worlds.{IsPlayed, image_bytes};

/// A machine's records are the run of their own events: the same events, in the same order, bring a
/// machine at the start to the same records. Every list of events makes such a run, and over a
/// valid image each such run is one of the memory model.
pub fn records_are_a_run()
    ensures again { (m : Seen) → IsRun m
        → run (started m.image m.cpus m.budget) (events_of m.records) ≡ m }
    ensures from_start { (image : Contents) (cpus budget : ℕ) (events : List Event)
        → IsRun (run (started image cpus budget) events) }
    ensures model { (m : Seen) → IsValid m.image → IsRun m
        → model.IsRun (image_bytes m.image) (processors_of m) m.records }
{}

/// Every run over a valid image keeps the constraints of Alpha's shared memory, in the order of the
/// printed places: it is a run of the memory model, so its accesses satisfy the issue, location,
/// visibility, storage and locking constraints and have no causal loop. A run after fewer of its
/// events is a run, so the same holds at every prefix.
pub fn runs_keep_the_constraints()
    ensures prefix { (image : Contents) (cpus budget : ℕ) (more h : List Record)
        → IsPlayed image cpus budget (more ++ h) → IsPlayed image cpus budget h }
    ensures constraints { (m : Seen) → IsValid m.image → IsRun m → KeepsConstraints m }
{}

/// A tail tells all that is left, nothing else, and each thing once: how each processor ended, its
/// registers that are not 0, the quadwords that were written, the console and the number of events,
/// in this order, and by ascending processors, registers and addresses.
pub fn tails_tell_what_is_left()
    ensures told { (m : Seen) (item : TailItem) → IsLeft m item → Contains (tail_items m) item }
    ensures left { (m : Seen) → m.cpus ≤ MAX_CPUS → All (IsLeft m) (tail_items m) }
    ensures ascending { (m : Seen) → m.cpus ≤ MAX_CPUS → AreAscending (tail_items m) }
{}
