//! A seeded run comes to its end, proved as the contract of a function that does nothing.
ghost use Rattle.std.specs.Prelude.{ℕ, ◌≡◌, ◌*◌, ◌≤◌, true};
ghost use Rattle.axp_base.specs.declared.processors.TheConstants.{MAX_CPUS};
ghost use Rattle.axp_image.specs.Contents.{Contents, IsValid};
ghost use Rattle.axp_machine.specs.Runs.{IsRun, is_complete};
ghost use Rattle.axp_seed.specs.Seeds.{seeded_after, seeded_start};
ghost use Rattle.axp_world.specs.declared.lengths.TheConstants.{EVENTS_PER_STEP};

/// After so many events as a history has at most, the run of any seed is complete, whichever words
/// chose: every processor is finished, and no write waits. Its records are a run over the same
/// image, by as many processors with the same budget.
pub fn seeded_runs_end_complete()
    ensures complete { (image : Contents) (cpus budget seed : ℕ) → IsValid image
        → cpus ≤ MAX_CPUS
        → is_complete (seeded_after (EVENTS_PER_STEP * cpus * budget)
        (seeded_start image cpus budget seed)).machine ≡ true }
    ensures run { (image : Contents) (cpus budget seed : ℕ) → IsValid image → cpus ≤ MAX_CPUS
        → IsRun (seeded_after (EVENTS_PER_STEP * cpus * budget)
        (seeded_start image cpus budget seed)).machine }
    ensures over { (image : Contents) (cpus budget seed : ℕ) → IsValid image → cpus ≤ MAX_CPUS
        → let m = (seeded_after (EVENTS_PER_STEP * cpus * budget)
        (seeded_start image cpus budget seed)).machine in
        (m.image ≡ image) × (m.cpus ≡ cpus) × (m.budget ≡ budget) }
{}
