//! How long a history may be.
ghost use Rattle.std.specs.Prelude.{ℕ, List, length, ◌*◌, ◌≡◌, ◌≤◌};
ghost use Rattle.axp_base.specs.declared.processors.TheConstants.{MAX_CPUS};
ghost use Rattle.axp_access.specs.declared.Record.{Record};
ghost use Rattle.axp_image.specs.Contents.{Contents};
ghost use Rattle.axp_line.specs.BusCalls.{turns};
ghost use Rattle.axp_world.specs.Lengths.{events_per_step, steps_in, steps_of};
ghost use Rattle.axp_world.specs.Worlds.{IsPlayed, world};
ghost use Rattle.axp_world.specs.declared.lengths.TheConstants.{EVENTS_PER_STEP};

/// The most events of a history for each step that one of its processors may make: one Step, one
/// Fill, three Drops, one Poll, one Tick, one Drain and seven Takes.
pub const EVENTS_PER_STEP: u32 = 15;

/// Each processor makes as many Steps as its budget has at most, turns are no more than Steps, and
/// the events of the whole history are at most [`EVENTS_PER_STEP`] for each step of the budgets.
pub fn length_of_a_history()
    ensures constant { EVENTS_PER_STEP ≡ events_per_step MAX_CPUS }
    ensures steps { (image : Contents) (cpus budget : ℕ) (h : List Record)
        → IsPlayed image cpus budget h → (p : ℕ)
        → ((world image cpus budget h).actors p).seat.steps ≡ steps_of p h }
    ensures budget { (image : Contents) (cpus budget : ℕ) (h : List Record)
        → IsPlayed image cpus budget h → (p : ℕ) → steps_of p h ≤ budget }
    ensures budgets { (image : Contents) (cpus budget : ℕ) (h : List Record)
        → IsPlayed image cpus budget h → steps_in h ≤ cpus * budget }
    ensures turns { (image : Contents) (cpus budget : ℕ) (h : List Record)
        → IsPlayed image cpus budget h → turns (world image cpus budget h).calls ≤ steps_in h }
    ensures events { (image : Contents) (cpus budget : ℕ) (h : List Record)
        → IsPlayed image cpus budget h → length h ≤ events_per_step cpus * (cpus * budget) }
    ensures length { (image : Contents) (cpus budget : ℕ) (h : List Record)
        → cpus ≤ MAX_CPUS → IsPlayed image cpus budget h
        → length h ≤ EVENTS_PER_STEP * cpus * budget }
{}
