//! Laws of the summary, each proved as the contract of a function that does nothing.
ghost use Rattle.std.specs.Prelude.{ℕ, ◌≡◌, length};
ghost use Rattle.axp_gen.specs.declared.shapes.Shape.TheVariants.{Dl, Dm, Lock, Sb};
ghost use Rattle.axp_gen.specs.Shapes.{shape_of};
ghost use Rattle.axp_summary.specs.Labels.{labels_of};
ghost use Rattle.axp_summary.specs.Rounds.{IsWholeRun, budget_of, end_of_round, rounds_of};
ghost use Rattle.axp_summary.specs.Summaries.{Summary, count_of_each, summary_of};
ghost use Rattle.axp_summary.specs.declared.rounds.TheConstants.{CPUS};

/// Every round has one label of its litmus test: the counts of all labels make up the number of
/// rounds.
pub fn counts_are_of_all_rounds()
    ensures each { (number : ℕ) → let s = summary_of number in
        count_of_each (labels_of s.shape) s.labels ≡ length s.labels }
    ensures rounds { (number : ℕ) → let s = summary_of number in length s.labels ≡ rounds_of s.shape }
{}

/// At the end of every round of a number two processors ran its litmus test to the end, and the
/// records keep the constraints of shared memory.
pub fn rounds_are_whole_runs()
    ensures { (number round : ℕ) → IsWholeRun (shape_of number) (end_of_round number round) }
{}

/// The numbers of a summary: two processors; 1,024 rounds of 64 steps for each, and of the spin lock
/// 64 rounds of 4,000 steps.
pub fn rounds_are_these()
    ensures cpus { CPUS ≡ 2 }
    ensures rounds { (rounds_of Sb ≡ 1024) × (rounds_of Dl ≡ 1024) × (rounds_of Dm ≡ 1024) }
    ensures lock_rounds { rounds_of Lock ≡ 64 }
    ensures budget { (budget_of Sb ≡ 64) × (budget_of Dl ≡ 64) × (budget_of Dm ≡ 64) }
    ensures lock_budget { budget_of Lock ≡ 4000 }
{}
