//! Laws of BEFORE, the issue constraint and the write barrier.
ghost use Rattle.std.specs.Prelude.{ℕ, List, true, false, ◌≡◌, ◌≤◌, ◌++◌, ◌∷◌};
ghost use Rattle.std.specs.List.{AllByRecursion};
ghost use Rattle.axp_laws.specs.Runs.{Run};
ghost use Rattle.axp_access.specs.declared.Record.{Record};
ghost use Rattle.axp_model.specs.Turns.{turns, stamp, barrier, code_barrier, code_stamp};
ghost use Rattle.axp_model.specs.Turns.{read_place};
ghost use Rattle.axp_access.specs.Numbering.{NumberedAccess};
ghost use Rattle.axp_access.specs.Order.{Times};
ghost use Rattle.axp_model.specs.Accesses.{times, accesses};
ghost use Rattle.axp_access.specs.Order.{before};
ghost use Rattle.axp_model.specs.Processors.{IsInLine, Processors};
ghost use Rattle.axp_model.specs.Outcomes.{IsRun};
ghost use Rattle.axp_model.specs.Issue.{AllPairs, KeepsOrder};
ghost use Rattle.axp_model.specs.Location.{AreApart, AreComparable, IsLocated, is_placed};
ghost use Rattle.axp_laws.specs.OrderLaws.{StandsBy};

/// BEFORE is a strict total order of the accesses that have a place; to one without a place it
/// says nothing.
pub fn before_is_a_strict_order()
    ensures irreflexive { (t : Times) (u : NumberedAccess) → before t u u ≡ false }
    ensures asymmetric { (t : Times) (u v : NumberedAccess)
        → before t u v ≡ true → before t v u ≡ false }
    ensures transitive { (t : Times) (u v w : NumberedAccess)
        → before t u v ≡ true → before t v w ≡ true → before t u w ≡ true }
    ensures total { (t : Times) (u v : NumberedAccess)
        → is_placed t u ≡ true → is_placed t v ≡ true → AreApart u v → AreComparable t u v }
    ensures placed { (t : Times) (u v : NumberedAccess)
        → before t u v ≡ true → (is_placed t u ≡ true) × (is_placed t v ≡ true) }
{}

/// What a run's records are after fewer of its events is a run too: a law of every run is one of
/// every prefix.
pub fn runs_begin_with_runs()
    ensures { (image : ℕ → ℕ) (ps : Processors) (more h : List Record)
        → IsRun image ps (more ++ h) → IsRun image ps h }
{}

/// Turn counts, stamps and the counts at barriers only grow, and none is above the turn count.
pub fn counts_grow()
    ensures turns { (r : Record) (h : List Record) → turns h ≤ turns (r ∷ h) }
    ensures stamps { (p l : ℕ) (r : Record) (h : List Record) → stamp p l h ≤ stamp p l (r ∷ h) }
    ensures barriers { (p : ℕ) (r : Record) (h : List Record) → barrier p h ≤ barrier p (r ∷ h) }
    ensures code_stamps { (p l : ℕ) (r : Record) (h : List Record)
        → code_stamp p l h ≤ code_stamp p l (r ∷ h) }
    ensures read_places { (p l : ℕ) (r : Record) (h : List Record)
        → read_place p l h ≤ read_place p l (r ∷ h) }
    ensures stamps_bounded { (p l : ℕ) (h : List Record) → stamp p l h ≤ turns h }
    ensures barriers_bounded { (p : ℕ) (h : List Record) → barrier p h ≤ turns h }
    ensures code_stamps_bounded { (p l : ℕ) (h : List Record) → code_stamp p l h ≤ turns h }
{}

/// No access of a run stands above the turn count, but for a write that waits, which is last of
/// all.
pub fn places_are_bounded()
    ensures { (h : List Record) → Run h → AllByRecursion (StandsBy (times h) (turns h))
        (accesses h) }
{}

/// The accesses of a run keep the issue constraint, in all its cases, and the write barrier.
pub fn order_is_kept()
    ensures { (h : List Record) → Run h → KeepsOrder h }
{}

/// Of two accesses of a run that overlap and of which one is a memory write, one is BEFORE the
/// other.
pub fn overlapping_accesses_are_ordered()
    ensures { (h : List Record) → Run h → AllPairs (IsLocated (times h)) (accesses h) }
{}

/// The bytes of each access of a run have addresses, and lie in one aligned quadword and so in one
/// line.
pub fn accesses_lie_in_quadwords()
    ensures { (h : List Record) → Run h
        → AllByRecursion (λ u. IsInLine u.access.address u.access.size) (accesses h) }
{}
