//! What the parts of a verdict say in the words of the memory model: laws of every list of accesses,
//! each proved as the contract of a function that does nothing.
ghost use Rattle.std.specs.Prelude.{◌≡◌, ◌↔◌, ℕ, true, Contains, List, None, Some};
ghost use Rattle.std.specs.List.{AllByRecursion};
ghost use Rattle.axp_access.specs.declared.Access.{Access};
ghost use Rattle.axp_access.specs.Lists.{Accesses, accesses_in, number_accesses, times_of};
ghost use Rattle.axp_access.specs.Numbering.{NumberedAccess};
ghost use Rattle.axp_access.specs.Order.{Times};
ghost use Rattle.axp_model.specs.Issue.{AllPairs, IsInOrder};
ghost use Rattle.axp_order.specs.Pairs.{breaks_issue, breaks_barrier};
ghost use Rattle.axp_check.specs.Faults.{IsFirstUnlocked, IsFirstWrong, IsLeastPair};
ghost use Rattle.axp_check.specs.Locking.{KeepsLockingIn, locking_fault};
ghost use Rattle.axp_check.specs.Loops.{IsChainIn, is_on_cycle, loop_fault};
ghost use Rattle.axp_check.specs.Storage.{HasSourcesIn, storage_fault};
ghost use Rattle.axp_check.specs.Verdicts.{barrier_fault, issue_fault, verdict};
ghost use Rattle.axp_check.specs.Violations.{IsConsistent, IsViolated};
ghost use Rattle.axp_check.specs.declared.Rule.{Rule};
ghost use Rattle.axp_check.specs.declared.Verdict.TheVariants.{Consistent, Violated};

/// No pair of a list breaks the issue constraint and none a write barrier exactly where of each two
/// accesses the one is BEFORE the other wherever either demands it.
pub fn order_in_words()
    ensures { (t : Times) (us : List NumberedAccess)
        → ((issue_fault t us ≡ None) × (barrier_fault t us ≡ None)) ↔ AllPairs (IsInOrder t) us }
{}

/// A fault of the issue constraint is exactly the least pair of accesses that breaks it, by the second and then
/// by the first; a fault of write barriers likewise.
pub fn order_faults_in_words()
    ensures issue { (t : Times) (xs : List Access) (i j : ℕ)
        → (issue_fault t (number_accesses xs) ≡ Some (i, j))
        ↔ IsLeastPair (breaks_issue t) (number_accesses xs) i j }
    ensures barrier { (t : Times) (xs : List Access) (i j : ℕ)
        → (barrier_fault t (number_accesses xs) ≡ Some (i, j))
        ↔ IsLeastPair (breaks_barrier t) (number_accesses xs) i j }
{}

/// A list has no fault of storage exactly where each read and fetch has each byte of its sources. A
/// fault is exactly the first access with a wrong byte, and the source of the lowest.
pub fn storage_in_words()
    ensures none { (image : ℕ → ℕ) (t : Times) (us : List NumberedAccess)
        → (storage_fault image t us ≡ None) ↔ AllByRecursion (HasSourcesIn image t us) us }
    ensures some { (image : ℕ → ℕ) (t : Times) (xs : List Access) (i j : ℕ)
        → (storage_fault image t (number_accesses xs) ≡ Some (i, j))
        ↔ IsFirstWrong image t (number_accesses xs) i j }
{}

/// A list has no fault of locking exactly where each store-conditional that succeeds is paired with a
/// load-locked, and each memory write of another processor on the line is BEFORE the one or behind the
/// other. A fault is exactly the first store-conditional of which this is not so, and the first write that
/// stands between, or 0 where it is not paired.
pub fn locking_in_words()
    ensures none { (t : Times) (xs : List Access)
        → (locking_fault t (number_accesses xs) ≡ None) ↔ KeepsLockingIn t (number_accesses xs) }
    ensures some { (t : Times) (xs : List Access) (i j : ℕ)
        → (locking_fault t (number_accesses xs) ≡ Some (i, j))
        ↔ IsFirstUnlocked t (number_accesses xs) i j }
{}

/// A list is judged consistent exactly where all rules hold of it. It is judged to violate a rule
/// exactly where the lesser rules hold and the two numbers are those of the first accesses that break
/// this one. The loop rule is named by its fault.
pub fn verdict_in_words()
    ensures consistent { (image : ℕ → ℕ) (list : Accesses)
        → (verdict image list ≡ Consistent)
        ↔ IsConsistent image (times_of list) (accesses_in list) }
    ensures violated { (image : ℕ → ℕ) (list : Accesses) (rule : Rule) (i j : ℕ)
        → (verdict image list ≡ Violated rule i j)
        ↔ IsViolated image (times_of list) (accesses_in list) rule i j }
{}

/// An access may have come from itself exactly where accesses of the list lead from it to itself, each of
/// a value that may have come from the one before it: a source of its bytes, or a read or fetch ahead of
/// a write in issue order. A list has no fault of loops exactly where no access leads to itself so.
pub fn loops_in_words()
    ensures chain { (list : Accesses) (u : NumberedAccess) → Contains (accesses_in list) u
        → (is_on_cycle (times_of list) (accesses_in list) u ≡ true)
        ↔ ((ws : List NumberedAccess) × IsChainIn (times_of list) (accesses_in list) u ws u) }
    ensures none { (list : Accesses) → (loop_fault (times_of list) (accesses_in list) ≡ None)
        ↔ ((u : NumberedAccess) (ws : List NumberedAccess) → Contains (accesses_in list) u
        → IsChainIn (times_of list) (accesses_in list) u ws u → ⊥) }
{}
