//! Laws of queues, each proved as the contract of a function that does nothing.
ghost use Rattle.std.specs.Prelude.{ℕ, ◌≡◌, ◌+◌, ◌↔◌, [], ◌∷◌, ◌++◌, IsTrue, List, length};
ghost use Rattle.axp_base.specs.declared.lines.Line.{Line};
ghost use Rattle.axp_base.specs.LatePairs.{Later, has_later};
ghost use Rattle.axp_inval.specs.Steps.{InOrderOfAdding, takes};

/// Something is late for a line after a stamp exactly where a pair of that line with a greater turn
/// is kept.
pub fn later_is_a_kept_pair()
    ensures { (line stamp : ℕ) (pairs : List (Line × ℕ))
        → IsTrue (has_later line stamp pairs) ↔ Later line stamp pairs }
{}

/// Pairs are taken in the order in which they were added, and the pair that was added last is taken
/// last.
pub fn taken_in_order_of_adding()
    ensures order { InOrderOfAdding }
    ensures last { (pairs : List (Line × ℕ)) (p : Line × ℕ)
        → takes (length pairs + 1) (pairs ++ p ∷ []) ≡ pairs ++ p ∷ [] }
{}
