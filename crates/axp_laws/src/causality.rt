//! No value of a run has itself as a cause.
ghost use Rattle.std.specs.Prelude.{ℕ, List, ◌<◌};
ghost use Rattle.axp_laws.specs.Runs.{Run};
ghost use Rattle.axp_access.specs.declared.Record.{Record};
ghost use Rattle.axp_model.specs.Causality.{IsChain, IsSourceOf, MayGoInto, value_moment};
ghost use Rattle.axp_access.specs.Numbering.{NumberedAccess};

/// In every run a memory write that gives a read or fetch a byte had its value before the read or
/// fetch had its own; a read or fetch had its value before each memory write that its processor
/// makes later; so no chain of accesses, each the source of the next or a read or fetch before the
/// next, leads from an access back to itself.
pub fn no_causal_loop()
    ensures source { (h : List Record) → Run h → (u v : NumberedAccess)
        → IsSourceOf h u v → value_moment u < value_moment v }
    ensures write { (u v : NumberedAccess) → MayGoInto u v → value_moment u < value_moment v }
    ensures loops { (h : List Record) → Run h
        → (u : NumberedAccess) (via : List NumberedAccess) → IsChain h u via u → ⊥ }
{}
