//! Late invalidations and the copies that they reach.
ghost use Rattle.std.specs.Prelude.{◌≡◌, ◌≤◌, ◌&&◌, true, ℕ, ◌∷◌, [], List, length};
ghost use Rattle.axp_laws.specs.Runs.{Run};
ghost use Rattle.axp_base.specs.declared.lines.Bank.{Bank};
ghost use Rattle.axp_base.specs.declared.limits.TheConstants.{BANK_COPIES};
ghost use Rattle.axp_access.specs.declared.Record.{Record};
ghost use Rattle.axp_base.specs.Lines.{in_bank};
ghost use Rattle.axp_laws.specs.Counts.{last_other};
ghost use Rattle.axp_model.specs.Entries.{buffer};
ghost use Rattle.axp_model.specs.Late.{code_copies, code_held, copies, held, late};
ghost use Rattle.axp_laws.specs.LateLaws.{AreTurns, HasJustFenced, IsCounted, IsReached};
ghost use Rattle.axp_laws.specs.LateLaws.{ListsExactly};
ghost use Rattle.axp_model.specs.Turns.{stamp};

/// The invalidations that are late for a processor and a data bank are the turns that other
/// processors made on the bank's lines since the processor's last MB or IMB, in turn order, without
/// as many of the first as it took from that bank since then; it never took more than there were.
pub fn late_by_counting()
    ensures { (h : List Record) → Run h → (p : ℕ) (b : Bank) → IsCounted p b h }
{}

/// Each invalidation that is late for a processor and a data bank is a turn of another processor on
/// a line of the bank. None is above the turn count, and they stand in turn order.
pub fn late_pairs_are_turns()
    ensures { (p : ℕ) (b : Bank) (h : List Record) → AreTurns p b h }
{}

/// A copy that a processor holds and that is older than a turn of another processor on its line
/// has an invalidation late that reaches it. Just after an MB or IMB of a processor nothing is late
/// for it, none of its writes waits, and no copy that it holds is older than such a turn.
pub fn held_copies()
    ensures reached { (h : List Record) → Run h → (p l : ℕ) → IsReached p l h }
    ensures none_late { (p : ℕ) (b : Bank) (r : Record) (h : List Record)
        → HasJustFenced p r → late p b (r ∷ h) ≡ [] }
    ensures none_waits { (r : Record) (h : List Record) → Run (r ∷ h) → (p : ℕ)
        → HasJustFenced p r → (buffer p (r ∷ h)).waiting ≡ [] }
    ensures none_older { (r : Record) (h : List Record) → Run (r ∷ h) → (p l : ℕ)
        → HasJustFenced p r → held p l (r ∷ h) ≡ true
        → last_other p l (r ∷ h) ≤ stamp p l (r ∷ h) }
{}

/// The copies of a data bank are listed exactly as the lines of the bank that the processor holds,
/// in ascending order, each once; those of the code bank likewise. A bank never has more than it
/// has room for.
pub fn copies_are_held_lines()
    ensures in_data { (p : ℕ) (b : Bank) (h : List Record)
        → ListsExactly (λ l. in_bank b l && held p l h) (copies p b h) }
    ensures in_code { (p : ℕ) (h : List Record)
        → ListsExactly (λ l. code_held p l h) (code_copies p h) }
    ensures data_fits { (h : List Record) → Run h → (p : ℕ) (b : Bank)
        → length (copies p b h) ≤ BANK_COPIES }
    ensures code_fits { (h : List Record) → Run h → (p : ℕ)
        → length (code_copies p h) ≤ BANK_COPIES }
{}
