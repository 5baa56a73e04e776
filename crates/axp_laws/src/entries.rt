//! Entries of write buffers, write barriers and drains.
ghost use Rattle.std.specs.Prelude.{ℕ, true, Contains, List, [], ◌∷◌, ◌++◌, None, length, map};
ghost use Rattle.std.specs.Prelude.{filter_map, slice_get, Some, is_some, ◌≡◌, ◌<◌, ◌≤◌, ◌+◌, ◌↔◌};
ghost use Rattle.std.specs.Prelude.{◌≢◌, ◌⊎◌, ◌&&◌, ◌||◌};
ghost use Rattle.axp_laws.specs.Runs.{Run};
ghost use Rattle.axp_access.specs.declared.Record.{Record};
ghost use Rattle.axp_access.specs.declared.entry_states.EntryState.TheVariants.{Drained};
ghost use Rattle.axp_access.specs.declared.entry_states.EntryState.TheVariants.{Waiting as Waits};
ghost use Rattle.axp_base.specs.Cpus.{cpu_number};
ghost use Rattle.axp_base.specs.Lines.{line_number};
ghost use Rattle.axp_model.specs.Entries.{Waiting, buffer, has_number, oldest};
ghost use Rattle.axp_model.specs.EntryStates.{entry_state, is_written, writes_entry};
ghost use Rattle.axp_model.specs.Records.{drains};
ghost use Rattle.axp_laws.specs.EntryLaws.{ArePartedWrites, IsBehind, IsOldestInFront, IsParted};
ghost use Rattle.axp_laws.specs.EntryLaws.{IsNumbered, IsUndrained, WasDrained, WasMade};
ghost use Rattle.axp_laws.specs.EntryLaws.{access_of};
ghost use Rattle.axp_laws.specs.EntryLaws.{shows_access, write_barriers};
ghost use Rattle.axp_model.specs.Issue.{barrier_demands};
ghost use Rattle.axp_model.specs.Issue.{AllPairs};
ghost use Rattle.axp_access.specs.Numbering.{NumberedAccess, cpu_of, write_barriers_in};
ghost use Rattle.axp_model.specs.Accesses.{accesses};
ghost use Rattle.axp_access.specs.Kinds.{is_write_barrier};
ghost use Rattle.axp_model.specs.Turns.{drained, turns};

/// In every run an entry of a processor's write buffer waits exactly where it was made and no drain
/// has named it. At most one that waits has a number, and it has one line and one age; at most one
/// has a line and an age.
pub fn entries_that_wait()
    ensures waits { (h : List Record) → Run h → (p n : ℕ)
        → (has_number n (buffer p h).waiting ≡ true) ↔ IsUndrained h p n }
    ensures number { (h : List Record) (p : ℕ) (e f : Waiting) → Contains (buffer p h).waiting e
        → Contains (buffer p h).waiting f → e.number ≡ f.number → e ≡ f }
    ensures line_and_age { (h : List Record) → Run h → (p : ℕ) (e f : Waiting)
        → Contains (buffer p h).waiting e → Contains (buffer p h).waiting f
        → line_number e.line ≡ line_number f.line → e.age ≡ f.age → e ≡ f }
{}

/// The age of a processor's write buffer, and of its accesses, is the number of its WMBs so far;
/// that of an entry which waits is the number of them before the plain write that made it.
pub fn ages_are_write_barriers()
    ensures age { (h : List Record) (p : ℕ) → (buffer p h).age ≡ write_barriers p h }
    ensures parts { (h : List Record) → Run h → (p : ℕ)
        → write_barriers_in p (accesses h) ≡ write_barriers p h }
    ensures entry { (h : List Record) → Run h → (p : ℕ) (e : Waiting)
        → Contains (buffer p h).waiting e → WasMade h p e }
{}

/// Of two accesses of one processor the later has more WMBs before it exactly where the earlier is
/// one or an access between the two is one. So a write barrier demands an order of two accesses
/// exactly where both are writes of one processor, the first the earlier, and a WMB of the
/// processor is between them.
pub fn write_barrier_stands_between()
    ensures parts { (h : List Record) (u v : NumberedAccess)
        → Contains (accesses h) u → Contains (accesses h) v
        → cpu_of u ≡ cpu_of v → u.number < v.number
        → (u.parts < v.parts) ↔ ((is_write_barrier u.access.kind ≡ true) ⊎ IsParted h u v) }
    ensures demands { (h : List Record) (u v : NumberedAccess)
        → Contains (accesses h) u → Contains (accesses h) v
        → (barrier_demands u v ≡ true) ↔ ArePartedWrites h u v }
{}

/// The accesses of a history, the newest first, are those that its records show, in their order,
/// and are numbered from their count down to 1. Of a run those records show one which polls or
/// takes a step that makes a wanted access.
pub fn numbers_of_accesses()
    ensures numbers { (h : List Record) (k : ℕ) (u : NumberedAccess)
        → slice_get (accesses h) k ≡ Some u → u.number + k ≡ length (accesses h) }
    ensures accesses { (h : List Record)
        → map (λ u. u.access) (accesses h) ≡ filter_map access_of h }
    ensures shown { (r : Record) (h : List Record) (run : Run (r ∷ h))
        → is_some (access_of r) ≡ shows_access (run.processors.intent (cpu_number r.event.cpu) h)
        r.event.act }
{}

/// The entries of a processor that wait stand by ascending number, and their ages do not descend;
/// so the oldest group is their front, with whatever is of a greater age behind it, and is empty
/// only where none waits.
pub fn oldest_group_is_in_front()
    ensures order { (h : List Record) (p : ℕ) → AllPairs IsBehind (buffer p h).waiting }
    ensures front { (h : List Record) (p : ℕ) → IsOldestInFront (buffer p h).waiting }
    ensures some { (h : List Record) (p : ℕ) → oldest (buffer p h).waiting ≡ []
        → (buffer p h).waiting ≡ [] }
{}

/// In every run a drain gives its entry the next turn, which its record shows, once and for all; no
/// drained entry has a turn above the turn count, and one that is drained later gets a turn above
/// it.
pub fn drained_turns()
    ensures turn { (h : List Record) → Run h → (p n turn : ℕ)
        → (drained h p n ≡ Some turn) ↔ WasDrained h p n turn }
    ensures stays { (later h : List Record) → Run (later ++ h) → (p n turn : ℕ)
        → drained h p n ≡ Some turn → drained (later ++ h) p n ≡ Some turn }
    ensures most { (h : List Record) (p n turn : ℕ) → drained h p n ≡ Some turn → turn ≤ turns h }
    ensures later { (later h : List Record) (p n turn : ℕ)
        → drained h p n ≡ None → drained (later ++ h) p n ≡ Some turn → turns h < turn }
{}

/// In every run an entry waits in its processor's write buffer exactly where that is its state, and
/// it is drained exactly where its drain has a turn; the entries that were written are those
/// numbered from 1 to the number of entries made. A drain names an entry that waits, so a write
/// went into it before and no drain named it; a write goes into no entry that is drained.
pub fn states_of_entries()
    ensures waiting { (h : List Record) → Run h → (p n : ℕ)
        → (entry_state p n h ≡ Waits) ↔ (has_number n (buffer p h).waiting ≡ true) }
    ensures drained { (h : List Record) (p n : ℕ)
        → (entry_state p n h ≡ Drained) ↔ (is_some (drained h p n) ≡ true) }
    ensures written { (h : List Record) → Run h → (p n : ℕ)
        → (is_written p n h ≡ true) ↔ IsNumbered (buffer p h).made n }
    ensures drains { (r : Record) (h : List Record) → Run (r ∷ h) → (n : ℕ)
        → drains n r.outcome ≡ true → entry_state (cpu_number r.event.cpu) n h ≡ Waits }
    ensures writes { (r : Record) (h : List Record) → Run (r ∷ h) → (n : ℕ)
        → writes_entry n r.outcome ≡ true → entry_state (cpu_number r.event.cpu) n h ≢ Drained }
{}
