//! How far each entry of each write buffer has come, by the lines of a trace so far.
ghost use Rattle.std.specs.Prelude.{◌≡◌, ◌*◌, ◌<◌, ◌≤◌, ◌∷◌, ℕ, List, [], true, length, IfOk};
ghost use Rattle.axp_base.specs.Cpus.{cpu_number};
ghost use Rattle.axp_base.specs.declared.processors.TheConstants.{MAX_BUDGET, MAX_CPUS};
ghost use Rattle.axp_access.specs.declared.Event.{Event};
ghost use Rattle.axp_access.specs.declared.Record.{Record};
ghost use Rattle.axp_model.specs.EntryStates.{entry_state};
ghost use Rattle.axp_history.specs.declared.entries.TheConstants.{ROW};
ghost use Rattle.axp_history.specs.Entries.{is_undrained, is_waiting, names_well};
ghost use Rattle.axp_history.specs.Tables.{FitsTable, IsDrainOf, IsWriteIn, Tells, index_of};

use axp_access::{Cpu, EntryState, Outcome, Place};
use axp_base::{MAX_BUDGET, MAX_CPUS, NoMemory};
use std::alloc::Global;

/// The places of a processor's entries in the table: entry 0, which is none, and those that a line may
/// name.
pub(crate) const ROW: usize = MAX_BUDGET as usize + 1;

/// The table of no line: no entry is written.
pub(crate) fn no_entries(alloc: Global) -> Result<Vec<EntryState>, NoMemory>
    ensures { IfOk result (λ states. Tells [] states.items) }
{
    let mut states = Vec::with_capacity(alloc, MAX_CPUS as usize * ROW)?;
    for _ in 0..MAX_CPUS as usize * ROW {
        states.push_reserved(EntryState::Unwritten);
    }
    Ok(states)
}

/// Where a processor's entry of this number stands.
fn index_of(cpu: Cpu, entry: u32) -> usize
    requires { entry ≤ MAX_BUDGET }
    ensures value { result ≡ index_of (cpu_number cpu) entry }
    ensures within { result < MAX_CPUS * ROW }
{
    usize::from(cpu.number()) * ROW + entry as usize
}

/// Keeps what a line shows of an entry, if it may show it: a write names no entry that a drain named
/// before it, and a drain names one that a write named before it, and no drain.
pub(crate) fn admit(states: &mut Vec<EntryState>, cpu: Cpu, outcome: &Outcome) -> bool
    requires entry { FitsTable outcome.now }
    requires count { length states.old.items ≡ MAX_CPUS * ROW }
    ensures told { (h : List Record) → Tells h states.old.items
        → result ≡ names_well (cpu_number cpu) outcome.now h }
    ensures kept { (h : List Record) (e : Event) → Tells h states.old.items → e.cpu ≡ cpu
        → result ≡ true → Tells (record { event = e; outcome = outcome.now } ∷ h) states.new.items }
{
    match *outcome {
        Outcome::Access(access) => match access.place {
            Place::Entry(n) => write_entry(states, cpu, n),
            Place::At(_) | Place::Absent => true,
        },
        Outcome::Drained { entry, .. } => drain_entry(states, cpu, entry),
        Outcome::NoAccess
        | Outcome::Filled { .. }
        | Outcome::Taken { .. }
        | Outcome::Done
        | Outcome::Polled { .. } => true,
    }
}

/// Keeps that a write names an entry, which no drain named before it.
fn write_entry(states: &mut Vec<EntryState>, cpu: Cpu, entry: u32) -> bool
    requires entry { entry ≤ MAX_BUDGET }
    requires count { length states.old.items ≡ MAX_CPUS * ROW }
    ensures told { (h : List Record) → Tells h states.old.items
        → result ≡ is_undrained (entry_state (cpu_number cpu) entry h) }
    ensures kept { (h : List Record) (r : Record) → Tells h states.old.items
        → IsWriteIn (cpu_number cpu) entry r → result ≡ true → Tells (r ∷ h) states.new.items }
{
    let i = index_of(cpu, entry);
    let undrained = is_undrained(states[i]);
    if undrained {
        states[i] = EntryState::Waiting;
    }
    undrained
}

/// Keeps that a drain names an entry, which waits.
fn drain_entry(states: &mut Vec<EntryState>, cpu: Cpu, entry: u32) -> bool
    requires entry { entry ≤ MAX_BUDGET }
    requires count { length states.old.items ≡ MAX_CPUS * ROW }
    ensures told { (h : List Record) → Tells h states.old.items
        → result ≡ is_waiting (entry_state (cpu_number cpu) entry h) }
    ensures kept { (h : List Record) (r : Record) → Tells h states.old.items
        → IsDrainOf (cpu_number cpu) entry r → result ≡ true → Tells (r ∷ h) states.new.items }
{
    let i = index_of(cpu, entry);
    let waiting = is_waiting(states[i]);
    if waiting {
        states[i] = EntryState::Drained;
    }
    waiting
}

/// Whether no drain named an entry.
pub fn is_undrained(state: EntryState) -> bool
    ensures { result ≡ is_undrained state }
{
    match state {
        EntryState::Unwritten | EntryState::Waiting => true,
        EntryState::Drained => false,
    }
}

/// Whether a write named an entry, and no drain.
pub fn is_waiting(state: EntryState) -> bool
    ensures { result ≡ is_waiting state }
{
    match state {
        EntryState::Waiting => true,
        EntryState::Unwritten | EntryState::Drained => false,
    }
}
