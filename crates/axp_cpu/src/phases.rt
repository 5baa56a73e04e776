//! How far a group of accesses has come.
ghost use Rattle.std.specs.Prelude.{◌≡◌, ◌%◌, ◌^◌, ℕ};
ghost use Rattle.axp_cpu.specs.Phases.{after, continued, counted_for, plan_of, settled};
ghost use Rattle.axp_cpu.specs.Phases.{ContinuationFits, PhaseFits, StageFits};
ghost use Rattle.axp_cpu.specs.Rows.{group, instruction_plan};

use crate::calls::call;
use crate::cpu_states::CpuState;
use crate::endings::Ending;
use crate::frames::{begin_entry, save};
use crate::rows::instruct;
use crate::translation::Origin;
use crate::values::Values;
use crate::walks::{Walk, follow, keep_found, reach};
use axp_access::Wanted;
use axp_base::sext;
use axp_decode::{PalOp, decode};
use axp_image::INSTRUCTION_BYTES;
use axp_regs::{Ask, Kind};
use axp_trap::Cause;

/// What a group does with the value that the access of its instruction gives.
#[derive(Clone, Copy, Debug)]
pub enum Continuation {
    /// Does the instruction that was fetched.
    Instruct,
    /// Writes it to a register.
    Load { a: u8 },
    /// Writes the longword to a register, sign-extended.
    LoadLong { a: u8 },
    /// Writes it to a register, and sets the lock flag.
    LoadLocked { a: u8 },
    /// Writes the longword to a register, sign-extended, and sets the lock flag.
    LoadLockedLong { a: u8 },
    /// Writes to a register whether it stored, and clears the lock flag.
    StoreConditional { a: u8 },
    /// Ends.
    Finish,
    /// Goes on to save the frame of an entry, of which so many words are left.
    Save { cause: Cause, left: u8 },
    /// Goes on with a PAL call, of whose accesses so many are left; those before gave these values.
    Call { op: PalOp, values: Values, left: u8 },
}

/// What a group does with the value of the access that it wants.
#[derive(Clone, Copy, Debug)]
pub enum Stage {
    /// The access is the read of a page-table entry.
    Walks(Walk),
    /// The access is that of an instruction.
    Continues(Continuation),
}

/// How far a group has come.
#[derive(Clone, Copy, Debug)]
pub enum Phase {
    /// It wants an access, and does this with its value.
    Wants(Wanted, Stage),
    /// It ends, with this change.
    Ends(Ending),
}

/// The group that begins at a table state: an entry that is to be made, or else the fetch of the
/// instruction at the program counter.
#[tactic(auto, unfolding(crate::specs::Rows::group))]
pub fn begin(size: u64, cpus: u8, table: &CpuState) -> Phase
    ensures plan { plan_of size cpus table.now result ≡ group size cpus table.now }
    ensures fits { PhaseFits cpus table.now result }
{
    match table.pending {
        None => begin_instruction(size, table),
        Some(cause) => begin_entry(size, table, cause),
    }
}

/// The fetch of the instruction at the program counter.
fn begin_instruction(size: u64, table: &CpuState) -> Phase
    ensures plan { (cpus : ℕ) → plan_of size cpus table.now result
        ≡ instruction_plan size cpus table.now }
    ensures fits { (cpus : ℕ) → PhaseFits cpus table.now result }
{
    let fetch = Ask {
        kind: Kind::Fetch,
        address: table.state.pc(),
        direct: false,
        size: INSTRUCTION_BYTES as u8,
        value: 0,
    };
    reach(
        size,
        table,
        Origin::Instruction,
        fetch,
        Continuation::Instruct,
    )
}

/// What is left of a group once its wanted access gave this value. A fetch is counted in the table
/// state and the translation that a walk found is kept there; all else changes with the group's
/// end.
pub fn resume(size: u64, cpus: u8, table: &mut CpuState, stage: Stage, value: u64) -> Phase
    requires { StageFits cpus table.old stage }
    ensures plan { plan_of size cpus table.new result ≡ after size cpus table.old stage value }
    ensures fits { PhaseFits cpus table.new result }
    ensures table { table.new ≡ settled stage value table.old }
{
    match stage {
        Stage::Walks(walk) => {
            let phase = follow(size, table, walk, value);
            keep_found(table, &walk, value);
            phase
        }
        Stage::Continues(next) => proceed(size, cpus, table, next, value),
    }
}

/// What is left of a group once the access of its instruction or entry gave this value.
fn proceed(size: u64, cpus: u8, table: &mut CpuState, next: Continuation, value: u64) -> Phase
    requires { ContinuationFits cpus table.old.state next }
    ensures plan { plan_of size cpus table.new result ≡ continued size cpus next table.old value }
    ensures fits { PhaseFits cpus table.new result }
    ensures table { table.new ≡ counted_for next table.old }
{
    match next {
        Continuation::Instruct => {
            table.count_fetch();
            instruct(size, cpus, table, decode(low_word(value)))
        }
        Continuation::Load { a } => Phase::Ends(Ending::Writes { n: a, value }),
        Continuation::LoadLong { a } => Phase::Ends(Ending::Writes {
            n: a,
            value: sext(value, 32),
        }),
        Continuation::LoadLocked { a } => Phase::Ends(Ending::Locks { n: a, value }),
        Continuation::LoadLockedLong { a } => Phase::Ends(Ending::Locks {
            n: a,
            value: sext(value, 32),
        }),
        Continuation::StoreConditional { a } => Phase::Ends(Ending::Unlocks { n: a, value }),
        Continuation::Finish => Phase::Ends(Ending::Next),
        Continuation::Save { cause, left } => save(size, table, cause, left),
        Continuation::Call { op, values, left } => {
            call(size, cpus, table, op, values.with(value), left)
        }
    }
}

/// The word that a fetch gave.
pub(crate) fn low_word(value: u64) -> u32
    ensures { result ≡ value % 2 ^ 32 }
{
    (value & 0xFFFF_FFFF) as u32
}
