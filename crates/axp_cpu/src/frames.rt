//! Entries to the operating system: the writes of a frame, one after the other.
ghost use Rattle.std.specs.Prelude.{◌≡◌, ℕ};
ghost use Rattle.axp_cpu.specs.Phases.{plan_of, PhaseFits};
ghost use Rattle.axp_cpu.specs.Rows.{entry_group, saves_plan};

use crate::cpu_states::CpuState;
use crate::endings::Ending;
use crate::phases::{Continuation, Phase};
use crate::walks::{ask_at, reach_ask};
use axp_trap::{Cause, frame};

/// An entry that is raised: its whole frame is to be written.
pub fn begin_entry(size: u64, table: &CpuState, cause: Cause) -> Phase
    ensures plan { (cpus : ℕ) → plan_of size cpus table.now result
        ≡ entry_group size table.now cause }
    ensures fits { (cpus : ℕ) → PhaseFits cpus table.now result }
{
    save(
        size,
        table,
        cause,
        frame(cause, &table.state).as_slice().len() as u8,
    )
}

/// An entry of whose frame so many words are left to be written.
pub fn save(size: u64, table: &CpuState, cause: Cause, left: u8) -> Phase
    ensures plan { (cpus : ℕ) → plan_of size cpus table.now result
        ≡ saves_plan size cause left table.now }
    ensures fits { (cpus : ℕ) → PhaseFits cpus table.now result }
{
    if left == 0 {
        return Phase::Ends(Ending::Enters { cause });
    }
    let words = frame(cause, &table.state);
    let word = words.as_slice().len().saturating_sub(usize::from(left));
    match ask_at(words.as_slice(), word) {
        Some(ask) => {
            let next = Continuation::Save {
                cause,
                left: left - 1,
            };
            reach_ask(size, table, ask, next)
        }
        None => Phase::Ends(Ending::Enters { cause }),
    }
}
