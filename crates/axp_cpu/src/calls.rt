//! PAL calls: their accesses, one after the other, and how they end.
ghost use Rattle.std.specs.Prelude.{◌≡◌, ◌==◌, ℕ, if◌then◌else◌};
ghost use Rattle.axp_cpu.specs.declared.cpu_states.CpuState.{CpuState};
ghost use Rattle.axp_cpu.specs.CpuStates.{behind, halted_by};
ghost use Rattle.axp_cpu.specs.CallValues.{values_of};
ghost use Rattle.axp_cpu.specs.Phases.{plan_of, CallFits, PhaseFits};
ghost use Rattle.axp_cpu.specs.Plans.{End};
ghost use Rattle.axp_cpu.specs.Rows.{calls_plan, pal_row};
ghost use Rattle.axp_pal.specs.declared.plans.TheConstants.{HALTED};

use crate::cpu_states::CpuState;
use crate::endings::Ending;
use crate::phases::{Continuation, Phase};
use crate::values::Values;
use crate::walks::{ask_at, reach_ask};
use axp_decode::PalOp;
use axp_pal::{HALTED, PalEnd, plan};

/// A PAL call.
pub fn call_pal(size: u64, cpus: u8, table: &CpuState, op: PalOp) -> Phase
    ensures plan { plan_of size cpus table.now result ≡ pal_row size cpus table.now op }
    ensures fits { PhaseFits cpus table.now result }
{
    let plan = plan(op, &table.state, cpus);
    match plan.end {
        PalEnd::Ends => {
            let left = plan.asks.as_slice().len() as u8;
            call(size, cpus, table, op, Values::none(), left)
        }
        PalEnd::Enters(cause) => Phase::Ends(Ending::RaisesBehind { cause }),
        PalEnd::Halts(code) => halt(code),
    }
}

/// A PAL call that halts the processor: halt itself leaves the program counter behind it.
fn halt(code: u8) -> Phase
    ensures plan { (size cpus : ℕ) (t : CpuState) → plan_of size cpus t result
        ≡ End (halted_by code (if code == HALTED then behind t else t)) }
    ensures fits { (cpus : ℕ) (t : CpuState) → PhaseFits cpus t result }
{
    if code == HALTED {
        Phase::Ends(Ending::HaltsBehind { code })
    } else {
        Phase::Ends(Ending::Halts { code })
    }
}

/// A PAL call with so many accesses left, behind those that gave these values.
pub fn call(size: u64, cpus: u8, table: &CpuState, op: PalOp, values: Values, left: u8) -> Phase
    requires { CallFits cpus table.now.state op values.len left }
    ensures plan { plan_of size cpus table.now result
        ≡ calls_plan size cpus op left (values_of values) table.now }
    ensures fits { PhaseFits cpus table.now result }
{
    if left == 0 {
        return Phase::Ends(Ending::Returns { op, values });
    }
    let plan = plan(op, &table.state, cpus);
    match ask_at(plan.asks.as_slice(), values.len()) {
        Some(ask) => {
            let next = Continuation::Call {
                op,
                values,
                left: left - 1,
            };
            reach_ask(size, table, ask, next)
        }
        None => Phase::Ends(Ending::Returns { op, values }),
    }
}
