ghost use Rattle.std.specs.Prelude.{◌≡◌, ◌<◌};
ghost use Rattle.axp_cpu.specs.CpuStates.{at_pc, called_in, entered_in, with_value};
ghost use Rattle.axp_cpu.specs.CallValues.{values_of};
ghost use Rattle.axp_cpu.specs.Phases.{ended, EndingFits};
ghost use Rattle.axp_cpu.specs.Rows.{cycle_counter};
ghost use Rattle.axp_pal.specs.Calls.{IsAnswered};
ghost use Rattle.axp_regs.specs.declared.states.TheConstants.{REGISTERS};

use crate::cpu_states::CpuState;
use crate::values::Values;
use axp_decode::PalOp;
use axp_pal::finish;
use axp_trap::{Cause, enter};

/// What the end of a group changes.
#[derive(Clone, Copy, Debug)]
pub enum Ending {
    /// The next instruction follows, and nothing else changes.
    Next,
    /// It goes on at an address.
    Goes { pc: u64 },
    /// It writes a register.
    Writes { n: u8, value: u64 },
    /// It goes on at an address, and its register holds that of the next instruction.
    Links { n: u8, pc: u64 },
    /// It writes a register, and sets the lock flag.
    Locks { n: u8, value: u64 },
    /// It writes a register, and clears the lock flag.
    Unlocks { n: u8, value: u64 },
    /// It writes the cycle counter to a register.
    Counts { n: u8 },
    /// It raises an entry at this instruction.
    Raises { cause: Cause },
    /// It raises an entry behind this instruction.
    RaisesBehind { cause: Cause },
    /// It writes a register, and raises an entry behind this instruction.
    Overflows { n: u8, value: u64, cause: Cause },
    /// An entry that saved its frame begins the operating system.
    Enters { cause: Cause },
    /// A PAL call ends, whose accesses gave these values.
    Returns { op: PalOp, values: Values },
    /// The processor halts with a code.
    Halts { code: u8 },
    /// The processor halts with a code behind the instruction.
    HaltsBehind { code: u8 },
}

impl CpuState {
    /// Ends the group.
    pub fn end(&mut self, ending: Ending)
        requires { EndingFits self.old.state ending }
        ensures { self.new ≡ ended ending self.old }
    {
        let next = self.next_pc();
        match ending {
            Ending::Next => self.state.set_pc(next),
            Ending::Goes { pc } => self.state.set_pc(pc),
            Ending::Writes { n, value } => self.write(n, value, next),
            Ending::Links { n, pc } => self.write(n, next, pc),
            Ending::Locks { n, value } => {
                self.state.set_locked(true);
                self.write(n, value, next);
            }
            Ending::Unlocks { n, value } => {
                self.state.set_locked(false);
                self.write(n, value, next);
            }
            Ending::Counts { n } => self.write(n, self.cycle_counter(), next),
            Ending::Raises { cause } => self.pending = Some(cause),
            Ending::RaisesBehind { cause } => {
                self.state.set_pc(next);
                self.pending = Some(cause);
            }
            Ending::Overflows { n, value, cause } => {
                self.write(n, value, next);
                self.pending = Some(cause);
            }
            Ending::Enters { cause } => self.enter(cause),
            Ending::Returns { op, values } => self.finish_call(op, &values),
            Ending::Halts { code } => self.halt(code),
            Ending::HaltsBehind { code } => {
                self.state.set_pc(next);
                self.halt(code);
            }
        }
    }

    /// Writes a register and goes on at an address.
    fn write(&mut self, n: u8, value: u64, pc: u64)
        requires { n < REGISTERS }
        ensures { self.new ≡ at_pc (with_value self.old n value) pc }
    {
        self.state.set(n, value);
        self.state.set_pc(pc);
    }

    /// Begins the operating system.
    fn enter(&mut self, cause: Cause)
        ensures { self.new ≡ entered_in cause self.old }
    {
        enter(cause, &mut self.state);
        self.pending = None;
    }

    /// Ends a PAL call, whose accesses gave these values.
    fn finish_call(&mut self, op: PalOp, values: &Values)
        requires { IsAnswered op self.old.state (values_of values.now) }
        ensures { self.new ≡ called_in op (values_of values.now) self.old }
    {
        let next = self.next_pc();
        self.state.set_pc(next);
        finish(
            op,
            &mut self.state,
            values.as_slice(),
            &mut self.itb,
            &mut self.dtb,
        );
    }

    /// The cycle counter: the number of fetched instructions, below the offset.
    fn cycle_counter(&self) -> u64
        ensures { result ≡ cycle_counter self.now }
    {
        (u64::from(self.state.offset()) << 32) + u64::from(self.state.fetched())
    }
}
