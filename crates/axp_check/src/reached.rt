ghost use Rattle.std.specs.Prelude.{◌≡◌, ◌==◌, ◌<◌, ◌≤◌, ℕ, length, slice_index, sum, if◌then◌else◌};
ghost use Rattle.axp_base.specs.Cpus.{cpu_number};
ghost use Rattle.axp_base.specs.declared.processors.TheConstants.{MAX_CPUS};
ghost use Rattle.axp_check.specs.declared.reached.TheConstants.{PROCESSORS};

use axp_access::Cpu;
use axp_base::MAX_CPUS;

/// As many processors as a machine may have.
const PROCESSORS: usize = MAX_CPUS as usize;

/// For each processor the number of the oldest of its reads and fetches that are reached, in a search for
/// what may have come from the value of one access. All of its memory writes behind that are reached
/// too, and no others. Where none is, a number that no access is behind.
#[derive(Clone, Copy, Debug)]
pub(crate) struct Reached {
    least: [u32; PROCESSORS],
    ghost whole: { length least ≡ PROCESSORS },
}

impl Reached {
    /// The read or fetch of this number of a processor alone; `none` is for the others.
    pub(crate) fn from_access(cpu: Cpu, n: u32, none: u32) -> Reached
        ensures { (p : ℕ) → p < MAX_CPUS → slice_index result.least p ≡ (if cpu_number cpu == p then n else none) }
    {
        let mut least = [none; PROCESSORS];
        least[usize::from(cpu.number())] = n;
        Reached { least }
    }

    /// The processor's number.
    pub(crate) fn least(&self, cpu: Cpu) -> u32
        ensures { result ≡ slice_index self.now.least (cpu_number cpu) }
    {
        self.least[usize::from(cpu.number())]
    }

    /// Puts a lesser number for a processor.
    pub(crate) fn lower(&mut self, cpu: Cpu, n: u32)
        requires { n < slice_index self.old.least (cpu_number cpu) }
        ensures value { (p : ℕ) → slice_index self.new.least p ≡ (if cpu_number cpu == p then n else slice_index self.old.least p) }
        ensures falls { sum self.new.least < sum self.old.least }
    {
        self.least[usize::from(cpu.number())] = n;
    }
}
