ghost use Rattle.std.specs.Prelude.{◌≡◌};
ghost use Rattle.axp_base.specs.Cpus.{cpu_number};
ghost use Rattle.axp_model.specs.EntryStates.{entry_state};

use super::Machine;
use axp_access::EntryState;
use axp_base::Cpu;

impl Machine {
    /// How far the entry of this number of a processor's write buffer has come, by the records: no
    /// write went into it; one did, and no drain named it; or a drain did. Entries are numbered from
    /// 1, so that of number 0 is never written, nor is one of a processor that the machine does not
    /// have. A trace names entries so (docs/FORMATS.md, "The trace").
    pub fn entry(&self, cpu: Cpu, number: u32) -> EntryState
        ensures { result ≡ entry_state (cpu_number cpu) number self.now.records }
    {
        if usize::from(cpu.number()) >= self.processors.len() {
            return EntryState::Unwritten;
        }
        self.processor(cpu).entry(number)
    }
}
