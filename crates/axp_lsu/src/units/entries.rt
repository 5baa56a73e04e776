ghost use Rattle.std.specs.Prelude.{◌≡◌};
ghost use Rattle.axp_lsu.specs.EntryStates.{entry_in};

use super::Lsu;
use axp_access::EntryState;

impl Lsu {
    /// How far the entry of this number of the write buffer has come; entries are numbered from 1,
    /// so that of number 0 is never written.
    pub fn entry(&self, number: u32) -> EntryState
        ensures { result ≡ entry_in number self.now.buffer }
    {
        if self.buffer.keeps(number) {
            EntryState::Waiting
        } else if 0 < number && number <= self.buffer.made() {
            EntryState::Drained
        } else {
            EntryState::Unwritten
        }
    }
}
