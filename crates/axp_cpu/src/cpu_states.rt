ghost use Rattle.std.specs.Prelude.{◌≡◌, ◌<◌, ◌^◌, None, IfOk};
ghost use Rattle.axp_cpu.specs.CpuStates.{halted_by, next_pc, with_fetch_counted};
ghost use Rattle.axp_cpu.specs.Translation.{buffer_for, entry_kept, frame_of, mode_in};
ghost use Rattle.axp_cpu.specs.Translation.{with_page_kept};
ghost use Rattle.axp_pte.specs.Entries.{pte_word};

use crate::translation::{MappedAsk, Origin};
use axp_image::INSTRUCTION_BYTES;
use axp_pte::{MmFault, Mode, Pte, Way, rights};
use axp_regs::State;
use axp_tb::Tb;
use axp_trap::{Cause, mode};

/// The code with which a processor halts whose frame cannot be reached.
pub const FRAME_FAULT: u8 = 2;

/// The code with which a processor halts that reaches beyond the end of memory.
pub const BEYOND_MEMORY: u8 = 4;

/// What the instruction table speaks of: a processor's registers, its halt code once it is halted,
/// the entry to the operating system that it is about to make, and the translations that it keeps.
#[derive(Debug, Drop)]
pub struct CpuState {
    /// The registers.
    pub state: State,
    /// The halt code, 1 to 4.
    pub halted: Option<u8>,
    /// What raised the entry that it is about to make; the program counter is the address that its
    /// frame saves.
    pub pending: Option<Cause>,
    /// The instruction translation buffer, for fetches.
    pub itb: Tb,
    /// The data translation buffer, for all other accesses.
    pub dtb: Tb,
}

impl CpuState {
    /// The address of the next instruction.
    pub fn next_pc(&self) -> u64
        ensures { result ≡ next_pc self.now }
    {
        self.state.pc().wrapping_add(INSTRUCTION_BYTES as u64)
    }

    /// Halts the processor with a code; it enters nothing any more.
    pub fn halt(&mut self, code: u8)
        ensures { self.new ≡ halted_by code self.old }
    {
        self.halted = Some(code);
        self.pending = None;
    }

    /// The mode in which an access of this origin is made.
    pub fn mode_in(&self, origin: Origin) -> Mode
        ensures { result ≡ mode_in origin self.now }
    {
        match origin {
            Origin::Instruction => mode(self.state.ps()),
            Origin::Frame => Mode::Kernel,
        }
    }

    /// The frame of a mapped access's page, below 2^32, by the page's entry; the first fault where
    /// the entry does not allow the access.
    pub fn frame(&self, far: &MappedAsk, pte: Pte) -> Result<u64, MmFault>
        ensures frame { result ≡ frame_of self.now far.now (pte_word pte) }
        ensures small { IfOk result (λ frame. frame < 2 ^ 32) }
    {
        rights(pte, self.mode_in(far.origin), far.way())
    }

    /// Counts the instruction that was fetched.
    pub fn count_fetch(&mut self)
        ensures { self.new ≡ with_fetch_counted self.old }
    {
        let fetched = self.state.fetched().wrapping_add(1);
        self.state.set_fetched(fetched);
    }

    /// The page-table entry that is kept of an access's page.
    pub fn find(&self, far: &MappedAsk) -> Option<Pte>
        ensures { result ≡ entry_kept self.now far.now }
    {
        self.buffer(far.way())
            .find(far.parts.page(), self.state.asn())
    }

    /// The translation buffer for accesses of this way.
    fn buffer(&self, way: Way) -> &Tb
        ensures { result.now ≡ buffer_for way self.now }
    {
        match way {
            Way::Fetch => &self.itb,
            Way::Load | Way::Store => &self.dtb,
        }
    }

    /// Keeps the page-table entry of an access's page, of which none is kept yet.
    pub fn keep(&mut self, far: &MappedAsk, word: u64)
        requires { entry_kept self.old far.now ≡ None }
        ensures { self.new ≡ with_page_kept far.now word self.old }
    {
        let (page, asn, pte) = (far.parts.page(), self.state.asn(), Pte::of(word));
        match far.way() {
            Way::Fetch => self.itb.put(page, asn, pte),
            Way::Load | Way::Store => self.dtb.put(page, asn, pte),
        }
    }
}
