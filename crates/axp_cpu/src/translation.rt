ghost use Rattle.std.specs.Prelude.{◌≡◌};
ghost use Rattle.axp_cpu.specs.Translation.{entry_address, way_of};

use axp_base::QUADWORD_BYTES;
use axp_image::PAGE_BYTES;
use axp_pte::{Parts, Way};
use axp_regs::{Ask, Kind};

/// A level of the page tables.
#[derive(Clone, Copy, Debug, PartialEq, Eq)]
pub enum Level {
    /// The table that the page-table base names.
    First,
    /// A table that an entry of the first level leads to.
    Second,
    /// A table that an entry of the second level leads to; its entries are those of pages.
    Third,
}

/// Whose access it is: that says in which mode it is made, and what comes of a fault.
#[derive(Clone, Copy, Debug, PartialEq, Eq)]
pub enum Origin {
    /// An instruction's, in the mode of the processor; a fault enters the operating system.
    Instruction,
    /// That of a frame, in kernel mode; a fault halts the processor.
    Frame,
}

/// An access to an address that is translated.
#[derive(Clone, Copy, Debug)]
pub struct MappedAsk {
    /// The access, by its virtual address.
    pub ask: Ask,
    /// Whose access it is.
    pub origin: Origin,
    /// The parts of its address.
    pub parts: Parts,
}

impl MappedAsk {
    /// What it does with its page.
    pub fn way(&self) -> Way
        ensures { result ≡ way_of self.now.ask.kind }
    {
        way(self.ask.kind)
    }
}

/// What an access of this kind does with its page.
pub fn way(kind: Kind) -> Way
    ensures { result ≡ way_of kind }
{
    match kind {
        Kind::Fetch => Way::Fetch,
        Kind::Read | Kind::Locked => Way::Load,
        Kind::Write
        | Kind::Conditional
        | Kind::Barrier
        | Kind::WriteBarrier
        | Kind::CodeBarrier
        | Kind::Signal
        | Kind::Console
        | Kind::Poll => Way::Store,
    }
}

/// Where the entry of this index lies in the page table that begins at this page.
pub fn entry_address(table: u64, index: u16) -> u64
    ensures { result ≡ entry_address table index }
{
    table
        .wrapping_mul(PAGE_BYTES)
        .wrapping_add(QUADWORD_BYTES * u64::from(index))
}
