ghost use Rattle.std.specs.Prelude.{◌≡◌, ◌==◌, length, if◌then◌else◌};
ghost use Rattle.axp_base.specs.Lines.{line_number, data_bank};
ghost use Rattle.axp_base.specs.declared.lines.Bank.TheVariants.{Even, Odd};
ghost use Rattle.axp_bank.specs.Copies.{is_held};
ghost use Rattle.axp_lsu.specs.Keeping.{empty_memory, copies_of, data_copies};

mod asking;
mod copies;
mod entries;
mod facts;
mod going;
mod offering;
mod values;

use crate::Since;
use axp_bank::CopyBank;
use axp_base::{Bank, Line};
use axp_ibank::CodeBank;
use axp_wbuf::Wbuf;
use std::marker::Model;

/// What a processor keeps of memory: its write buffer, its banks of copies, and what it did since
/// its last step.
#[derive(Drop)]
pub struct Lsu {
    buffer: Wbuf,
    even: CopyBank,
    odd: CopyBank,
    code: CodeBank,
    barrier: u64,
    since: Since,
}

impl Model for Lsu {
    ghost use Rattle.axp_lsu.specs.Keeping.{LocalMemory};

    ghost Value = { LocalMemory };

    ghost use Rattle.axp_lsu.specs.Views.{local_memory_of};

    ghost view = { local_memory_of };
}

impl Lsu {
    /// A unit that keeps nothing.
    pub fn empty() -> Lsu
        ensures { result ≡ empty_memory }
    {
        Lsu {
            buffer: Wbuf::empty(),
            even: CopyBank::empty(),
            odd: CopyBank::empty(),
            code: CodeBank::empty(),
            barrier: 0,
            since: Since::default(),
        }
    }

    /// Whether no write waits in the buffer.
    pub fn is_drained(&self) -> bool
        ensures { result ≡ (length self.now.buffer.kept == 0) }
    {
        self.buffer.is_empty()
    }

    /// The data bank that the line belongs to.
    fn data(&self, line: Line) -> &CopyBank
        ensures { result.now ≡ data_copies (line_number line) self.now }
    {
        if in_even(line) { &self.even } else { &self.odd }
    }

    /// Whether the bank has a copy of the line.
    fn holds_in(&self, bank: Bank, line: Line) -> bool
        ensures { result ≡ is_held (line_number line) (copies_of bank self.now) }
    {
        match bank {
            Bank::Even => self.even.holds(line),
            Bank::Odd => self.odd.holds(line),
            Bank::Code => self.code.holds(line),
        }
    }
}

/// Whether the line belongs to bank `d0`.
fn in_even(line: Line) -> bool
    ensures { data_bank (line_number line) ≡ (if result then Even else Odd) }
{
    match line.bank() {
        Bank::Even => true,
        Bank::Odd | Bank::Code => false,
    }
}
