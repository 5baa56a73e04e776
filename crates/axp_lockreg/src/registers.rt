ghost use Rattle.std.specs.Prelude.{◌≡◌, None, Some};

use axp_base::{LINE_BYTES, LOCK_BYTES, Line};

/// The number of blocks in a line.
const BLOCKS_IN_A_LINE: u64 = LINE_BYTES / LOCK_BYTES;

/// Which block of memory is locked, if one is.
#[derive(Clone, Copy, Debug, PartialEq, Eq)]
pub struct LockReg {
    block: Option<u64>,
}

impl LockReg {
    ghost use Rattle.axp_base.specs.Lines.{line_number};
    ghost use Rattle.axp_base.specs.Blocks.{after_write, block_of, is_allowed};
    ghost use Rattle.axp_lockreg.specs.Blocks.{locked_block};

    /// The register with nothing locked.
    pub fn clear() -> LockReg
        ensures { locked_block result ≡ None }
    {
        LockReg { block: None }
    }

    /// Locks the block of an address, in place of what was locked.
    pub fn set(&mut self, address: u64)
        ensures { locked_block self.new ≡ Some (block_of address) }
    {
        self.block = Some(address / LOCK_BYTES);
    }

    /// Another processor's write reached a line: a block that is locked there is so no longer.
    pub fn disturb(&mut self, line: Line)
        ensures { locked_block self.new ≡ after_write (line_number line) (locked_block self.old) }
    {
        if let Some(block) = self.block {
            if block / BLOCKS_IN_A_LINE == line.address() / LINE_BYTES {
                self.block = None;
            }
        }
    }

    /// Whether the block of an address is locked.
    pub fn allows(&self, address: u64) -> bool
        ensures { result ≡ is_allowed address (locked_block self.now) }
    {
        self.block == Some(address / LOCK_BYTES)
    }

    /// Unlocks what is locked.
    pub fn release(&mut self)
        ensures { locked_block self.new ≡ None }
    {
        *self = LockReg::clear();
    }
}
