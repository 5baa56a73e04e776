ghost use Rattle.std.specs.Prelude.{◌≡◌, ◌*◌, ◌^◌, ◌/◌, nat_lt, true};
ghost use Rattle.axp_base.specs.declared.lines.TheConstants.{LINE_BYTES};

/// The bytes of a line, the unit in which memory is shared.
pub const LINE_BYTES: u64 = 64;

/// The bytes of a block, the unit in which memory is locked. A block lies in one line.
pub const LOCK_BYTES: u64 = 16;

/// A line of physical memory.
#[derive(Clone, Copy, Debug, PartialEq, Eq)]
pub struct Line {
    number: u64,
    ghost addressed: { nat_lt (number * LINE_BYTES) (2 ^ 64) ≡ true },
}

/// The banks in which a processor keeps copies of lines.
#[derive(Clone, Copy, Debug, Default, PartialEq, Eq)]
pub enum Bank {
    /// `d0`, the data bank of the lines of even number.
    #[default]
    Even,
    /// `d1`, the data bank of the lines of odd number.
    Odd,
    /// `i`, the code bank.
    Code,
}

impl Line {
    ghost use Rattle.axp_base.specs.Lines.{line_number, line_at, data_bank};

    /// The line of the byte at this address.
    #[tactic(auto, using(crate::proofs::LineLemmas::line_is))]
    pub fn of(address: u64) -> Line
        ensures line { result ≡ line_at address }
        ensures number { line_number result ≡ address / LINE_BYTES }
    {
        Line {
            number: address / LINE_BYTES,
        }
    }

    /// The address of the line's first byte.
    pub fn address(self) -> u64
        ensures { result ≡ line_number self * LINE_BYTES }
    {
        self.number * LINE_BYTES
    }

    /// The data bank that the line belongs to.
    pub fn bank(self) -> Bank
        ensures { result ≡ data_bank (line_number self) }
    {
        if self.number.is_multiple_of(2) {
            Bank::Even
        } else {
            Bank::Odd
        }
    }
}

impl Default for Line {
    ghost use Rattle.axp_base.specs.Lines.{line_number};

    /// The line of memory's first byte.
    fn default() -> Line
        ensures { line_number result ≡ 0 }
    {
        Line { number: 0 }
    }
}
