ghost use Rattle.std.specs.Prelude.{◌≡◌, ◌≤◌, [], length, not, is_ok, is_none, OnErr};
ghost use Rattle.std.specs.Option.{option_copied};
ghost use Rattle.axp_base.specs.Lines.{line_number};
ghost use Rattle.axp_bank.specs.Copies.{Whole, copy_of, is_held, stamp_of, has_room, put, dropped};
ghost use Rattle.axp_ibank.specs.Code.{bytes_of, code_lines, lines_beside};
ghost use Rattle.axp_base.specs.declared.limits.TheConstants.{BANK_COPIES};

use arrayvec::ArrayVec;
use axp_bank::CopyBank;
use axp_base::{BANK_COPIES, Line};
use axp_line::{LineData, NoRoom};
use std::marker::Model;

/// The code bank: at most [`BANK_COPIES`] copies of lines, of each line at most one, seen as the
/// list of its copies in ascending order of lines.
#[derive(Drop)]
pub struct CodeBank {
    copies: CopyBank,
}

impl Model for CodeBank {
    ghost use Rattle.std.specs.Prelude.{List};
    ghost use Rattle.axp_bank.specs.declared.copies.LineCopy.{LineCopy};

    ghost Value = { List LineCopy };

    ghost view = { λ b. b.copies };
}

impl CodeBank {
    /// A bank with no copy.
    pub fn empty() -> CodeBank
        ensures { result ≡ [] }
    {
        CodeBank {
            copies: CopyBank::empty(),
        }
    }

    /// The data of the copy of a line; `None` exactly where the line is not held.
    pub fn get(&self, line: Line) -> Option<&LineData>
        ensures value { option_copied result ≡ bytes_of (line_number line) self.now }
        ensures none { is_none result ≡ not (is_held (line_number line) self.now) }
    {
        match self.copies.get(line) {
            Some((_, bytes)) => Some(bytes),
            None => None,
        }
    }

    /// The stamp of the copy of a line; `None` exactly where the line is not held.
    pub fn stamp(&self, line: Line) -> Option<u64>
        ensures value { result ≡ stamp_of (line_number line) self.now }
        ensures none { is_none result ≡ not (is_held (line_number line) self.now) }
    {
        match self.copies.get(line) {
            Some((stamp, _)) => Some(stamp),
            None => None,
        }
    }

    /// Whether the line is held.
    pub fn holds(&self, line: Line) -> bool
        ensures { result ≡ is_held (line_number line) self.now }
    {
        self.copies.holds(line)
    }

    /// Whether a copy of the line fits: the line is held, or there is room for one line more.
    pub fn has_room(&self, line: Line) -> bool
        ensures { result ≡ has_room (line_number line) self.now }
    {
        self.copies.has_room(line)
    }

    /// Keeps this copy with the stamp 0, as [`put_at`](Self::put_at) does.
    pub fn put(&mut self, line: Line, bytes: LineData) -> Result<(), NoRoom>
        ensures answer { is_ok result ≡ has_room (line_number line) self.old }
        ensures copies { self.new ≡ put (copy_of line 0 bytes) self.old }
        ensures full { OnErr result (self.new ≡ self.old) }
    {
        self.put_at(line, 0, bytes)
    }

    /// Keeps this copy, in place of the one of its line or beside the others; [`NoRoom`] exactly
    /// where the line is not held and [`BANK_COPIES`] other lines are, and then nothing changes.
    pub fn put_at(&mut self, line: Line, stamp: u64, bytes: LineData) -> Result<(), NoRoom>
        ensures answer { is_ok result ≡ has_room (line_number line) self.old }
        ensures copies { self.new ≡ put (copy_of line stamp bytes) self.old }
        ensures full { OnErr result (self.new ≡ self.old) }
    {
        self.copies.put(line, stamp, bytes)
    }

    /// Removes the copy of a line where it is held, and tells whether it was.
    pub fn drop_line(&mut self, line: Line) -> bool
        ensures told { result ≡ is_held (line_number line) self.old }
        ensures copies { self.new ≡ dropped (line_number line) self.old }
    {
        self.copies.drop_line(line)
    }

    /// Removes every copy.
    pub fn clear(&mut self)
        ensures { self.new ≡ [] }
    {
        self.copies = CopyBank::empty();
    }

    /// The lines that are held, in ascending order.
    #[tactic(auto, using(crate::proofs::CodeLemmas::lines_alone))]
    pub fn lines(&self) -> ArrayVec<Line, BANK_COPIES>
        ensures value { result.items ≡ code_lines self.now }
        ensures whole { Whole self.now }
    {
        without_stamps(self.copies.lines().as_slice())
    }
}

/// The lines of a list of lines with stamps, in the same order.
pub fn without_stamps(held: &[(Line, u64)]) -> ArrayVec<Line, BANK_COPIES>
    requires { length held.now ≤ BANK_COPIES }
    ensures { result.items ≡ lines_beside held.now }
{
    let mut lines = ArrayVec::new();
    for copy in held {
        lines.push(copy.0);
    }
    lines
}
