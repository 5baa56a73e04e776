//! What acts do to the copies of lines.
ghost use Rattle.std.specs.Prelude.{◌≡◌};
ghost use Rattle.axp_bank.specs.Copies.{copy_of, has_older, invalidated, put, refreshed};
ghost use Rattle.axp_base.specs.Lines.{line_number};
ghost use Rattle.axp_lsu.specs.Going.{after_line, after_barrier, given_up, after_stored};
ghost use Rattle.axp_lsu.specs.Keeping.{copies_of, data_copies, with_copies, with_data_copies};

use super::{Lsu, in_even};
use axp_base::{Bank, Line};
use axp_line::{LineData, Reply};

impl Lsu {
    /// A line comes from the bus: its copy is put into the bank, or refreshed where it is held.
    pub(super) fn bring(&mut self, bank: Bank, line: Line, reply: Option<Reply>)
        ensures { self.new ≡ after_line bank line reply self.old }
    {
        if let Some(Reply::Line { turn, bytes }) = reply {
            self.put(bank, line, turn, bytes);
        }
    }

    fn put(&mut self, bank: Bank, line: Line, turn: u64, bytes: LineData)
        ensures { self.new
            ≡ with_copies bank (put (copy_of line turn bytes) (copies_of bank self.old)) self.old }
    {
        // a full bank stays as it is, and a line is asked for only where there is room
        let _ = match bank {
            Bank::Even => self.even.put(line, turn, bytes),
            Bank::Odd => self.odd.put(line, turn, bytes),
            Bank::Code => self.code.put_at(line, turn, bytes),
        };
    }

    /// A line was written to memory: its data copy, if there is one, is now the line as written.
    pub(super) fn rewrite(&mut self, line: Line, reply: Option<Reply>)
        ensures { self.new ≡ after_stored line reply self.old }
    {
        if let Some(Reply::Stored { turn, bytes }) = reply {
            self.refresh(line, turn, bytes);
        }
    }

    fn refresh(&mut self, line: Line, turn: u64, bytes: LineData)
        ensures { self.new ≡ with_data_copies (line_number line)
            (refreshed (copy_of line turn bytes) (data_copies (line_number line) self.old))
            self.old }
    {
        if in_even(line) {
            self.even.refresh(line, turn, bytes);
        } else {
            self.odd.refresh(line, turn, bytes);
        }
    }

    /// A barrier delivers all that was late: the bits are of bank `d0`'s copies, and then of
    /// `d1`'s.
    pub(super) fn fence(&mut self, reply: Option<Reply>)
        ensures { self.new ≡ after_barrier reply self.old }
    {
        if let Some(Reply::Barrier { turn, gone }) = reply {
            let even = self.even.len();
            self.even.spare(gone);
            self.odd.spare(gone >> even);
            self.barrier = turn;
        }
    }

    /// Removes the data bank's copy of a line where it is older than this turn, and tells whether
    /// one was removed.
    pub(super) fn invalidate(&mut self, line: Line, turn: u64) -> bool
        ensures gone { result
            ≡ has_older (line_number line) turn (data_copies (line_number line) self.old) }
        ensures kept { self.new ≡ with_data_copies (line_number line)
            (invalidated (line_number line) turn (data_copies (line_number line) self.old))
            self.old }
    {
        if in_even(line) {
            self.even.invalidate(line, turn)
        } else {
            self.odd.invalidate(line, turn)
        }
    }

    /// Gives up the bank's copy of a line.
    pub(super) fn give_up(&mut self, bank: Bank, line: Line)
        ensures { self.new ≡ given_up bank (line_number line) self.old }
    {
        match bank {
            Bank::Even => {
                self.even.drop_line(line);
                self.since.dropped_even = true;
            }
            Bank::Odd => {
                self.odd.drop_line(line);
                self.since.dropped_odd = true;
            }
            Bank::Code => {
                self.code.drop_line(line);
                self.since.dropped_code = true;
            }
        }
    }
}
