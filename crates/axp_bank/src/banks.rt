ghost use Rattle.std.specs.Prelude.{◌≡◌, ◌<◌, ◌≤◌, [], length, slice_set, not, false, is_ok};
ghost use Rattle.std.specs.Prelude.{is_none, OnErr};
ghost use Rattle.std.specs.List.{position};
ghost use Rattle.std.specs.Option.{option_map};
ghost use Rattle.axp_base.specs.Lines.{line_number};
ghost use Rattle.axp_bank.specs.Copies.{Whole, copy_of, line_of, is_of, is_held, get_of, has_older};
ghost use Rattle.axp_bank.specs.Copies.{has_room, put, refreshed, inserted, invalidated, dropped};
ghost use Rattle.axp_bank.specs.Copies.{held_lines, spared};
ghost use Rattle.axp_bank.specs.Places.{PlaceOf, IsPlace, IsPlaceFor, is_above};
ghost use Rattle.axp_base.specs.declared.limits.TheConstants.{BANK_COPIES};

use crate::LineCopy;
use arrayvec::ArrayVec;
use axp_base::{BANK_COPIES, Line};
use axp_line::{LineData, NoRoom};
use std::marker::Model;

/// A data bank: at most [`BANK_COPIES`] copies of lines, of each line at most one, seen as the list
/// of its copies in ascending order of lines.
#[derive(Drop)]
pub struct CopyBank {
    copies: ArrayVec<LineCopy, BANK_COPIES>,
}

impl Model for CopyBank {
    ghost use Rattle.std.specs.Prelude.{List};
    ghost use Rattle.axp_bank.specs.declared.copies.LineCopy.{LineCopy};
    ghost use Rattle.axp_bank.specs.Copies.{Whole};

    ghost Value = { List LineCopy };

    ghost view = { λ b. b.copies.items };

    ghost invariant = { λ b. Whole b.copies.items };
}

impl CopyBank {
    /// A bank with no copy.
    #[tactic(auto, using(crate::proofs::BankLemmas::whole_empty))]
    pub fn empty() -> CopyBank
        ensures { result ≡ [] }
    {
        CopyBank {
            copies: ArrayVec::new(),
        }
    }

    /// The stamp and the data of the copy of a line; `None` exactly where the line is not held.
    pub fn get(&self, line: Line) -> Option<(u64, &LineData)>
        ensures value { option_map (λ r. (r.0, r.1.now)) result
            ≡ get_of (line_number line) self.now }
        ensures none { is_none result ≡ not (is_held (line_number line) self.now) }
    {
        match place_of(&self.copies, line) {
            Some(n) => {
                let copy = &self.copies[n];
                Some((copy.stamp, &copy.bytes))
            }
            None => None,
        }
    }

    /// Whether the line is held.
    pub fn holds(&self, line: Line) -> bool
        ensures { result ≡ is_held (line_number line) self.now }
    {
        match place_of(&self.copies, line) {
            Some(_) => true,
            None => false,
        }
    }

    /// How many lines are held.
    pub fn len(&self) -> usize
        ensures value { result ≡ length self.now }
        ensures few { result ≤ BANK_COPIES }
    {
        self.copies.len()
    }

    /// Whether a copy of the line fits: the line is held, or there is room for one line more.
    pub fn has_room(&self, line: Line) -> bool
        ensures { result ≡ has_room (line_number line) self.now }
    {
        self.holds(line) || self.len() < BANK_COPIES
    }

    /// Keeps this copy, in place of the one of its line or beside the others; [`NoRoom`] exactly
    /// where the line is not held and [`BANK_COPIES`] other lines are, and then nothing changes.
    #[tactic(auto, unfolding(crate::specs::Copies::put))]
    pub fn put(&mut self, line: Line, stamp: u64, bytes: LineData) -> Result<(), NoRoom>
        ensures answer { is_ok result ≡ has_room (line_number line) self.old }
        ensures copies { self.new ≡ put (copy_of line stamp bytes) self.old }
        ensures full { OnErr result (self.new ≡ self.old) }
    {
        let copy = LineCopy { line, stamp, bytes };
        if let Some(n) = place_of(&self.copies, line) {
            put_at(&mut self.copies, n, copy);
            return Ok(());
        }
        if self.copies.is_full() {
            return Err(NoRoom);
        }
        put_beside(&mut self.copies, copy);
        Ok(())
    }

    /// Puts this copy in place of the one of its line; does nothing where the line is not held.
    pub fn refresh(&mut self, line: Line, stamp: u64, bytes: LineData)
        ensures { self.new ≡ refreshed (copy_of line stamp bytes) self.old }
    {
        if let Some(n) = place_of(&self.copies, line) {
            put_at(&mut self.copies, n, LineCopy { line, stamp, bytes });
        }
    }

    /// Removes the copy of a line exactly where its stamp is less than the turn, and tells whether
    /// it did.
    #[tactic(auto, unfolding(crate::specs::Copies::invalidated))]
    pub fn invalidate(&mut self, line: Line, turn: u64) -> bool
        ensures told { result ≡ has_older (line_number line) turn self.old }
        ensures copies { self.new ≡ invalidated (line_number line) turn self.old }
    {
        match place_of(&self.copies, line) {
            Some(n) => {
                if self.copies[n].stamp < turn {
                    remove_at(&mut self.copies, n, line);
                    true
                } else {
                    false
                }
            }
            None => false,
        }
    }

    /// Removes the copy of a line where it is held, and tells whether it was.
    pub fn drop_line(&mut self, line: Line) -> bool
        ensures told { result ≡ is_held (line_number line) self.old }
        ensures copies { self.new ≡ dropped (line_number line) self.old }
    {
        match place_of(&self.copies, line) {
            Some(place) => {
                remove_at(&mut self.copies, place, line);
                true
            }
            None => false,
        }
    }

    /// Removes each copy whose bit is 1: the lowest bit is for the copy of the least line.
    pub fn spare(&mut self, gone: u32)
        ensures { self.new ≡ spared gone self.old }
    {
        self.copies = spared_copies(&self.copies, gone);
    }

    /// The lines that are held, each with its copy's stamp, in ascending order of lines.
    pub fn lines(&self) -> ArrayVec<(Line, u64), BANK_COPIES>
        ensures value { result.items ≡ held_lines self.now }
        ensures whole { Whole self.now }
    {
        let mut lines = ArrayVec::new();
        for copy in self.copies.as_slice() {
            lines.push((copy.line, copy.stamp));
        }
        lines
    }
}

/// The place of the copy of a line.
fn place_of(copies: &ArrayVec<LineCopy, BANK_COPIES>, line: Line) -> Option<usize>
    ensures { PlaceOf (line_number line) copies.now.items result }
{
    first_of(copies, line)
}

/// The place for a copy of a line that is not held: in front of the copies of greater lines.
fn place_for(copies: &ArrayVec<LineCopy, BANK_COPIES>, line: Line) -> usize
    ensures { IsPlaceFor (line_number line) copies.now.items result }
{
    first_above(copies, line).unwrap_or(copies.len())
}

/// The first place of a copy of this line.
fn first_of(copies: &ArrayVec<LineCopy, BANK_COPIES>, line: Line) -> Option<usize>
    ensures { result ≡ position (λ c. is_of (line_number line) c) copies.now.items }
{
    copies.iter().position(|copy| copy.line == line)
}

/// The first place of a copy of a greater line.
fn first_above(copies: &ArrayVec<LineCopy, BANK_COPIES>, line: Line) -> Option<usize>
    ensures { result ≡ position (λ c. is_above (line_number line) c) copies.now.items }
{
    copies
        .iter()
        .position(|copy| line.address() < copy.line.address())
}

/// Puts this copy in place of the one of its line.
fn put_at(copies: &mut ArrayVec<LineCopy, BANK_COPIES>, n: usize, copy: LineCopy)
    requires whole { Whole copies.old.items }
    requires place { IsPlace (line_of copy) copies.old.items n }
    ensures copies { copies.new.items ≡ refreshed copy copies.old.items }
    ensures whole { Whole copies.new.items }
{
    write_at(copies, n, copy);
}

/// Puts this copy, whose line is not held, beside the others.
fn put_beside(copies: &mut ArrayVec<LineCopy, BANK_COPIES>, copy: LineCopy)
    requires whole { Whole copies.old.items }
    requires new { is_held (line_of copy) copies.old.items ≡ false }
    requires room { length copies.old.items < BANK_COPIES }
    ensures copies { copies.new.items ≡ inserted copy copies.old.items }
    ensures whole { Whole copies.new.items }
{
    let n = place_for(copies, copy.line);
    copies.insert(n, copy);
}

/// Removes the copy of a line from its place.
fn remove_at(copies: &mut ArrayVec<LineCopy, BANK_COPIES>, n: usize, line: Line)
    requires whole { Whole copies.old.items }
    requires place { IsPlace (line_number line) copies.old.items n }
    ensures copies { copies.new.items ≡ dropped (line_number line) copies.old.items }
    ensures whole { Whole copies.new.items }
{
    copies.remove(n);
}

/// The copies whose bits are 0.
#[tactic(auto, unfolding(crate::specs::Copies::spared))]
fn spared_copies(
    copies: &ArrayVec<LineCopy, BANK_COPIES>,
    gone: u32,
) -> ArrayVec<LineCopy, BANK_COPIES>
    ensures { result.items ≡ spared gone copies.now.items }
{
    let mut kept = ArrayVec::new();
    let mut bits = gone;
    for copy in copies.as_slice() {
        if bits.is_multiple_of(2) {
            kept.push(*copy);
        }
        bits /= 2;
    }
    kept
}

/// Writes a copy at a place that has one.
fn write_at(copies: &mut ArrayVec<LineCopy, BANK_COPIES>, n: usize, copy: LineCopy)
    requires { n < length copies.old.items }
    ensures { copies.new.items ≡ slice_set copies.old.items n copy }
{
    copies[n] = copy;
}
