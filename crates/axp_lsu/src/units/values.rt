ghost use Rattle.std.specs.Prelude.{◌≡◌, ◌*◌, ◌%◌, ◌^◌, ◌<◌, Some};
ghost use Rattle.axp_base.specs.Masks.{IsSize};
ghost use Rattle.axp_base.specs.Parts.{part};
ghost use Rattle.axp_base.specs.declared.lines.TheConstants.{LINE_BYTES};
ghost use Rattle.axp_line.specs.Lines.{bytes_of_line};
ghost use Rattle.axp_lsu.specs.Fitting.{FitsSize, IsWantedInSome};
ghost use Rattle.axp_lsu.specs.Going.{fetched_value, found_by, is_stored, locked_value, read_value};
ghost use Rattle.axp_lsu.specs.Going.{shown_by, value_of};

use super::Lsu;
use axp_access::Wanted;
use axp_base::{LINE_BYTES, Line};
use axp_line::{LineData, Reply};
use axp_regs::Kind;

impl Lsu {
    /// The value that an access gives to its processor's instruction: 0 where it gives none.
    #[tactic(auto, unfolding(crate::specs::Going::value_of))]
    pub fn value(&self, wanted: &Wanted, reply: Option<Reply>) -> u64
        requires { IsWantedInSome (Some wanted.now) }
        ensures { result ≡ value_of wanted.now self.now reply }
    {
        match wanted.kind {
            Kind::Fetch | Kind::Read | Kind::Locked => self.found(wanted, reply),
            Kind::Conditional => u64::from(is_stored(reply)),
            Kind::Write
            | Kind::Barrier
            | Kind::WriteBarrier
            | Kind::CodeBarrier
            | Kind::Signal
            | Kind::Console
            | Kind::Poll => 0,
        }
    }

    /// What is shown as an access's value: what it found, or what was wanted of it.
    pub(super) fn shown(&self, wanted: &Wanted, reply: Option<Reply>) -> u64
        requires { IsWantedInSome (Some wanted.now) }
        ensures value { result ≡ shown_by wanted.now.kind wanted.now self.now reply }
        ensures fits { FitsSize wanted.now.kind wanted.now.size wanted.now.value
            → FitsSize wanted.now.kind wanted.now.size result }
    {
        match wanted.kind {
            Kind::Fetch | Kind::Read | Kind::Locked => self.found(wanted, reply),
            _ => wanted.value,
        }
    }

    /// What a fetch or a plain read finds in its bank, and a load-locked in memory.
    fn found(&self, wanted: &Wanted, reply: Option<Reply>) -> u64
        requires sized { IsSize wanted.now.size }
        requires aligned { wanted.now.address % wanted.now.size ≡ 0 }
        ensures value { result ≡ found_by wanted.now.kind wanted.now self.now reply }
        ensures small { result < 2 ^ (8 * wanted.now.size) }
    {
        match wanted.kind {
            Kind::Fetch => self.fetched(wanted),
            Kind::Read => self.read(wanted),
            _ => locked(wanted, reply),
        }
    }

    /// What a fetch finds in the code bank.
    fn fetched(&self, wanted: &Wanted) -> u64
        requires sized { IsSize wanted.now.size }
        requires aligned { wanted.now.address % wanted.now.size ≡ 0 }
        ensures value { result ≡ fetched_value wanted.now self.now }
        ensures small { result < 2 ^ (8 * wanted.now.size) }
    {
        match self.code.get(Line::of(wanted.address)) {
            None => 0,
            Some(bytes) => part_of(bytes, wanted),
        }
    }

    /// What a plain read finds in its data bank, with the processor's own buffered writes over it.
    fn read(&self, wanted: &Wanted) -> u64
        requires sized { IsSize wanted.now.size }
        requires aligned { wanted.now.address % wanted.now.size ≡ 0 }
        ensures value { result ≡ read_value wanted.now self.now }
        ensures small { result < 2 ^ (8 * wanted.now.size) }
    {
        let line = Line::of(wanted.address);
        match self.data(line).get(line) {
            None => 0,
            Some((_, bytes)) => {
                let mut bytes = *bytes;
                self.buffer.overlay(line, &mut bytes);
                part_of(&bytes, wanted)
            }
        }
    }
}

/// What a load-locked finds in memory.
fn locked(wanted: &Wanted, reply: Option<Reply>) -> u64
    requires sized { IsSize wanted.now.size }
    requires aligned { wanted.now.address % wanted.now.size ≡ 0 }
    ensures value { result ≡ locked_value wanted.now reply }
    ensures small { result < 2 ^ (8 * wanted.now.size) }
{
    match reply {
        Some(Reply::Line { bytes, .. }) => part_of(&bytes, wanted),
        _ => 0,
    }
}

/// A write was made.
pub(super) fn is_stored(reply: Option<Reply>) -> bool
    ensures { result ≡ is_stored reply }
{
    match reply {
        Some(Reply::Stored { .. }) => true,
        _ => false,
    }
}

/// The number that an access finds in its line.
fn part_of(bytes: &LineData, wanted: &Wanted) -> u64
    requires sized { IsSize wanted.now.size }
    requires aligned { wanted.now.address % wanted.now.size ≡ 0 }
    ensures value { result
        ≡ part (bytes_of_line bytes.now) (wanted.now.address % LINE_BYTES) wanted.now.size }
    ensures small { result < 2 ^ (8 * wanted.now.size) }
{
    bytes.get((wanted.address % LINE_BYTES) as u8, wanted.size)
}
