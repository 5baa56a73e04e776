//! What lies outside the program. A *desk* gives lists of bytes by name, as files are given; a
//! *sink* takes bytes one piece after the other, as standard output does; a *gate* stands before
//! each step of a worker. Each is a trait, with types in memory, and the real ones over files and
//! standard output.
//!
//! A desk *tells* a list, and a sink *tells* its bytes, where contracts can say which bytes these
//! are: the types in memory tell them, and files and standard output do not, since the system may
//! change them at any time.
//!
//! A call outside may fail at any time, so a caller learns a cause with each answer: a desk and a
//! sink count their faults, and a failure is answered exactly where that count rose by one. A count
//! stays at 2^64 - 1 once it stands there, and then counts as risen.
#![tactic(auto)]

ghost use Rattle.std.specs.Prelude.{◌≡◌, ◌≤◌, ◌<◌, ℕ, List, length, Option, IfOk, IfSome};
ghost use Rattle.std.specs.Option.{is_some};
ghost use Rattle.axp_io.specs.Causes.{Ask, FetchCount, FetchGiven, FetchTold, FetchAsks};
ghost use Rattle.axp_io.specs.Causes.{raised, PutCount, PutTaken};

mod asks;
mod buffers;
mod files;
mod gates;
mod list_sinks;
mod lists;
mod reading;
mod streams;
mod sure;
mod tables;
mod troubles;
mod writing;

pub use asks::Asked;
pub use axp_base::{Bytes, Cpu, NoMemory};
pub use files::FileDesk;
pub use gates::FreeGate;
pub use list_sinks::ListSink;
use std::alloc::Global;
pub use streams::OutSink;
pub use sure::{SureDesk, SureSink};
pub use tables::TableDesk;

/// Why a fetch gave no list.
#[derive(Clone, Copy, Debug, PartialEq, Eq)]
pub enum FetchFault {
    /// The desk failed, and counted one fault.
    Failed,
    /// The list is longer than the caller's limit; one byte more than the limit was given.
    TooLong,
    /// Memory was not found.
    Memory,
}

/// Why a put did not take its whole piece.
#[derive(Clone, Copy, Debug, PartialEq, Eq)]
pub enum SinkFault {
    /// The sink failed, and counted one fault; it may have taken a front of the piece.
    Failed,
    /// Memory was not found; nothing was taken.
    Memory,
}

/// Where lists of bytes come from, by name.
///
/// - `told`: the list under each name, where the desk tells it.
/// - `faults`: the number of failures so far, which stays at 2^64 - 1 once it stands there.
/// - `given`: the number of bytes that the outside handed to the desk so far, which stays likewise.
/// - `asks`: the names asked for, each with its limit in bytes, in order.
pub trait Desk {
    ghost told: { Self → List ℕ → Option (List ℕ) };

    ghost faults: { Self → ℕ };

    ghost given: { Self → ℕ };

    ghost asks: { Self → List Ask };

    /// The whole list under a name, of at most `most` bytes.
    fn fetch(&mut self, alloc: Global, name: &str, most: u64) -> Result<Bytes, FetchFault>
        ensures stays { (n : List ℕ) → told self.new n ≡ told self.old n }
        ensures told { IfSome (told self.old name.now) (λ list. FetchTold list most result) }
        ensures most { IfOk result (λ bytes. length bytes ≤ most) }
        ensures faults_grow { faults self.old ≤ faults self.new }
        ensures count { FetchCount (faults self.old) (faults self.new) result }
        ensures given_grow { given self.old ≤ given self.new }
        ensures given { FetchGiven (given self.old) (given self.new) most result }
        ensures asks { FetchAsks (asks self.old) (asks self.new) (name.now, most) result };
}

/// Where bytes go.
///
/// - `taken`: the bytes taken so far, where the sink tells them.
/// - `faults`: the number of failures so far, which stays at 2^64 - 1 once it stands there.
/// - `puts`: how many pieces it was handed so far, whatever came of them; it stays likewise.
pub trait Sink {
    ghost taken: { Self → Option (List ℕ) };

    ghost faults: { Self → ℕ };

    ghost puts: { Self → ℕ };

    /// Takes a piece, which is not empty, after the bytes taken so far.
    fn put(&mut self, alloc: Global, piece: &[u8]) -> Result<(), SinkFault>
        requires { 0 < length piece.now }
        ensures tells { is_some (taken self.new) ≡ is_some (taken self.old) }
        ensures taken { PutTaken (taken self.old) (taken self.new) piece.now result }
        ensures faults_grow { faults self.old ≤ faults self.new }
        ensures count { PutCount (faults self.old) (faults self.new) result }
        ensures puts { puts self.new ≡ raised (puts self.old) 1 };
}

/// What a worker passes before each step. It decides when, and says nothing.
pub trait Gate {
    /// Returns when this processor may make this step.
    fn pass(&self, cpu: Cpu, step: u32);
}

#[cfg(test)]
mod tests {
    use super::*;

    /// Whether a desk, seen through its trait alone, gives this answer.
    pub(crate) fn answers<D: Desk>(
        desk: &mut D,
        alloc: Global,
        name: &str,
        most: u64,
        want: Result<&[u8], FetchFault>,
    ) -> bool {
        match (desk.fetch(alloc, name, most), want) {
            (Ok(bytes), Ok(list)) => bytes.as_slice() == list,
            (Err(fault), Err(wanted)) => fault == wanted,
            _ => false,
        }
    }

    /// What a sink, seen through its trait alone, answers to a piece that is not empty.
    pub(crate) fn puts<S: Sink>(sink: &mut S, alloc: Global, piece: &[u8]) -> Result<(), SinkFault>
        requires { 0 < length piece.now }
    {
        sink.put(alloc, piece)
    }
}
