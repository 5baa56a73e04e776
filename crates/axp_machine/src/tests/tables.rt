//! Events in tables, each with what it is to give.
ghost use Rattle.std.specs.Prelude.{◌≤◌};
ghost use Rattle.axp_base.specs.declared.processors.TheConstants.{MAX_BUDGET};

use super::*;

/// What an event is to give.
#[derive(Clone, Copy)]
pub(super) enum Expected {
    /// The program's line for the code bank, before any turn.
    CodeFilled,
    /// The stack's line for its data bank, after so many turns.
    Filled(u64),
    /// The line of an address for its data bank, before any turn.
    LineFilled(u64),
    /// The word at an address, from a line that was filled before any turn.
    Word(u64, u32),
    /// A load-locked's bytes at an address, before any turn.
    Locked(u64, u8, u64),
    /// A store-conditional of these bytes at an address: whether it stored, and its turn, or the
    /// turns that were made.
    Conditional(u64, u8, u64, bool, u64),
    /// A read of the quadword at an address, and its place.
    Read(u64, u64, u64),
    /// A write of the quadword at an address into the first entry of the buffer.
    Written(u64, u64),
    /// The first entry, of the line of an address, as this turn.
    Drained(u64, u64),
    /// A write of the quadword at an address into an entry of this number.
    WrittenAs(u64, u64, u32),
    /// The stack's line of the first turn, by which the copy goes.
    Taken,
    /// A signal to this processor, and its turn.
    Signalled(u8, u64),
    /// A byte for the console, and how many turns were made.
    Printed(u8, u64),
    /// Whether a signal is awaited, whether its entry begins, and how many turns were made.
    Polled(bool, bool, u64),
    /// Nothing more than that it was done.
    Done,
    /// It is not legal.
    NotLegal,
}

/// The outcome of an event of a processor that is to give this.
fn outcome_of(cpu: Cpu, expected: Expected) -> Result<Outcome, NotLegal> {
    match expected {
        Expected::CodeFilled => Ok(filled(Bank::Code, CODE, 0)),
        Expected::Filled(turn) => Ok(filled(Bank::Even, STACK, turn)),
        Expected::LineFilled(at) => Ok(filled(Line::of(at).bank(), at, 0)),
        Expected::Word(at, word) => access(cpu, Kind::Fetch, at, 4, u64::from(word), Place::At(0)),
        Expected::Locked(at, size, value) => {
            access(cpu, Kind::Locked, at, size, value, Place::At(0))
        }
        Expected::Conditional(address, size, value, yes, turn) => Ok(Outcome::Access(Access {
            cpu,
            kind: Kind::Conditional,
            address,
            size,
            value,
            yes,
            place: Place::At(turn),
        })),
        Expected::Read(at, value, turn) => access(cpu, Kind::Read, at, 8, value, Place::At(turn)),
        Expected::Written(at, value) => access(cpu, Kind::Write, at, 8, value, Place::Entry(1)),
        Expected::WrittenAs(at, value, entry) => {
            access(cpu, Kind::Write, at, 8, value, Place::Entry(entry))
        }
        Expected::Drained(at, turn) => Ok(Outcome::Drained {
            entry: 1,
            line: Line::of(at),
            turn,
        }),
        Expected::Taken => Ok(Outcome::Taken {
            line: Line::of(STACK),
            turn: 1,
            gone: true,
        }),
        Expected::Done => Ok(Outcome::Done),
        Expected::Signalled(target, turn) => {
            access(cpu, Kind::Signal, 0, 0, u64::from(target), Place::At(turn))
        }
        Expected::Printed(byte, turn) => {
            access(cpu, Kind::Console, 0, 0, u64::from(byte), Place::At(turn))
        }
        Expected::Polled(pending, entered, turn) => Ok(Outcome::Polled {
            pending,
            entered,
            turn,
        }),
        Expected::NotLegal => Err(NotLegal),
    }
}

/// The line of an address for a bank, after so many turns.
fn filled(bank: Bank, address: u64, turn: u64) -> Outcome {
    Outcome::Filled {
        bank,
        line: Line::of(address),
        turn,
    }
}

/// An access of a processor.
fn access(
    cpu: Cpu,
    kind: Kind,
    address: u64,
    size: u8,
    value: u64,
    place: Place,
) -> Result<Outcome, NotLegal> {
    Ok(Outcome::Access(Access {
        cpu,
        kind,
        address,
        size,
        value,
        yes: false,
        place,
    }))
}

/// The number of the first of these events that gives something else; `None` where none does.
pub(super) fn first_difference(
    machine: &mut Machine,
    events: &[(Cpu, Act, Expected)],
) -> Option<usize> {
    for n in 0..events.len() {
        let (cpu, act, expected) = events[n];
        if machine.event(Event { cpu, act }) != outcome_of(cpu, expected) {
            return Some(n);
        }
    }
    None
}

/// The two processors.
pub(super) fn both() -> Result<(Cpu, Cpu), Fail> {
    let a = Cpu::new(0).ok_or("0 is a processor's number")?;
    let b = Cpu::new(1).ok_or("1 is a processor's number")?;
    Ok((a, b))
}

/// Two processors over a program, each with a budget of 20 steps.
pub(super) fn start(alloc: Global, words: &[u32]) -> Result<Machine, Fail> {
    start_with(alloc, words, 20)
}

/// Two processors over a program, each with a budget of steps.
pub(super) fn start_with(alloc: Global, words: &[u32], budget: u32) -> Result<Machine, Fail>
    requires least { 1 ≤ budget }
    requires most { budget ≤ MAX_BUDGET }
{
    load(alloc, words, budget)
}

/// Whether each of these acts of a processor was legal.
pub(super) fn makes(machine: &mut Machine, cpu: Cpu, acts: &[Act]) -> bool {
    for n in 0..acts.len() {
        let act = acts[n];
        if machine.event(Event { cpu, act }).is_err() {
            return false;
        }
    }
    true
}

/// A register of a processor.
pub(super) fn register(machine: &Machine, cpu: Cpu, n: u8) -> Option<u64> {
    if cpu.number() < machine.cpus() && usize::from(n) < REGISTERS {
        Some(machine.register(cpu, n))
    } else {
        None
    }
}
