use super::*;
use axp_access::{Access, Act, Bank, Event, Kind, Line, Outcome, Place, Record};
use axp_base::Cpu;
use axp_gen::{Shape, litmus};
use axp_image::{Image, KSEG};
use std::test::*;

/// How two runs stand to each other.
#[derive(Clone, Copy, Debug, PartialEq, Eq)]
enum Compared {
    /// They end together, and each gave the records of the other.
    Same,
    /// They give different records.
    Different,
    /// Neither ends within the events that there may be.
    Endless,
}

/// The record of an act of a processor over a page of zeros, before any turn: the word 0 at address
/// 0 halts the processor that steps.
fn record_over_zeros(number: u8, act: Act) -> Option<Record> {
    let cpu = Cpu::new(number)?;
    let outcome = match act {
        Act::Fill => Outcome::Filled {
            bank: Bank::Code,
            line: Line::of(0),
            turn: 0,
        },
        Act::Step => Outcome::Access(Access {
            cpu,
            kind: Kind::Fetch,
            address: 0,
            size: 4,
            value: 0,
            yes: false,
            place: Place::At(0),
        }),
        Act::Poll => Outcome::Polled {
            pending: false,
            entered: false,
            turn: 0,
        },
        _ => return None,
    };
    let event = Event { cpu, act };
    Some(Record { event, outcome })
}

/// The number of the first of these acts that a run over a page of zeros does not make next; `None`
/// where it makes them all.
fn first_difference(run: &mut SeededRun, acts: &[(u8, Act)]) -> Option<usize> {
    for n in 0..acts.len() {
        let (number, act) = acts[n];
        if run.next() != record_over_zeros(number, act) {
            return Some(n);
        }
    }
    None
}

/// Whether a run is at its end, and stays there.
fn has_ended(run: &mut SeededRun) -> bool {
    run.next().is_none() && run.next().is_none() && run.machine().complete()
}

/// Compares two runs, each of so many events at most.
fn compare(a: &mut SeededRun, b: &mut SeededRun, most: u32) -> Compared {
    for _ in 0..most {
        let record = a.next();
        if record != b.next() {
            return Compared::Different;
        }
        if record.is_none() {
            return Compared::Same;
        }
    }
    Compared::Endless
}

#[test]
fn seeds_choose_the_events(rt: HostRuntime) -> Result<(), Fail> {
    // Worked apart from this program, by a model of the generator and of such a page's processors.
    let rows: [(u64, &[(u8, Act)]); 4] = [
        (
            0,
            &[
                (1, Act::Fill),
                (0, Act::Fill),
                (1, Act::Step),
                (0, Act::Step),
            ],
        ),
        (
            1,
            &[
                (1, Act::Fill),
                (1, Act::Step),
                (0, Act::Fill),
                (0, Act::Step),
            ],
        ),
        (
            2,
            &[
                (1, Act::Poll),
                (0, Act::Poll),
                (1, Act::Fill),
                (0, Act::Fill),
                (1, Act::Step),
                (0, Act::Step),
            ],
        ),
        (
            7,
            &[
                (1, Act::Fill),
                (1, Act::Step),
                (0, Act::Fill),
                (0, Act::Step),
            ],
        ),
    ];
    let zeros = Image::start(rt.alloc(), 8192, KSEG, 0, 0)?;
    for (seed, acts) in rows {
        let mut run = SeededRun::start(rt.alloc(), &zeros, 2, 5, seed)?;
        assert!(rt; !run.machine().complete(), "{seed}");
        assert_eq!(rt; first_difference(&mut run, acts), None, "{seed}");
        assert!(rt; has_ended(&mut run), "{seed}");
    }
    Ok(())
}

#[test]
fn three_processors_take_turns(rt: HostRuntime) -> Result<(), Fail> {
    let acts = [
        (2, Act::Fill),
        (1, Act::Fill),
        (1, Act::Step),
        (0, Act::Fill),
        (0, Act::Step),
        (2, Act::Step),
    ];
    let zeros = Image::start(rt.alloc(), 8192, KSEG, 0, 0)?;
    let mut run = SeededRun::start(rt.alloc(), &zeros, 3, 5, 0)?;
    assert_eq!(rt; first_difference(&mut run, &acts), None);
    assert!(rt; has_ended(&mut run));
    Ok(())
}

#[test]
fn a_seed_is_one_run(rt: HostRuntime) -> Result<(), Fail> {
    const MOST_EVENTS: u32 = 15 * 2 * 64;
    let image = litmus(rt.alloc(), Shape::Sb)?;
    let mut run = SeededRun::start(rt.alloc(), &image, 2, 64, 0)?;
    let mut again = SeededRun::start(rt.alloc(), &image, 2, 64, 0)?;
    assert_eq!(rt; compare(&mut run, &mut again, MOST_EVENTS), Compared::Same);
    assert!(rt; has_ended(&mut run));
    let mut first = SeededRun::start(rt.alloc(), &image, 2, 64, 0)?;
    let mut second = SeededRun::start(rt.alloc(), &image, 2, 64, 1)?;
    assert_eq!(rt;
        compare(&mut first, &mut second, MOST_EVENTS),
        Compared::Different
    );
    Ok(())
}
