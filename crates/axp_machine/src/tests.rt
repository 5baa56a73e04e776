ghost use Rattle.std.specs.Prelude.{◌≤◌};
ghost use Rattle.axp_base.specs.declared.processors.TheConstants.{MAX_BUDGET};

mod calls;
mod entries;
mod entry_states;
mod instructions;
mod interrupts;
mod locks;
mod offers;
mod runs;
mod tables;
mod tails;
mod translation;

use self::tables::{Expected, both, first_difference, makes, register, start_with};
use super::*;
use axp_access::{Access, Act, Event, Kind, Offer, Outcome, Place};
use axp_base::{Bank, Cpu, Line, NoMemory, QUADWORD_BYTES};
use axp_image::read_image;
use std::alloc::Global;
use std::test::Fail;

/// Four pages of memory, with one segment at 0x2000, where every processor starts; its length
/// follows.
const HEAD: [u8; 48] = [
    0x41, 0x58, 0x50, 0x49, 1, 0, 1, 0, // magic, version, count
    0, 0x80, 0, 0, 0, 0, 0, 0, // size
    0, 0x20, 0, 0, 0, 0xFC, 0xFF, 0xFF, // entry
    0, 0x40, 0, 0, 0, 0xFC, 0xFF, 0xFF, // stack
    0, 0, 0, 0, 0, 0, 0, 0, // table
    0, 0x20, 0, 0, 0, 0, 0, 0, // the segment's address
];

/// LDA R1, 1(R31); STQ R1, 0(R30); LDQ R2, 0(R30); BIS R31, R2, R3; halt.
const STORE_AND_LOAD: [u32; 5] = [0x203F_0001, 0xB43E_0000, 0xA45E_0000, 0x47E2_0403, 0];

/// SLL R16, 5, R1; ADDQ R30, R1, R2; BIS R31, 1, R3; STQ R3, 0(R2); XOR R1, 32, R1; ADDQ R30, R1,
/// R4; LDQ R5, 0(R4); halt: each processor stores 1 to its own line and loads the other's.
const STORE_BUFFERING: [u32; 8] = [
    0x4A00_B721,
    0x43C1_0402,
    0x47E0_3403,
    0xB462_0000,
    0x4424_1801,
    0x43C1_0404,
    0xA4A4_0000,
    0,
];

/// The line of the program, and that of the quadword at address 0x4000, where the stack starts.
const CODE: u64 = 0x2000;

const STACK: u64 = 0x4000;

const STACK_QUADWORD: u64 = 0x800;

/// Two processors over a program, each with a budget of steps.
fn load(alloc: Global, words: &[u32], budget: u32) -> Result<Machine, Fail>
    requires least { 1 ≤ budget }
    requires most { budget ≤ MAX_BUDGET }
{
    let mut file = Vec::from_slice(alloc, &HEAD)?;
    file.extend_from_slice(&(words.len() as u64).wrapping_mul(4).to_le_bytes())?;
    for word in words {
        file.extend_from_slice(&word.to_le_bytes())?;
    }
    let image = read_image(alloc, file.as_slice())?;
    Ok(Machine::load(alloc, &image, 2, budget)?)
}

/// The events by which each processor of [`STORE_AND_LOAD`] stores and loads, and is then halted.
const STORES_AND_LOADS: [Act; 9] = [
    Act::Fill,
    Act::Step,
    Act::Step,
    Act::Step,
    Act::Step,
    Act::Fill,
    Act::Step,
    Act::Step,
    Act::Step,
];

#[test]
fn both_processors_read_their_own_store(rt: HostRuntime) -> Result<(), Fail> {
    let (a, b) = both()?;
    let none = Cpu::new(2).ok_or("2 is a processor's number")?;
    let mut machine = start_with(rt.alloc(), &STORE_AND_LOAD, 7)?;
    let (code, stack) = (Line::of(CODE), Line::of(STACK));
    let stored = [
        (none, Act::Step, Expected::NotLegal),
        (a, Act::Step, Expected::NotLegal), // the code bank does not hold the line
        (a, Act::Fill, Expected::CodeFilled),
        (a, Act::Fill, Expected::NotLegal),
        (a, Act::Step, Expected::Word(0x2000, 0x203F_0001)),
        (a, Act::Step, Expected::Word(0x2004, 0xB43E_0000)),
        (a, Act::Step, Expected::Written(STACK, 1)),
        (a, Act::Step, Expected::Word(0x2008, 0xA45E_0000)),
        (a, Act::Step, Expected::NotLegal), // the data bank does not
        (a, Act::Fill, Expected::Filled(0)),
        (a, Act::Step, Expected::Read(STACK, 1, 0)),
        (a, Act::Drain(1), Expected::NotLegal), // one entry waits
        (b, Act::Fill, Expected::CodeFilled),
        (b, Act::Step, Expected::Word(0x2000, 0x203F_0001)),
        (b, Act::Step, Expected::Word(0x2004, 0xB43E_0000)),
        (b, Act::Step, Expected::Written(STACK, 1)),
        (b, Act::Step, Expected::Word(0x2008, 0xA45E_0000)),
        (b, Act::Fill, Expected::Filled(0)),
        (b, Act::Step, Expected::Read(STACK, 1, 0)),
    ];
    assert_eq!(rt; first_difference(&mut machine, &stored), None);
    let delivered = [
        (b, Act::Poll, Expected::Polled(false, false, 0)), // at level 7
        (b, Act::Take(Bank::Even), Expected::NotLegal), // nothing is late
        (a, Act::Drain(0), Expected::Drained(STACK, 1)),
        (b, Act::Take(Bank::Odd), Expected::NotLegal),
        (b, Act::Take(Bank::Even), Expected::Taken),
        (b, Act::Drop(Bank::Even, stack), Expected::NotLegal), // it is gone
        (b, Act::Drop(Bank::Code, code), Expected::Done),
        (b, Act::Drain(0), Expected::Drained(STACK, 2)),
        (a, Act::Step, Expected::Word(0x200C, 0x47E2_0403)),
        (a, Act::Step, Expected::Word(0x2010, 0)),
        (a, Act::Step, Expected::NotLegal), // it is halted
    ];
    assert_eq!(rt; first_difference(&mut machine, &delivered), None);
    assert_eq!(rt; machine.events(), 21);
    assert!(rt; !machine.complete());
    assert_eq!(rt; machine.budget(), 7);
    assert_eq!(rt; register(&machine, a, 3), Some(1));
    assert!(rt; a.number() < machine.cpus());
    assert_eq!(rt; machine.halted(a), Some(1));
    assert_eq!(rt; machine.steps(a), 7);
    assert_eq!(rt; machine.pc(a), 0xFFFF_FC00_0000_2014);
    assert!(rt; b.number() < machine.cpus());
    assert_eq!(rt; machine.halted(b), None);
    assert_eq!(rt; machine.steps(b), 5);
    assert!(rt; (STACK_QUADWORD + 1) * QUADWORD_BYTES < machine.memory_size());
    assert_eq!(rt; machine.quadword(STACK_QUADWORD), 1);
    assert!(rt; machine.is_touched(STACK_QUADWORD));
    assert!(rt; !machine.is_touched(STACK_QUADWORD + 1));
    Ok(())
}

#[test]
fn is_complete_once_all_is_written(rt: HostRuntime) -> Result<(), Fail> {
    let (a, b) = both()?;
    let mut machine = start_with(rt.alloc(), &STORE_AND_LOAD, 7)?;
    assert!(rt; makes(&mut machine, a, &STORES_AND_LOADS));
    assert!(rt; makes(&mut machine, b, &STORES_AND_LOADS));
    assert!(rt; !machine.complete());
    assert!(rt; makes(&mut machine, b, &[Act::Drain(0)]));
    assert!(rt; !machine.complete());
    assert!(rt; makes(&mut machine, a, &[Act::Drain(0)]));
    assert!(rt; machine.complete());
    assert_eq!(rt; machine.events(), 20);
    Ok(())
}

#[test]
fn both_processors_read_what_was_there_before(rt: HostRuntime) -> Result<(), Fail> {
    let (a, b) = both()?;
    let mut machine = start_with(rt.alloc(), &STORE_BUFFERING, 10)?;
    for (cpu, own, other) in [(a, STACK, STACK + 32), (b, STACK + 32, STACK)] {
        let events = [
            (cpu, Act::Fill, Expected::CodeFilled),
            (cpu, Act::Step, Expected::Word(0x2000, 0x4A00_B721)),
            (cpu, Act::Step, Expected::Word(0x2004, 0x43C1_0402)),
            (cpu, Act::Step, Expected::Word(0x2008, 0x47E0_3403)),
            (cpu, Act::Step, Expected::Word(0x200C, 0xB462_0000)),
            (cpu, Act::Step, Expected::Written(own, 1)),
            (cpu, Act::Step, Expected::Word(0x2010, 0x4424_1801)),
            (cpu, Act::Step, Expected::Word(0x2014, 0x43C1_0404)),
            (cpu, Act::Step, Expected::Word(0x2018, 0xA4A4_0000)),
            (cpu, Act::Fill, Expected::Filled(0)),
            (cpu, Act::Step, Expected::Read(other, 0, 0)),
            (cpu, Act::Step, Expected::Word(0x201C, 0)),
        ];
        assert_eq!(rt; first_difference(&mut machine, &events), None);
    }
    let drains = [
        (b, Act::Drain(0), Expected::Drained(STACK + 32, 1)),
        (a, Act::Drain(0), Expected::Drained(STACK, 2)),
    ];
    assert_eq!(rt; first_difference(&mut machine, &drains), None);
    assert!(rt; machine.complete());
    for cpu in [a, b] {
        assert_eq!(rt; register(&machine, cpu, 5), Some(0));
    }
    for quadword in [STACK_QUADWORD, STACK_QUADWORD + 4] {
        assert!(rt; quadword * QUADWORD_BYTES < machine.memory_size());
        assert_eq!(rt; machine.quadword(quadword), 1);
    }
    Ok(())
}
