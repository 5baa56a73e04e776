//! The tail of a whole run that was worked out by hand.
ghost use Rattle.std.specs.Prelude.{◌≡◌, true};
ghost use Rattle.axp_machine.specs.Runs.{is_complete};

use super::runs::KERNEL;
use super::*;
use axp_access::TailItem;

/// What an item of the tail is to tell.
#[derive(Clone, Copy)]
enum Told {
    /// A processor by its number, its halt code, its steps and its program counter.
    Processor(u8, u8, u32, u64),
    /// A processor's number, its register's number and value.
    Register(u8, u8, u64),
    /// A quadword's address and value.
    Quadword(u64, u64),
    /// The bytes that went to the console.
    Console(&'static [u8]),
    /// The number of events.
    End(u32),
}

/// Whether an item tells this.
fn tells(item: &TailItem, told: Told) -> bool {
    match (item, told) {
        (
            TailItem::Cpu {
                cpu,
                halt,
                steps,
                pc,
            },
            Told::Processor(number, code, made, at),
        ) => cpu.number() == number && *halt == code && *pc == at && *steps == made,
        (TailItem::Reg { cpu, n, value }, Told::Register(number, register, holds)) => {
            cpu.number() == number && *n == register && *value == holds
        }
        (TailItem::Mem { address, value }, Told::Quadword(at, holds)) => {
            *address == at && *value == holds
        }
        (TailItem::Console { bytes }, Told::Console(sent)) => bytes.as_slice() == sent,
        (TailItem::End { events }, Told::End(made)) => *events == made,
        _ => false,
    }
}

/// The number of the first item that tells otherwise, by its number or by its place; `None` where
/// none does, and the tail ends behind them.
fn first_untold(
    alloc: Global,
    machine: &Machine,
    items: &[Told; 11],
) -> Result<Option<usize>, NoMemory>
    requires { is_complete machine.now ≡ true }
{
    let mut at = TailAt::start();
    for n in 0..items.len() {
        let told = items[n];
        let Some(item) = machine.tail(alloc, n as u32 + 1)? else {
            return Ok(Some(n));
        };
        let Some((next, behind)) = machine.tail_next(alloc, at)? else {
            return Ok(Some(n));
        };
        if !tells(&item, told) || !tells(&next, told) {
            return Ok(Some(n));
        }
        at = behind;
    }
    let next = machine.tail_next(alloc, at)?;
    let past = machine.tail(alloc, 12)?;
    if next.is_none() && past.is_none() {
        Ok(None)
    } else {
        Ok(Some(items.len()))
    }
}

/// LDA R17, 0x14B(R16); LDA R16, 1(R31); cserve; STQ R17, 0(R30); halt: each processor sends a byte
/// to the console and stores it with the bit above it.
const SEND_AND_STORE: [u32; 5] = [0x2230_014B, 0x221F_0001, 9, 0xB63E_0000, 0];

/// The events by which a processor does so.
const SENDS_AND_STORES: [Act; 9] = [
    Act::Fill,
    Act::Step,
    Act::Step,
    Act::Step,
    Act::Step,
    Act::Step,
    Act::Step,
    Act::Step,
    Act::Drain(0),
];

#[test]
fn the_tail_tells_what_is_left(rt: HostRuntime) -> Result<(), Fail> {
    let (a, b) = both()?;
    let mut machine = start_with(rt.alloc(), &SEND_AND_STORE, 8)?;
    assert!(rt; makes(&mut machine, b, &SENDS_AND_STORES));
    assert!(rt; makes(&mut machine, a, &SENDS_AND_STORES));
    assert!(rt; machine.complete());
    let items = [
        Told::Processor(0, 1, 7, KERNEL + 0x2014),
        Told::Register(0, 16, 1),
        Told::Register(0, 17, 0x14B),
        Told::Register(0, 30, KERNEL + STACK),
        Told::Processor(1, 1, 7, KERNEL + 0x2014),
        Told::Register(1, 16, 1),
        Told::Register(1, 17, 0x14C),
        Told::Register(1, 30, KERNEL + STACK),
        Told::Quadword(STACK, 0x14B),
        Told::Console(&[0x4C, 0x4B]),
        Told::End(18),
    ];
    assert_eq!(rt; first_untold(rt.alloc(), &machine, &items)?, None);
    Ok(())
}
