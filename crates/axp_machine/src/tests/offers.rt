//! Which events are offered: exactly those that are legal, and what a processor waits for.
use super::runs::goes_by;
use super::tables::{Expected, both, first_difference, start, start_with};
use super::*;

/// What is to be offered.
#[derive(Clone, Copy)]
struct Offered {
    spent: bool,
    step: bool,
    fill: bool,
    drains: u8,
    late: (bool, bool),
    /// The copies that may be given up: each bank, and the address of a line.
    drops: &'static [(Bank, u64)],
    needs: Option<Bank>,
    poll: bool,
    tick: bool,
}

/// Nothing.
const NOTHING: Offered = Offered {
    spent: false,
    step: false,
    fill: false,
    drains: 0,
    late: (false, false),
    drops: &[],
    needs: None,
    poll: false,
    tick: false,
};

/// The program's line in the code bank.
const CODE_ALONE: &[(Bank, u64)] = &[(Bank::Code, CODE)];

/// Whether these copies are named.
fn names(drops: &[(Bank, Line)], expected: &[(Bank, u64)]) -> bool {
    if drops.len() != expected.len() {
        return false;
    }
    for n in 0..drops.len() {
        let (bank, address) = expected[n];
        if drops[n] != (bank, Line::of(address)) {
            return false;
        }
    }
    true
}

/// Whether this is offered.
fn is_as(offer: &Offer, expected: &Offered) -> bool {
    offer.spent == expected.spent
        && offer.step == expected.step
        && offer.fill == expected.fill
        && offer.drains == expected.drains
        && offer.late == expected.late
        && offer.needs == expected.needs
        && offer.poll == expected.poll
        && offer.tick == expected.tick
        && names(offer.drops.as_slice(), expected.drops)
}

/// Whether a processor is offered this.
fn offers(machine: &Machine, cpu: Cpu, expected: &Offered) -> bool {
    is_as(&machine.offer(cpu), expected)
}

/// swpipl, to level 0; halt.
#[test]
fn offer_follows_each_event(rt: HostRuntime) -> Result<(), Fail> {
    let (a, _) = both()?;
    let mut machine = start(rt.alloc(), &[0x35, 0])?;
    let begun = Offered {
        fill: true,
        poll: true,
        ..NOTHING
    };
    let filled = Offered {
        step: true,
        ..NOTHING
    };
    let at_level_0 = Offered {
        step: true,
        drops: CODE_ALONE,
        poll: true,
        tick: true,
        ..NOTHING
    };
    let polled = Offered {
        poll: false,
        ..at_level_0
    };
    let halted = Offered {
        spent: true,
        ..NOTHING
    };
    for (offered, act) in [
        (begun, Act::Fill),
        (filled, Act::Step),
        (at_level_0, Act::Poll),
        (polled, Act::Step),
    ] {
        assert!(rt; offers(&machine, a, &offered));
        assert!(rt; makes(&mut machine, a, &[act]));
    }
    assert!(rt; offers(&machine, a, &halted));
    Ok(())
}

#[test]
fn nothing_is_offered_to_a_processor_that_there_is_not(rt: HostRuntime) -> Result<(), Fail> {
    let none = Cpu::new(2).ok_or("2 is a processor's number")?;
    let machine = start(rt.alloc(), &[0])?;
    assert!(rt; offers(&machine, none, &NOTHING));
    Ok(())
}

/// STQ R31 to nine lines: the ninth store finds eight entries.
const NINE_STORES: [u32; 9] = [
    0xB7FE_0000,
    0xB7FE_0040,
    0xB7FE_0080,
    0xB7FE_00C0,
    0xB7FE_0100,
    0xB7FE_0140,
    0xB7FE_0180,
    0xB7FE_01C0,
    0xB7FE_0200,
];

#[test]
fn full_buffer_offers_its_entries(rt: HostRuntime) -> Result<(), Fail> {
    const EIGHT_STORES: [Act; 18] = [
        Act::Fill,
        Act::Step,
        Act::Step,
        Act::Step,
        Act::Step,
        Act::Step,
        Act::Step,
        Act::Step,
        Act::Step,
        Act::Step,
        Act::Step,
        Act::Step,
        Act::Step,
        Act::Step,
        Act::Step,
        Act::Step,
        Act::Step,
        Act::Step,
    ];
    let (a, _) = both()?;
    let mut machine = start_with(rt.alloc(), &NINE_STORES, 40)?;
    assert!(rt; makes(&mut machine, a, &EIGHT_STORES));
    let full = Offered {
        drains: 8,
        drops: CODE_ALONE,
        ..NOTHING
    };
    let drained = Offered {
        step: true,
        drains: 7,
        ..full
    };
    assert!(rt; offers(&machine, a, &full));
    let drains = [
        (a, Act::Step, Expected::NotLegal),
        (a, Act::Drain(8), Expected::NotLegal),
        (a, Act::Drain(0), Expected::Drained(STACK, 1)),
    ];
    assert_eq!(rt; first_difference(&mut machine, &drains), None);
    assert!(rt; offers(&machine, a, &drained));
    let stored = [(a, Act::Step, Expected::WrittenAs(STACK + 0x200, 0, 9))];
    assert_eq!(rt; first_difference(&mut machine, &stored), None);
    Ok(())
}

/// LDQ R1, displacement(R30): loads from sixteen lines of bank d0, and one from a seventeenth.
fn many_loads() -> [u32; 17] {
    let mut words = [0xA43E_0000; 17];
    for n in 0..words.len() {
        words[n] = 0xA43E_0000 | (n as u32).wrapping_mul(0x80);
    }
    words
}

/// The addresses of those loads, but for the last one, and of the fetches that they need.
const LOADED: [u64; 33] = [
    0x2000, 0x4000, 0x2004, 0x4080, 0x2008, 0x4100, 0x200C, 0x4180, 0x2010, 0x4200, 0x2014, 0x4280,
    0x2018, 0x4300, 0x201C, 0x4380, 0x2020, 0x4400, 0x2024, 0x4480, 0x2028, 0x4500, 0x202C, 0x4580,
    0x2030, 0x4600, 0x2034, 0x4680, 0x2038, 0x4700, 0x203C, 0x4780, 0x2040,
];

/// The sixteen copies of bank d0, and the program's two lines.
const HELD: &[(Bank, u64)] = &[
    (Bank::Even, 0x4000),
    (Bank::Even, 0x4080),
    (Bank::Even, 0x4100),
    (Bank::Even, 0x4180),
    (Bank::Even, 0x4200),
    (Bank::Even, 0x4280),
    (Bank::Even, 0x4300),
    (Bank::Even, 0x4380),
    (Bank::Even, 0x4400),
    (Bank::Even, 0x4480),
    (Bank::Even, 0x4500),
    (Bank::Even, 0x4580),
    (Bank::Even, 0x4600),
    (Bank::Even, 0x4680),
    (Bank::Even, 0x4700),
    (Bank::Even, 0x4780),
    (Bank::Code, 0x2000),
    (Bank::Code, 0x2040),
];

#[test]
fn full_bank_is_needed(rt: HostRuntime) -> Result<(), Fail> {
    let (a, _) = both()?;
    let mut machine = start_with(rt.alloc(), &many_loads(), 40)?;
    let full = Offered {
        drops: HELD,
        needs: Some(Bank::Even),
        ..NOTHING
    };
    let dropped = Offered {
        fill: true,
        drops: &[(Bank::Code, 0x2000), (Bank::Code, 0x2040)],
        ..NOTHING
    };
    let filled = Offered {
        step: true,
        ..NOTHING
    };
    assert!(rt; goes_by(&mut machine, a, &LOADED));
    assert!(rt; offers(&machine, a, &full));
    let drops = [
        (a, Act::Fill, Expected::NotLegal),
        (a, Act::Drop(Bank::Even, Line::of(0x4380)), Expected::Done),
    ];
    assert_eq!(rt; first_difference(&mut machine, &drops), None);
    assert!(rt; offers(&machine, a, &dropped));
    let fills = [
        (
            a,
            Act::Drop(Bank::Even, Line::of(0x4400)),
            Expected::NotLegal, // one since the last step is enough
        ),
        (a, Act::Fill, Expected::LineFilled(0x4800)),
    ];
    assert_eq!(rt; first_difference(&mut machine, &fills), None);
    assert!(rt; offers(&machine, a, &filled));
    Ok(())
}

/// A budget of 33 steps is spent with the seventeenth load's fetch: the load still waits.
#[test]
fn spent_processor_needs_a_bank(rt: HostRuntime) -> Result<(), Fail> {
    let (a, _) = both()?;
    let mut machine = start_with(rt.alloc(), &many_loads(), 33)?;
    let spent = Offered {
        spent: true,
        needs: Some(Bank::Even),
        ..NOTHING
    };
    assert!(rt; goes_by(&mut machine, a, &LOADED));
    assert!(rt; offers(&machine, a, &spent));
    Ok(())
}

/// Both processors store and load; then the first one's write reaches memory, and later the other's.
#[test]
fn late_invalidation_is_offered(rt: HostRuntime) -> Result<(), Fail> {
    let (a, b) = both()?;
    let mut machine = start_with(rt.alloc(), &STORE_AND_LOAD, 7)?;
    assert!(rt; makes(&mut machine, a, &STORES_AND_LOADS));
    assert!(rt; makes(&mut machine, b, &STORES_AND_LOADS[..7]));
    let ready = Offered {
        step: true,
        drains: 1,
        drops: &[(Bank::Even, STACK), (Bank::Code, CODE)],
        poll: true,
        ..NOTHING
    };
    let late = Offered {
        late: (true, false),
        ..ready
    };
    let halted = Offered {
        spent: true,
        drains: 1,
        ..NOTHING
    };
    assert!(rt; offers(&machine, a, &halted));
    assert!(rt; offers(&machine, b, &ready));
    assert!(rt; makes(&mut machine, a, &[Act::Drain(0)]));
    assert!(rt; offers(&machine, b, &late));
    assert!(rt; makes(&mut machine, b, &[Act::Take(Bank::Even)]));
    assert!(rt;
        offers(
            &machine,
            b,
            &Offered {
                drops: CODE_ALONE,
                ..ready
            }
        )
    );
    Ok(())
}
