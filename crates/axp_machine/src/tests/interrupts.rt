//! Interrupts: the clock's, those between processors with the signals that request them, and the
//! console's bytes.
use super::runs::{KERNEL, accesses, first_other, stands, start_over};
use super::tables::{Expected, both, first_difference, register, start};
use super::*;

/// swpipl: the level becomes R16 modulo 8.
const SET_LEVEL: u32 = 0x35;

/// wripir: a signal to the processor of number R16.
const SIGNAL: u32 = 0x0D;

/// cserve: the low byte of R17 to the console, where R16 is 1.
const SERVICE: u32 = 0x09;

/// LDA R30, 4(R30): a frame at the stack is then no multiple of a quadword's bytes.
const ODD_STACK: u32 = 0x23DE_0004;

/// The address at which the frame of an entry from the first stack begins.
const FRAME: u64 = STACK - 48;

/// swpipl, to level 0; bpt.
#[test]
fn no_interrupt_falls_inside_an_entry(rt: HostRuntime) -> Result<(), Fail> {
    let (a, _) = both()?;
    let mut machine = start(rt.alloc(), &[SET_LEVEL, 0x80])?;
    let events = [
        (a, Act::Tick, Expected::NotLegal), // at level 7
        (a, Act::Fill, Expected::CodeFilled),
        (a, Act::Tick, Expected::NotLegal), // only the step is legal after a fill
        (a, Act::Poll, Expected::NotLegal),
        (a, Act::Step, Expected::Word(0x2000, SET_LEVEL)),
        (a, Act::Step, Expected::Word(0x2004, 0x80)),
        (a, Act::Tick, Expected::NotLegal), // the entry is pending
        (a, Act::Poll, Expected::NotLegal),
        (a, Act::Step, Expected::Written(FRAME, 0)),
        (a, Act::Tick, Expected::NotLegal), // between two writes of its frame
        (a, Act::Poll, Expected::NotLegal),
    ];
    assert_eq!(rt; first_difference(&mut machine, &events), None);
    Ok(())
}

/// swpipl, to level 0; halt. The tick comes between them.
#[test]
fn tick_begins_an_entry(rt: HostRuntime) -> Result<(), Fail> {
    let (a, _) = both()?;
    let mut machine = start(rt.alloc(), &[SET_LEVEL, 0])?;
    let events = [
        (a, Act::Fill, Expected::CodeFilled),
        (a, Act::Step, Expected::Word(0x2000, SET_LEVEL)),
        (a, Act::Tick, Expected::Done),
        (a, Act::Tick, Expected::NotLegal), // the entry is pending
        (a, Act::Poll, Expected::NotLegal),
        (a, Act::Step, Expected::Written(FRAME, 0)),
        (a, Act::Step, Expected::Written(FRAME + 8, KERNEL + 0x2004)),
        (a, Act::Step, Expected::Written(FRAME + 16, 0)),
        (a, Act::Step, Expected::Written(FRAME + 24, 0)),
        (a, Act::Step, Expected::Written(FRAME + 32, 0)),
        (a, Act::Step, Expected::Written(FRAME + 40, 0)),
        (a, Act::Tick, Expected::NotLegal), // at level 5
        (a, Act::Poll, Expected::Polled(false, false, 0)),
    ];
    let registers = [(0, 7), (16, 1), (17, 0), (18, 0), (30, KERNEL + FRAME)];
    assert_eq!(rt; first_difference(&mut machine, &events), None);
    assert!(rt; stands(&machine, a, 7, 0, None));
    assert_eq!(rt; first_other(&machine, a, &registers), None);
    Ok(())
}

/// LDA R16, -0x5FE0(R30); wrent, of the entry of interrupts; LDA R16, 0(R31); swpipl, to level 0;
/// LDQ_L R1, 64(R30); STQ_C R2, 64(R30); and at the entry rdps; rti. The clock comes between the
/// load-locked and the store-conditional, which fails; the level is 5 in the entry and 0 behind it.
#[test]
fn handler_returns_to_what_it_interrupted(rt: HostRuntime) -> Result<(), Fail> {
    let words = [
        0x221E_A020,
        0x34,
        0x221F_0000,
        SET_LEVEL,
        0xAC3E_0040,
        0xBC5E_0040,
        0,
        0,
        0x36,
        0x3F,
    ];
    let before = [
        (0x2000, 0x221E_A020),
        (0x2004, 0x34),
        (0x2008, 0x221F_0000),
        (0x200C, u64::from(SET_LEVEL)),
        (0x2010, 0xAC3E_0040),
        (0x8040, 0),
    ];
    let frame = [
        (0x7FD0, 0),
        (0x7FD8, KERNEL + 0x2014),
        (0x7FE0, 0),
        (0x7FE8, 0),
        (0x7FF0, 0),
        (0x7FF8, 0),
    ];
    let registers = [(0, 5), (2, 0), (16, 0), (30, KERNEL + 0x8000)];
    let (a, _) = both()?;
    let mut machine = start_over(rt.alloc(), &words, &[])?;
    assert!(rt; accesses(&mut machine, a, &before));
    assert_eq!(rt;
        first_difference(&mut machine, &[(a, Act::Tick, Expected::Done)]),
        None
    );
    assert!(rt; accesses(&mut machine, a, &frame));
    assert_eq!(rt;
        first_difference(&mut machine, &[(a, Act::Tick, Expected::NotLegal)]),
        None
    );
    assert_eq!(rt; register(&machine, a, 16), Some(1));
    assert!(rt; accesses(&mut machine, a, &[(0x2020, 0x36), (0x2024, 0x3F)]));
    assert!(rt; accesses(&mut machine, a, &frame));
    assert!(rt; accesses(&mut machine, a, &[(0x2014, 0xBC5E_0040), (0x8040, 0)]));
    assert!(rt; stands(&machine, a, 22, KERNEL + 0x2018, None));
    assert_eq!(rt; first_other(&machine, a, &registers), None);
    assert_eq!(rt;
        first_difference(&mut machine, &[(a, Act::Tick, Expected::Done)]),
        None
    );
    Ok(())
}

/// Two words, the stack pointer behind them, and the halt code; then swpipl, to level 0. The
/// registers and the program counter stay as they were.
#[test]
fn interrupt_halts_where_its_frame_cannot_be_written(rt: HostRuntime) -> Result<(), Fail> {
    let (a, _) = both()?;
    for (first, second, stack, code) in [
        (ODD_STACK, 0x6000_0000, STACK + 4, 2), // LDA R30, 4(R30); TRAPB
        (0x23DE_4000, 0x23DE_0030, 2 * STACK + 48, 4), // LDA R30, 0x4000(R30); LDA R30, 48(R30)
    ] {
        let (first, second): (u32, u32) = (first, second);
        let mut machine = start(rt.alloc(), &[first, second, SET_LEVEL, 0])?;
        let events = [
            (a, Act::Fill, Expected::CodeFilled),
            (a, Act::Step, Expected::Word(0x2000, first)),
            (a, Act::Step, Expected::Word(0x2004, second)),
            (a, Act::Step, Expected::Word(0x2008, SET_LEVEL)),
            (a, Act::Tick, Expected::Done),
            (a, Act::Tick, Expected::NotLegal), // it is halted
            (a, Act::Poll, Expected::NotLegal),
            (a, Act::Step, Expected::NotLegal),
        ];
        let registers = [(16, 0), (17, 0), (29, 0), (30, KERNEL + stack)];
        assert_eq!(rt; first_difference(&mut machine, &events), None);
        assert!(rt; stands(&machine, a, 3, KERNEL + 0x200C, Some(code)));
        assert_eq!(rt; first_other(&machine, a, &registers), None);
    }
    Ok(())
}

/// LDA R30, 4(R30); swpipl, to level 0; wripir, to itself. The poll shows the signal, begins the
/// entry and halts.
#[test]
fn poll_halts_where_its_frame_cannot_be_written(rt: HostRuntime) -> Result<(), Fail> {
    let (a, _) = both()?;
    let mut machine = start(rt.alloc(), &[ODD_STACK, SET_LEVEL, SIGNAL, 0])?;
    let events = [
        (a, Act::Fill, Expected::CodeFilled),
        (a, Act::Step, Expected::Word(0x2000, ODD_STACK)),
        (a, Act::Step, Expected::Word(0x2004, SET_LEVEL)),
        (a, Act::Step, Expected::Word(0x2008, SIGNAL)),
        (a, Act::Step, Expected::Signalled(0, 1)),
        (a, Act::Poll, Expected::Polled(true, true, 1)),
        (a, Act::Step, Expected::NotLegal),
    ];
    assert_eq!(rt; first_difference(&mut machine, &events), None);
    assert!(rt; stands(&machine, a, 4, KERNEL + 0x200C, Some(2)));
    Ok(())
}

/// swpipl, to level 0; wripir, to itself; halt. The entry's cause is 0, and the request is gone.
#[test]
fn signal_to_itself_is_polled(rt: HostRuntime) -> Result<(), Fail> {
    let (a, _) = both()?;
    let mut machine = start(rt.alloc(), &[SET_LEVEL, SIGNAL, 0])?;
    let events = [
        (a, Act::Fill, Expected::CodeFilled),
        (a, Act::Step, Expected::Word(0x2000, SET_LEVEL)),
        (a, Act::Step, Expected::Word(0x2004, SIGNAL)),
        (a, Act::Poll, Expected::NotLegal), // the signal is still to be made
        (a, Act::Step, Expected::Signalled(0, 1)),
        (a, Act::Poll, Expected::Polled(true, true, 1)),
        (a, Act::Poll, Expected::NotLegal), // the entry is pending
        (a, Act::Step, Expected::Written(FRAME, 0)),
        (a, Act::Step, Expected::Written(FRAME + 8, KERNEL + 0x2008)),
        (a, Act::Step, Expected::Written(FRAME + 16, 0)),
        (a, Act::Step, Expected::Written(FRAME + 24, 0)),
        (a, Act::Step, Expected::Written(FRAME + 32, 0)),
        (a, Act::Step, Expected::Written(FRAME + 40, 0)),
        (a, Act::Poll, Expected::Polled(false, false, 1)),
    ];
    let registers = [(16, 0), (17, 0), (18, 0), (30, KERNEL + FRAME)];
    assert_eq!(rt; first_difference(&mut machine, &events), None);
    assert!(rt; stands(&machine, a, 9, 0, None));
    assert_eq!(rt; first_other(&machine, a, &registers), None);
    Ok(())
}

/// wripir, to itself, at level 7; halt.
#[test]
fn second_poll_after_a_step_is_refused(rt: HostRuntime) -> Result<(), Fail> {
    let (a, _) = both()?;
    let mut machine = start(rt.alloc(), &[SIGNAL, 0])?;
    let events = [
        (a, Act::Fill, Expected::CodeFilled),
        (a, Act::Step, Expected::Word(0x2000, SIGNAL)),
        (a, Act::Step, Expected::Signalled(0, 1)),
        (a, Act::Poll, Expected::Polled(true, false, 1)),
        (a, Act::Poll, Expected::NotLegal),
    ];
    assert_eq!(rt; first_difference(&mut machine, &events), None);
    Ok(())
}

/// LDA R16, 5(R31); swpipl; LDA R16, 0(R31); wripir, to itself; LDA R16, 4(R31); swpipl. The request
/// waits until the level is below 5.
#[test]
fn request_waits_at_level_5(rt: HostRuntime) -> Result<(), Fail> {
    let (a, _) = both()?;
    let words = [
        0x221F_0005,
        SET_LEVEL,
        0x221F_0000,
        SIGNAL,
        0x221F_0004,
        SET_LEVEL,
    ];
    let mut machine = start(rt.alloc(), &words)?;
    let events = [
        (a, Act::Fill, Expected::CodeFilled),
        (a, Act::Step, Expected::Word(0x2000, 0x221F_0005)),
        (a, Act::Step, Expected::Word(0x2004, SET_LEVEL)),
        (a, Act::Step, Expected::Word(0x2008, 0x221F_0000)),
        (a, Act::Step, Expected::Word(0x200C, SIGNAL)),
        (a, Act::Step, Expected::Signalled(0, 1)),
        (a, Act::Tick, Expected::NotLegal),
        (a, Act::Poll, Expected::Polled(true, false, 1)),
        (a, Act::Step, Expected::Word(0x2010, 0x221F_0004)),
        (a, Act::Poll, Expected::Polled(true, false, 1)),
        (a, Act::Step, Expected::Word(0x2014, SET_LEVEL)),
        (a, Act::Poll, Expected::Polled(true, true, 1)),
        (a, Act::Step, Expected::Written(FRAME, 4)),
    ];
    assert_eq!(rt; first_difference(&mut machine, &events), None);
    Ok(())
}

/// LDA R16, 1(R31); wripir; LDA R16, 2(R31); wripir, to a processor that there is not; halt.
#[test]
fn signal_reaches_its_processor_alone(rt: HostRuntime) -> Result<(), Fail> {
    let (a, b) = both()?;
    let words = [0x221F_0001, SIGNAL, 0x221F_0002, SIGNAL, 0];
    let mut machine = start(rt.alloc(), &words)?;
    let events = [
        (b, Act::Poll, Expected::Polled(false, false, 0)),
        (b, Act::Fill, Expected::CodeFilled),
        (b, Act::Step, Expected::Word(0x2000, 0x221F_0001)),
        (a, Act::Fill, Expected::CodeFilled),
        (a, Act::Step, Expected::Word(0x2000, 0x221F_0001)),
        (a, Act::Step, Expected::Word(0x2004, SIGNAL)),
        (a, Act::Step, Expected::Signalled(1, 1)),
        (a, Act::Poll, Expected::Polled(false, false, 1)),
        (b, Act::Poll, Expected::Polled(true, false, 1)),
        (a, Act::Step, Expected::Word(0x2008, 0x221F_0002)),
        (a, Act::Step, Expected::Word(0x200C, SIGNAL)),
        (a, Act::Step, Expected::Word(0x2010, 0)),
        (b, Act::Step, Expected::Word(0x2004, SIGNAL)),
        (b, Act::Step, Expected::Signalled(1, 2)),
        (b, Act::Poll, Expected::Polled(true, false, 2)),
    ];
    assert_eq!(rt; first_difference(&mut machine, &events), None);
    assert!(rt; stands(&machine, a, 6, KERNEL + 0x2014, Some(1)));
    Ok(())
}

/// STQ R1, 0(R30); wripir, to itself; WMB; wripir. The first signal passes the write, the second
/// waits for it.
#[test]
fn signal_waits_for_writes_ahead_of_a_barrier(rt: HostRuntime) -> Result<(), Fail> {
    let (a, _) = both()?;
    let mut machine = start(rt.alloc(), &[0xB43E_0000, SIGNAL, 0x6000_4400, SIGNAL])?;
    let passes = [
        (a, Act::Fill, Expected::CodeFilled),
        (a, Act::Step, Expected::Word(0x2000, 0xB43E_0000)),
        (a, Act::Step, Expected::Written(STACK, 0)),
        (a, Act::Step, Expected::Word(0x2004, SIGNAL)),
        (a, Act::Step, Expected::Signalled(0, 1)),
        (a, Act::Step, Expected::Word(0x2008, 0x6000_4400)),
    ];
    let waits = [
        (a, Act::Step, Expected::Word(0x200C, SIGNAL)),
        (a, Act::Step, Expected::NotLegal),
        (a, Act::Drain(0), Expected::Drained(STACK, 2)),
        (a, Act::Step, Expected::Signalled(0, 3)),
    ];
    assert_eq!(rt; first_difference(&mut machine, &passes), None);
    assert!(rt; makes(&mut machine, a, &[Act::Step])); // the barrier
    assert_eq!(rt; first_difference(&mut machine, &waits), None);
    Ok(())
}

/// LDA R16, 1(R31); LDA R17, 0x14B(R31); cserve; LDA R17, 0x36(R31); cserve; LDA R16, 2(R31);
/// cserve, which then is no service.
#[test]
fn console_takes_the_low_bytes(rt: HostRuntime) -> Result<(), Fail> {
    let (a, _) = both()?;
    let words = [
        0x221F_0001,
        0x223F_014B,
        SERVICE,
        0x223F_0036,
        SERVICE,
        0x221F_0002,
        SERVICE,
    ];
    let mut machine = start(rt.alloc(), &words)?;
    let events = [
        (a, Act::Fill, Expected::CodeFilled),
        (a, Act::Step, Expected::Word(0x2000, 0x221F_0001)),
        (a, Act::Step, Expected::Word(0x2004, 0x223F_014B)),
        (a, Act::Step, Expected::Word(0x2008, SERVICE)),
        (a, Act::Poll, Expected::NotLegal), // the byte is still to be sent
        (a, Act::Step, Expected::Printed(0x4B, 0)),
        (a, Act::Poll, Expected::Polled(false, false, 0)),
        (a, Act::Step, Expected::Word(0x200C, 0x223F_0036)),
        (a, Act::Step, Expected::Word(0x2010, SERVICE)),
        (a, Act::Step, Expected::Printed(0x36, 0)),
        (a, Act::Step, Expected::Word(0x2014, 0x221F_0002)),
        (a, Act::Step, Expected::Word(0x2018, SERVICE)),
        (a, Act::Step, Expected::Written(FRAME, 7)),
        (a, Act::Step, Expected::Written(FRAME + 8, KERNEL + 0x201C)),
    ];
    assert_eq!(rt; first_difference(&mut machine, &events), None);
    Ok(())
}
