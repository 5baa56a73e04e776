use super::tables::{Expected, both, first_difference, register, start};
use super::*;

/// LDQ_L R2, 0(R30).
const LOCK_R2: u32 = 0xAC5E_0000;

/// STQ_C R1, 0(R30).
const CONDITIONAL: u32 = 0xBC3E_0000;

/// STQ_C R1, 8(R30).
const CONDITIONAL_8: u32 = 0xBC3E_0008;

/// STQ_C R1, 16(R30).
const CONDITIONAL_16: u32 = 0xBC3E_0010;

/// LDQ_L R2, 0(R30); LDA R1, 7(R31); STQ_C R1, 8(R30); LDQ R3, 8(R30); halt. The load finds what
/// was stored in the copy that the load-locked brought.
#[test]
fn conditional_to_the_locked_block_stores(rt: HostRuntime) -> Result<(), Fail> {
    let (a, _) = both()?;
    let words = [LOCK_R2, 0x203F_0007, CONDITIONAL_8, 0xA47E_0008, 0];
    let mut machine = start(rt.alloc(), &words)?;
    let events = [
        (a, Act::Fill, Expected::CodeFilled),
        (a, Act::Step, Expected::Word(0x2000, LOCK_R2)),
        (a, Act::Step, Expected::Locked(STACK, 8, 0)),
        (a, Act::Step, Expected::Word(0x2004, 0x203F_0007)),
        (a, Act::Step, Expected::Word(0x2008, CONDITIONAL_8)),
        (
            a,
            Act::Step,
            Expected::Conditional(STACK + 8, 8, 7, true, 1),
        ),
        (a, Act::Step, Expected::Word(0x200C, 0xA47E_0008)),
        (a, Act::Step, Expected::Read(STACK + 8, 7, 1)),
    ];
    assert_eq!(rt; first_difference(&mut machine, &events), None);
    assert_eq!(rt; register(&machine, a, 1), Some(1));
    assert_eq!(rt; register(&machine, a, 3), Some(7));
    Ok(())
}

/// LDQ_L R2, 0(R30); STQ_C R1, 16(R30); STQ_C R1, 0(R30); halt.
#[test]
fn failed_conditional_releases_the_lock(rt: HostRuntime) -> Result<(), Fail> {
    let (a, _) = both()?;
    let mut machine = start(rt.alloc(), &[LOCK_R2, CONDITIONAL_16, CONDITIONAL, 0])?;
    let events = [
        (a, Act::Fill, Expected::CodeFilled),
        (a, Act::Step, Expected::Word(0x2000, LOCK_R2)),
        (a, Act::Step, Expected::Locked(STACK, 8, 0)),
        (a, Act::Step, Expected::Word(0x2004, CONDITIONAL_16)),
        (
            a,
            Act::Step,
            Expected::Conditional(STACK + 16, 8, 0, false, 0),
        ),
        (a, Act::Step, Expected::Word(0x2008, CONDITIONAL)),
        (a, Act::Step, Expected::Conditional(STACK, 8, 0, false, 0)),
    ];
    assert_eq!(rt; first_difference(&mut machine, &events), None);
    Ok(())
}

/// LDQ_L R2, 0(R30); LDQ_L R3, 16(R30); STQ_C R1, 16(R30) or STQ_C R1, 0(R30); halt.
#[test]
fn last_load_locked_counts(rt: HostRuntime) -> Result<(), Fail> {
    let (a, _) = both()?;
    for (word, at, yes, turn) in [
        (CONDITIONAL_16, STACK + 16, true, 1),
        (CONDITIONAL, STACK, false, 0),
    ] {
        let mut machine = start(rt.alloc(), &[LOCK_R2, 0xAC7E_0010, word, 0])?;
        let events = [
            (a, Act::Fill, Expected::CodeFilled),
            (a, Act::Step, Expected::Word(0x2000, LOCK_R2)),
            (a, Act::Step, Expected::Locked(STACK, 8, 0)),
            (a, Act::Step, Expected::Word(0x2004, 0xAC7E_0010)),
            (a, Act::Step, Expected::Locked(STACK + 16, 8, 0)),
            (a, Act::Step, Expected::Word(0x2008, word)),
            (a, Act::Step, Expected::Conditional(at, 8, 0, yes, turn)),
        ];
        assert_eq!(rt; first_difference(&mut machine, &events), None);
        assert_eq!(rt; register(&machine, a, 1), Some(u64::from(yes)));
    }
    Ok(())
}

/// LDL_L R1, -8192(R30), which reads the program's first word; LDL_L R31, 0(R30); STL_C R1, 4(R30);
/// halt.
#[test]
fn longwords_are_locked_and_stored(rt: HostRuntime) -> Result<(), Fail> {
    let (a, _) = both()?;
    let mut machine = start(rt.alloc(), &[0xA83E_E000, 0xABFE_0000, 0xB83E_0004, 0])?;
    let first = [
        (a, Act::Fill, Expected::CodeFilled),
        (a, Act::Step, Expected::Word(0x2000, 0xA83E_E000)),
        (a, Act::Step, Expected::Locked(CODE, 4, 0xA83E_E000)),
    ];
    assert_eq!(rt; first_difference(&mut machine, &first), None);
    assert_eq!(rt; register(&machine, a, 1), Some(0xFFFF_FFFF_A83E_E000));
    let others = [
        (a, Act::Step, Expected::Word(0x2004, 0xABFE_0000)),
        (a, Act::Step, Expected::Locked(STACK, 4, 0)),
        (a, Act::Step, Expected::Word(0x2008, 0xB83E_0004)),
        (
            a,
            Act::Step,
            Expected::Conditional(STACK + 4, 4, 0xA83E_E000, true, 1),
        ),
    ];
    assert_eq!(rt; first_difference(&mut machine, &others), None);
    assert_eq!(rt; register(&machine, a, 1), Some(1));
    Ok(())
}
