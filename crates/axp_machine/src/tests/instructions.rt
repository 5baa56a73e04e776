use super::runs::first_other;
use super::tables::{Expected, both, first_difference, register, start};
use super::*;

/// Fills the code bank and makes so many steps; whether all of that was legal.
fn runs(machine: &mut Machine, cpu: Cpu, steps: u32) -> bool {
    let mut legal = machine.event(Event {
        cpu,
        act: Act::Fill,
    });
    for _ in 0..steps {
        if legal.is_err() {
            return false;
        }
        legal = machine.event(Event {
            cpu,
            act: Act::Step,
        });
    }
    legal.is_ok()
}

/// RPCC R1; TRAPB; RPCC R2; RPCC R31; halt: the fetch of RPCC itself is counted.
#[test]
fn fetches_are_counted(rt: HostRuntime) -> Result<(), Fail> {
    let (a, _) = both()?;
    let words = [0x6020_C000, 0x6000_0000, 0x6040_C000, 0x63E0_C000, 0];
    let mut machine = start(rt.alloc(), &words)?;
    assert!(rt; runs(&mut machine, a, 5));
    assert_eq!(rt; first_other(&machine, a, &[(1, 1), (2, 3), (31, 0)]), None);
    Ok(())
}

/// LDA R1, 0x1234(R31); STQ_U R1, offset(R30); LDQ_U R2, offset(R30); halt: both are made of the
/// quadword that has the byte.
#[test]
fn any_byte_names_its_quadword(rt: HostRuntime) -> Result<(), Fail> {
    let (a, _) = both()?;
    for offset in [0_u16, 1, 2, 3, 4, 5, 6, 7] {
        let store = 0x3C3E_0000 | u32::from(offset);
        let load = 0x2C5E_0000 | u32::from(offset);
        let mut machine = start(rt.alloc(), &[0x203F_1234, store, load, 0])?;
        let events = [
            (a, Act::Fill, Expected::CodeFilled),
            (a, Act::Step, Expected::Word(0x2000, 0x203F_1234)),
            (a, Act::Step, Expected::Word(0x2004, store)),
            (a, Act::Step, Expected::Written(STACK, 0x1234)),
            (a, Act::Step, Expected::Word(0x2008, load)),
            (a, Act::Drain(0), Expected::Drained(STACK, 1)),
            (a, Act::Fill, Expected::Filled(1)),
            (a, Act::Step, Expected::Read(STACK, 0x1234, 1)),
        ];
        assert_eq!(rt; first_difference(&mut machine, &events), None);
        assert_eq!(rt; register(&machine, a, 2), Some(0x1234));
    }
    Ok(())
}

/// LDBU, LDWU, LDL, LDQ and LDQ_U of R31, -1(R31); halt: none makes an access, although the address
/// is not a multiple of any size and lies outside of memory.
#[test]
fn loads_into_r31_do_nothing(rt: HostRuntime) -> Result<(), Fail> {
    let (a, _) = both()?;
    let words = [
        0x2BFF_FFFF,
        0x33FF_FFFF,
        0xA3FF_FFFF,
        0xA7FF_FFFF,
        0x2FFF_FFFF,
        0,
    ];
    let mut machine = start(rt.alloc(), &words)?;
    assert!(rt; runs(&mut machine, a, 6));
    assert!(rt; a.number() < machine.cpus());
    assert_eq!(rt; machine.halted(a), Some(1));
    assert_eq!(rt; first_other(&machine, a, &[(31, 0)]), None);
    Ok(())
}

/// BIS R31, 0xFF, R1; ADDQ R31, 0x80, R2; SUBQ R31, 0xFF, R3; halt: a literal has no sign.
#[test]
fn literals_are_zero_extended(rt: HostRuntime) -> Result<(), Fail> {
    let (a, _) = both()?;
    let words = [0x47FF_F401, 0x43F0_1402, 0x43FF_F523, 0];
    let mut machine = start(rt.alloc(), &words)?;
    assert!(rt; runs(&mut machine, a, 4));
    let values = [(1, 0xFF), (2, 0x80), (3, 0xFFFF_FFFF_FFFF_FF01)];
    assert_eq!(rt; first_other(&machine, a, &values), None);
    Ok(())
}
