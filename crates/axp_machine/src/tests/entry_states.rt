//! How far the entries of write buffers have come.
use super::tables::{both, makes, start};
use super::*;
use axp_access::EntryState;

/// LDA R1, 1(R31); STQ R1, 0(R30); WMB; STQ R1, 64(R30); halt: two entries, in two groups.
const TWO_GROUPS: [u32; 5] = [0x203F_0001, 0xB43E_0000, 0x6000_4400, 0xB43E_0040, 0];

/// How far the entries 0 to 3 of a processor have come.
fn states(machine: &Machine, cpu: Cpu) -> [EntryState; 4] {
    [
        machine.entry(cpu, 0),
        machine.entry(cpu, 1),
        machine.entry(cpu, 2),
        machine.entry(cpu, 3),
    ]
}

#[test]
fn entries_are_written_and_then_drained(rt: HostRuntime) -> Result<(), Fail> {
    let (unwritten, waiting, drained) = (
        EntryState::Unwritten,
        EntryState::Waiting,
        EntryState::Drained,
    );
    let (a, b) = both()?;
    let none = Cpu::new(2).ok_or("2 is a processor's number")?;
    let mut machine = start(rt.alloc(), &TWO_GROUPS)?;
    assert!(rt; makes(&mut machine, a, &[Act::Fill, Act::Step, Act::Step]));
    assert_eq!(rt; states(&machine, a), [unwritten; 4]);
    // the store; the write barrier leaves its entry waiting
    assert!(rt; makes(&mut machine, a, &[Act::Step, Act::Step, Act::Step]));
    assert_eq!(rt;
        states(&machine, a),
        [unwritten, waiting, unwritten, unwritten]
    );
    assert!(rt; makes(&mut machine, a, &[Act::Step, Act::Step]));
    assert_eq!(rt;
        states(&machine, a),
        [unwritten, waiting, waiting, unwritten]
    );
    assert!(rt; makes(&mut machine, a, &[Act::Drain(0)]));
    assert_eq!(rt;
        states(&machine, a),
        [unwritten, drained, waiting, unwritten]
    );
    assert!(rt; makes(&mut machine, a, &[Act::Drain(0)]));
    assert_eq!(rt;
        states(&machine, a),
        [unwritten, drained, drained, unwritten]
    );
    for other in [b, none] {
        assert_eq!(rt; states(&machine, other), [unwritten; 4]);
    }
    Ok(())
}
