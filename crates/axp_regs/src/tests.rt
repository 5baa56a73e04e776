use super::*;
use std::test::*;

#[test]
fn first_state_is_that_of_the_start(rt: HostRuntime) {
    let state = State::new(5);
    assert_eq!(rt; (state.number(), state.ps(), state.pc()), (5, 7, 0));
    assert_eq!(rt; (state.asn(), state.offset(), state.fetched()), (0, 0, 0));
    assert_eq!(rt; (state.fen(), state.locked()), (false, false));
    assert_eq!(rt; (state.get(0), state.get(30), state.entry(0)), (0, 0, 0));
}

#[test]
fn registers_hold_what_is_written(rt: HostRuntime) {
    let mut state = State::new(5);
    state.set(30, 0xFFFF_FC00_0000_4000);
    state.set(31, 1);
    assert_eq!(rt; state.get(30), 0xFFFF_FC00_0000_4000);
    assert_eq!(rt; (state.get(31), state.get(0)), (0, 0));
    state.set_entry(5, 0x3000);
    assert_eq!(rt; (state.entry(5), state.entry(4)), (0x3000, 0));
}

#[test]
fn fields_hold_what_is_written(rt: HostRuntime) {
    let mut state = State::new(0);
    state.set_pc(0x2000);
    state.set_ps(8);
    state.set_ksp(0x3000);
    state.set_usp(0x4000);
    assert_eq!(rt; (state.pc(), state.ps()), (0x2000, 8));
    assert_eq!(rt; (state.ksp(), state.usp()), (0x3000, 0x4000));
    state.set_kgp(0x5000);
    state.set_ptbr(6);
    state.set_pcbb(0x7000);
    assert_eq!(rt;
        (state.kgp(), state.ptbr(), state.pcbb()),
        (0x5000, 6, 0x7000)
    );
    state.set_asn(0xFFFF_FFFF);
    state.set_offset(3);
    state.set_fetched(4);
    assert_eq!(rt;
        (state.asn(), state.offset(), state.fetched()),
        (0xFFFF_FFFF, 3, 4)
    );
    state.set_unique(u64::MAX);
    state.set_sysvalue(9);
    state.set_vptptr(0x10_0000);
    assert_eq!(rt;
        (state.unique(), state.sysvalue(), state.vptptr()),
        (u64::MAX, 9, 0x10_0000)
    );
    state.set_fen(true);
    state.set_locked(true);
    assert_eq!(rt; (state.fen(), state.locked()), (true, true));
    state.set_locked(false);
    assert_eq!(rt; state.locked(), false);
}
