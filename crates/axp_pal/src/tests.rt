use super::*;
use axp_decode::PalOp;
use axp_pte::Pte;
use axp_regs::{Ask, Kind, State};
use axp_tb::Tb;
use axp_trap::{A0, A1, A2, Cause, GP, SP, V0, enter};
use std::process::Abort;
use std::test::*;

/// A state with this status and these first two arguments, in which all else that a call reads
/// differs.
fn state_at(ps: u64, a0: u64, a1: u64) -> State {
    let mut state = State::new(1);
    state.set_ps(ps);
    state.set_pc(0x2_0004);
    state.set(V0, 0xB0);
    state.set(A0, a0);
    state.set(A1, a1);
    state.set(A2, 0xA2);
    state.set(GP, 0x11);
    state.set(SP, 0x1000);
    state.set_ksp(0x8000);
    state.set_usp(0x5000);
    state.set_kgp(0x77);
    state.set_unique(0xE1);
    state.set_sysvalue(0x51);
    state.set_asn(1);
    state.set_locked(true);
    state
}

/// A translated read of a quadword, by its address.
fn read(address: u64) -> Ask {
    Ask {
        kind: Kind::Read,
        address,
        direct: false,
        size: 8,
        value: 0,
    }
}

/// The same of a physical address.
fn read_physical(address: u64) -> Ask {
    Ask {
        direct: true,
        ..read(address)
    }
}

/// A write to a physical address.
fn write_physical(address: u64, size: u8, value: u64) -> Ask {
    Ask {
        kind: Kind::Write,
        size,
        value,
        ..read_physical(address)
    }
}

/// An access that names no memory.
fn bare(kind: Kind, value: u64) -> Ask {
    Ask {
        kind,
        size: 0,
        value,
        ..read_physical(0)
    }
}

/// Whether a call in this state, one of two processors, makes these accesses and has this end.
fn plans(op: PalOp, state: &State, asks: &[Ask], end: PalEnd) -> bool {
    let plan = plan(op, state, 2);
    plan.asks.as_slice() == asks && plan.end == end
}

#[test]
fn privileged_calls_are_reserved_in_user_mode(rt: HostRuntime) {
    let user = state_at(8, 1, 2);
    let reserved = PalEnd::Enters(Cause::If { code: 4 });
    for op in [
        PalOp::HALT,
        PalOp::DRAINA,
        PalOp::CSERVE,
        PalOp::WRIPIR,
        PalOp::WRFEN,
        PalOp::WRVPTPTR,
        PalOp::SWPCTX,
        PalOp::WRVAL,
        PalOp::RDVAL,
        PalOp::TBI,
        PalOp::WRENT,
        PalOp::SWPIPL,
        PalOp::RDPS,
        PalOp::WRKGP,
        PalOp::WRUSP,
        PalOp::RDUSP,
        PalOp::WHAMI,
        PalOp::RETSYS,
        PalOp::RTI,
    ] {
        assert_eq!(rt; plans(op, &user, &[], reserved), true, "{op:?}");
    }
}

#[test]
fn calls_plan_their_accesses_and_their_end(rt: HostRuntime) {
    let kernel = state_at(7, 1, 0x14B);
    let user = state_at(8, 1, 0x14B);
    let fault = |code| PalEnd::Enters(Cause::If { code });
    for (op, end) in [
        (PalOp::HALT, PalEnd::Halts(1)),
        (PalOp::DRAINA, PalEnd::Ends),
        (PalOp::SWPIPL, PalEnd::Ends),
        (PalOp::BPT, fault(0)),
        (PalOp::BUGCHK, fault(1)),
        (PalOp::GENTRAP, fault(2)),
        (PalOp::CALLSYS, PalEnd::Halts(3)),
        (PalOp::RDUNIQUE, PalEnd::Ends),
    ] {
        assert_eq!(rt; plans(op, &kernel, &[], end), true, "{op:?}");
    }
    for (op, end) in [
        (PalOp::BPT, fault(0)),
        (PalOp::BUGCHK, fault(1)),
        (PalOp::GENTRAP, fault(2)),
        (PalOp::CALLSYS, PalEnd::Enters(Cause::Sys)),
        (PalOp::WRUNIQUE, PalEnd::Ends),
    ] {
        assert_eq!(rt; plans(op, &user, &[], end), true, "{op:?}");
    }
    let barrier = [bare(Kind::CodeBarrier, 0)];
    assert_eq!(rt; plans(PalOp::IMB, &user, &barrier, PalEnd::Ends), true);
    let byte = [bare(Kind::Console, 0x4B)];
    assert_eq!(rt; plans(PalOp::CSERVE, &kernel, &byte, PalEnd::Ends), true);
    let signal = [bare(Kind::Signal, 1)];
    assert_eq!(rt; plans(PalOp::WRIPIR, &kernel, &signal, PalEnd::Ends), true);
    let other = state_at(7, 2, 0x14B);
    assert_eq!(rt; plans(PalOp::CSERVE, &other, &[], fault(4)), true);
    assert_eq!(rt; plans(PalOp::WRIPIR, &other, &[], PalEnd::Ends), true);
    let call = [read(0x1008), read(0x1010)];
    assert_eq!(rt; plans(PalOp::RETSYS, &kernel, &call, PalEnd::Ends), true);
    let whole = [
        read(0x1000),
        read(0x1008),
        read(0x1010),
        read(0x1018),
        read(0x1020),
        read(0x1028),
    ];
    assert_eq!(rt; plans(PalOp::RTI, &kernel, &whole, PalEnd::Ends), true);
}

/// Finishes a call, where it ends and has one value for each access.
fn finish_in(op: PalOp, state: &mut State, values: &[u64], itb: &mut Tb, dtb: &mut Tb) {
    let plan = plan(op, state, 2);
    if let PalEnd::Ends = plan.end {
        if plan.asks.len() == values.len() {
            finish(op, state, values, itb, dtb);
        }
    }
}

/// The same where the buffers do not matter.
fn finish_at(op: PalOp, state: &mut State, values: &[u64]) {
    finish_in(op, state, values, &mut Tb::empty(), &mut Tb::empty());
}

/// The status, the five pointers and the program counter: PS, SP, USP, KSP, GP, KGP, PC.
fn pointers(state: &State) -> [u64; 7] {
    [
        state.ps(),
        state.get(SP),
        state.usp(),
        state.ksp(),
        state.get(GP),
        state.kgp(),
        state.pc(),
    ]
}

#[test]
fn a_call_of_the_operating_system_returns(rt: HostRuntime) {
    let mut state = state_at(8, 0xA0, 0xA1);
    state.set_entry(5, 0xFFFF_FC00_0000_3000);
    enter(Cause::Sys, &mut state);
    assert_eq!(rt;
        pointers(&state),
        [0, 0x7FD0, 0x1000, 0x8000, 0x77, 0x77, 0xFFFF_FC00_0000_3000]
    );
    state.set(V0, 0xB1);
    state.set_locked(true);
    finish_at(PalOp::RETSYS, &mut state, &[0x2_0004, 0x11]);
    assert_eq!(rt;
        pointers(&state),
        [8, 0x1000, 0x1000, 0x8000, 0x11, 0x77, 0x2_0004]
    );
    assert_eq!(rt;
        (state.get(V0), state.get(A0), state.get(A1)),
        (0xB1, 0xA0, 0xA1)
    );
    assert_eq!(rt; state.locked(), false);
}

#[test]
fn an_entry_returns_to_the_mode_that_was_saved(rt: HostRuntime) {
    let mut kernel = state_at(7, 0xA0, 0xA1);
    finish_at(PalOp::RTI, &mut kernel, &[0x13, 0x2_000B, 0x22, 3, 4, 5]);
    assert_eq!(rt;
        pointers(&kernel),
        [3, 0x1030, 0x5000, 0x8000, 0x22, 0x77, 0x2_0008]
    );
    assert_eq!(rt; (kernel.get(A0), kernel.get(A1), kernel.get(A2)), (3, 4, 5));
    assert_eq!(rt; kernel.locked(), false);
    let mut user = state_at(7, 0xA0, 0xA1);
    finish_at(PalOp::RTI, &mut user, &[0x1B, 0x2_0008, 0x22, 3, 4, 5]);
    assert_eq!(rt;
        pointers(&user),
        [8, 0x5000, 0x5000, 0x1030, 0x22, 0x77, 0x2_0008]
    );
    assert_eq!(rt; (user.get(A0), user.get(A1), user.get(A2)), (3, 4, 5));
    assert_eq!(rt; user.locked(), false);
}

#[test]
fn a_context_is_swapped(rt: HostRuntime) {
    let mut state = state_at(0, 0x40FF, 0);
    state.set_pcbb(0x2080);
    state.set_fetched(5);
    state.set_offset(0xFFFF_FFFE);
    let asks = [
        write_physical(0x2080, 8, 0x1000),
        write_physical(0x2088, 8, 0x5000),
        write_physical(0x2098, 4, 3),
        write_physical(0x20A0, 8, 0xE1),
        read_physical(0x4080),
        read_physical(0x4088),
        read_physical(0x4090),
        read_physical(0x4098),
        read_physical(0x40A0),
        read_physical(0x40A8),
    ];
    assert_eq!(rt; plans(PalOp::SWPCTX, &state, &asks, PalEnd::Ends), true);
    let values = [
        0,
        0,
        0,
        0,
        0x6000,
        0x7000,
        9,
        0x0000_0004_0000_0002,
        0xE2,
        3,
    ];
    finish_at(PalOp::SWPCTX, &mut state, &values);
    assert_eq!(rt; (state.get(V0), state.pcbb()), (0x2080, 0x4080));
    assert_eq!(rt;
        (state.get(SP), state.usp(), state.ptbr()),
        (0x6000, 0x7000, 9)
    );
    // the counter goes on from 2 after 5 instructions
    assert_eq!(rt;
        (state.asn(), state.offset(), state.fetched()),
        (4, 0xFFFF_FFFD, 5)
    );
    assert_eq!(rt; (state.unique(), state.fen()), (0xE2, true));
    assert_eq!(rt;
        pointers(&state),
        [0, 0x6000, 0x7000, 0x8000, 0x11, 0x77, 0x2_0004]
    );
    assert_eq!(rt; state.locked(), true);
}

#[test]
fn values_are_read_into_v0(rt: HostRuntime) {
    for (op, wanted) in [
        (PalOp::RDVAL, 0x51),
        (PalOp::SWPIPL, 6),
        (PalOp::RDPS, 6),
        (PalOp::RDUSP, 0x5000),
        (PalOp::WHAMI, 1),
        (PalOp::RDUNIQUE, 0xE1),
    ] {
        let mut state = state_at(6, 0x0B, 0);
        finish_at(op, &mut state, &[]);
        assert_eq!(rt; state.get(V0), wanted, "{op:?}");
    }
    let mut state = state_at(6, 0x0B, 0);
    finish_at(PalOp::SWPIPL, &mut state, &[]);
    assert_eq!(rt; state.ps(), 3);
}

#[test]
fn values_are_written_from_a0(rt: HostRuntime) {
    let mut state = state_at(0, 0x123F, 5);
    for op in [
        PalOp::WRFEN,
        PalOp::WRVPTPTR,
        PalOp::WRVAL,
        PalOp::WRENT,
        PalOp::WRKGP,
        PalOp::WRUSP,
        PalOp::WRUNIQUE,
    ] {
        finish_at(op, &mut state, &[]);
    }
    assert_eq!(rt;
        (state.fen(), state.vptptr(), state.sysvalue()),
        (true, 0x123F, 0x123F)
    );
    assert_eq!(rt;
        (state.entry(5), state.entry(4), state.kgp()),
        (0x123C, 0, 0x123F)
    );
    assert_eq!(rt; (state.usp(), state.unique()), (0x123F, 0x123F));
    let mut far = state_at(0, 0x123E, 6);
    finish_at(PalOp::WRENT, &mut far, &[]);
    finish_at(PalOp::WRFEN, &mut far, &[]);
    assert_eq!(rt; (far.entry(0), far.entry(5), far.fen()), (0, 0, false));
}

/// A buffer with pages 5 and 6 of process 1, page 5 of process 2, and page 7 of all.
fn full_buffer() -> Tb {
    let mut tb = Tb::empty();
    for (page, asn, word) in [
        (5, 1, 0x0000_0007_0000_1101),
        (6, 1, 0x0000_0008_0000_1101),
        (5, 2, 0x0000_0009_0000_1101),
        (7, 2, 0x0000_000A_0000_1111),
    ] {
        if tb.find(page, asn).is_none() {
            tb.put(page, asn, Pte::of(word));
        }
    }
    tb
}

/// Which of these four are found: page 5 of processes 1 and 2, page 6 of process 1, page 7.
fn found_in(tb: &Tb) -> [bool; 4] {
    [(5, 1), (5, 2), (6, 1), (7, 1)].map(|(page, asn)| tb.find(page, asn).is_some())
}

#[test]
fn translations_are_invalidated(rt: HostRuntime) {
    let all = [true, true, true, true];
    let without_page_5 = [false, true, true, true];
    let of_all = [false, false, false, true];
    for (a0, a1, in_instruction_buffer, in_data_buffer) in [
        (0xFFFF_FFFF_FFFF_FFFE, 0xA000, [false; 4], [false; 4]),
        (0xFFFF_FFFF_FFFF_FFFF, 0xA000, of_all, of_all),
        (1, 0xBFFF, without_page_5, all),
        (2, 0xA000, all, without_page_5),
        // bits 63:43 of the address do not matter
        (3, 0xFFFF_F800_0000_A000, without_page_5, without_page_5),
        (
            3,
            0xE000,
            [true, true, true, false],
            [true, true, true, false],
        ),
        (0, 0xA000, all, all),
        (4, 0xA000, all, all),
    ] {
        let mut itb = full_buffer();
        let mut dtb = full_buffer();
        let mut state = state_at(0, a0, a1);
        finish_in(PalOp::TBI, &mut state, &[], &mut itb, &mut dtb);
        assert_eq!(rt; found_in(&itb), in_instruction_buffer, "{a0:X} {a1:X}");
        assert_eq!(rt; found_in(&dtb), in_data_buffer, "{a0:X} {a1:X}");
        assert_eq!(rt; (state.get(A0), state.get(V0)), (a0, 0xB0));
    }
}
