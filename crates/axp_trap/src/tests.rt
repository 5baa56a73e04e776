use super::*;
use axp_pte::{MmFault, Mode, Way};
use axp_regs::{Kind, State};
use std::process::Abort;
use std::test::*;

/// The address of the entry of this number; that of entSys is FFFFFC0000003000.
fn address(n: u8) -> u64 {
    0xFFFF_FC00_0000_3500_u64.wrapping_sub(u64::from(n) * 0x100)
}

/// A state with this status, whose two stack pointers, global pointers and arguments all differ.
fn state_at(ps: u64) -> State {
    let mut state = State::new(1);
    state.set_ps(ps);
    state.set_pc(0x2_0004);
    state.set(GP, 0x11);
    state.set(SP, 0x1000);
    state.set(A0, 0xA0);
    state.set(A1, 0xA1);
    state.set(A2, 0xA2);
    state.set_ksp(0x8000);
    state.set_usp(0x5000);
    state.set_kgp(0x77);
    state.set_locked(true);
    for n in 0..6_u8 {
        state.set_entry(n, address(n));
    }
    state
}

/// What the accesses of a frame write, each with its address; `None` where one is not a translated
/// write of 8 bytes, or where there are other than these.
fn saves(cause: Cause, state: &State, words: &[(u64, u64)]) -> bool {
    let frame = frame(cause, state);
    let asks = frame.as_slice();
    let mut same = asks.len() == words.len();
    for (ask, word) in asks.iter().zip(words) {
        let is_write = ask.kind == Kind::Write && ask.size == 8 && !ask.direct;
        same = same && is_write && ask.address == word.0 && ask.value == word.1;
    }
    same
}

#[test]
fn a_call_from_user_mode_saves_three_words_below_the_kernel_stack(rt: HostRuntime) {
    let mut state = state_at(8);
    let words = [(0x7FD0, 8), (0x7FD8, 0x2_0004), (0x7FE0, 0x11)];
    assert_eq!(rt; saves(Cause::Sys, &state, &words), true);
    enter(Cause::Sys, &mut state);
    assert_eq!(rt;
        (state.usp(), state.get(SP), state.ksp()),
        (0x1000, 0x7FD0, 0x8000)
    );
    assert_eq!(rt;
        (state.get(GP), state.ps(), state.pc()),
        (0x77, 0, address(5))
    );
    assert_eq!(rt;
        (state.get(A0), state.get(A1), state.get(A2)),
        (0xA0, 0xA1, 0xA2)
    );
    assert_eq!(rt; state.locked(), false);
}

#[test]
fn an_interrupt_in_kernel_mode_saves_six_words_below_the_stack(rt: HostRuntime) {
    let mut state = state_at(3);
    let words = [
        (0xFD0, 3),
        (0xFD8, 0x2_0004),
        (0xFE0, 0x11),
        (0xFE8, 0xA0),
        (0xFF0, 0xA1),
        (0xFF8, 0xA2),
    ];
    let cause = Cause::Int { code: CLOCK };
    assert_eq!(rt; saves(cause, &state, &words), true);
    enter(cause, &mut state);
    assert_eq!(rt;
        (state.usp(), state.get(SP), state.ksp()),
        (0x5000, 0xFD0, 0x8000)
    );
    assert_eq!(rt;
        (state.get(GP), state.ps(), state.pc()),
        (0x77, 5, address(0))
    );
}

#[test]
fn a_frame_wraps_round_below_zero(rt: HostRuntime) {
    let mut state = state_at(8);
    state.set_ksp(0x18);
    let words = [
        (0xFFFF_FFFF_FFFF_FFE8, 8),
        (0xFFFF_FFFF_FFFF_FFF0, 0x2_0004),
        (0xFFFF_FFFF_FFFF_FFF8, 0x11),
    ];
    assert_eq!(rt; saves(Cause::Sys, &state, &words), true);
    enter(Cause::Sys, &mut state);
    assert_eq!(rt; state.get(SP), 0xFFFF_FFFF_FFFF_FFE8);
}

/// A fault of memory management.
fn memory(fault: MmFault, way: Way) -> Cause {
    Cause::Mm {
        va: 0x1234,
        fault,
        way,
    }
}

#[test]
fn entries_tell_what_raised_them(rt: HostRuntime) {
    let unaligned = Cause::Una {
        va: 0x1001,
        opcode: 0x2D,
        a: 31,
    };
    for (cause, number, arguments, from_kernel, from_user) in [
        (Cause::Int { code: 0 }, 0, (0, 0, 0), 5, 5),
        (Cause::Int { code: 1 }, 0, (1, 0, 0), 5, 5),
        (Cause::Arith { mask: 4 }, 1, (64, 4, 0xA2), 6, 2),
        // an overflow whose result is lost in R31
        (
            Cause::Arith { mask: 0x8000_0000 },
            1,
            (64, 0x8000_0000, 0xA2),
            6,
            2,
        ),
        (
            memory(MmFault::Tnv, Way::Fetch),
            2,
            (0x1234, 0, u64::MAX),
            6,
            2,
        ),
        (memory(MmFault::Acv, Way::Load), 2, (0x1234, 1, 0), 6, 2),
        (memory(MmFault::For, Way::Load), 2, (0x1234, 2, 0), 6, 2),
        (
            memory(MmFault::Foe, Way::Fetch),
            2,
            (0x1234, 3, u64::MAX),
            6,
            2,
        ),
        (memory(MmFault::Fow, Way::Store), 2, (0x1234, 4, 1), 6, 2),
        (Cause::If { code: 3 }, 3, (3, 0xA1, 0xA2), 6, 2),
        (Cause::If { code: 4 }, 3, (4, 0xA1, 0xA2), 6, 2),
        (unaligned, 4, (0x1001, 0x2D, 31), 6, 2),
        (Cause::Sys, 5, (0xA0, 0xA1, 0xA2), 6, 2),
    ] {
        let mut kernel = state_at(6);
        enter(cause, &mut kernel);
        assert_eq!(rt;
            (kernel.get(A0), kernel.get(A1), kernel.get(A2)),
            arguments,
            "{cause:?}"
        );
        assert_eq!(rt;
            (kernel.pc(), kernel.ps()),
            (address(number), from_kernel),
            "{cause:?}"
        );
        let mut user = state_at(10);
        enter(cause, &mut user);
        assert_eq!(rt;
            (user.get(A0), user.get(A1), user.get(A2)),
            arguments,
            "{cause:?}"
        );
        assert_eq!(rt;
            (user.pc(), user.ps()),
            (address(number), from_user),
            "{cause:?}"
        );
    }
}

#[test]
fn statuses_have_a_mode_and_a_level(rt: HostRuntime) {
    for (ps, wanted) in [
        (0, Mode::Kernel),
        (7, Mode::Kernel),
        (8, Mode::User),
        (15, Mode::User),
        (16, Mode::Kernel),
    ] {
        assert_eq!(rt; mode(ps), wanted, "{ps}");
    }
    assert_eq!(rt; (status_at_level(7, 0), status_at_level(8, 13)), (0, 13));
}
