use super::*;
use arrayvec::ArrayVec;
use axp_access::{Act, Bank, Line, Offer};
use std::test::*;

/// What the processor of a row may do.
#[derive(Clone, Copy, Debug)]
enum May {
    /// Step, and nothing else.
    StepAlone,
    /// Everything.
    DoAll,
    /// Everything but a step.
    Fill,
    /// Everything but a step and a fill.
    Drain,
    /// Everything but a step, a fill and a drain: the access that it wants waits for room in this
    /// bank.
    MakeRoom(Bank),
    /// Drain alone, since it is finished, whatever else is offered.
    OnlyDrain,
}

/// The line of this number.
fn line(number: u16) -> Line {
    Line::of(u64::from(number) * 64)
}

/// An offer of everything: 3 drains, the lines 2 and 6 of `d0`, 5 of `d1`, and 9 and 12 of the code
/// bank.
fn everything() -> Offer {
    let mut drops = ArrayVec::new();
    drops.push((Bank::Even, line(2)));
    drops.push((Bank::Even, line(6)));
    drops.push((Bank::Odd, line(5)));
    drops.push((Bank::Code, line(9)));
    drops.push((Bank::Code, line(12)));
    Offer {
        spent: false,
        step: true,
        fill: true,
        drains: 3,
        late: (true, true),
        drops,
        needs: None,
        poll: true,
        tick: true,
    }
}

/// An offer of nothing.
fn nothing() -> Offer {
    Offer {
        spent: false,
        step: false,
        fill: false,
        drains: 0,
        late: (false, false),
        drops: ArrayVec::new(),
        needs: None,
        poll: false,
        tick: false,
    }
}

/// An offer of one drop, with no room in another bank.
fn room_elsewhere() -> Offer {
    let mut drops = ArrayVec::new();
    drops.push((Bank::Code, line(9)));
    Offer {
        drops,
        needs: Some(Bank::Odd),
        ..nothing()
    }
}

/// The offer of a row.
fn offer_of(may: May) -> Offer {
    let mut offer = match may {
        May::StepAlone => nothing(),
        _ => everything(),
    };
    match may {
        May::StepAlone => offer.step = true,
        May::DoAll => {}
        May::Fill => offer.step = false,
        May::Drain => {
            offer.step = false;
            offer.fill = false;
        }
        May::MakeRoom(bank) => {
            offer.step = false;
            offer.fill = false;
            offer.drains = 0;
            offer.needs = Some(bank);
        }
        May::OnlyDrain => offer.spent = true,
    }
    offer
}

/// A row: what a processor may do, a word, and the act that the word chooses.
type Row = (May, u64, Act);

/// Each kind of act, and each one that is done where the named act is not legal.
fn rows() -> [Row; 36] {
    [
        (May::DoAll, 0, Act::Step),
        (May::DoAll, 0xFFFF_FFFF_FFF7_FFFF, Act::Step),
        (May::DoAll, 0x0000_0000_0008_0000, Act::Drain(0)),
        (May::DoAll, 0x0000_0001_0009_0000, Act::Drain(1)),
        (May::DoAll, 0x0000_0003_000A_0000, Act::Drain(0)),
        (May::DoAll, 0xFFFF_FFFE_FFFA_FFFF, Act::Drain(2)),
        (May::DoAll, 0x0000_0000_000B_0000, Act::Take(Bank::Even)),
        (May::DoAll, 0x0000_0000_000C_0000, Act::Take(Bank::Odd)),
        (
            May::DoAll,
            0x0000_0000_000D_0000,
            Act::Drop(Bank::Even, line(2)),
        ),
        (
            May::DoAll,
            0x0000_0001_000D_0000,
            Act::Drop(Bank::Even, line(6)),
        ),
        (
            May::DoAll,
            0x0000_0007_000D_0000,
            Act::Drop(Bank::Odd, line(5)),
        ),
        (
            May::DoAll,
            0xFFFF_FFFE_000D_0000,
            Act::Drop(Bank::Code, line(12)),
        ),
        (May::DoAll, 0x0000_0000_000E_0000, Act::Poll),
        (May::DoAll, 0x0000_0000_000F_0000, Act::Tick),
        (May::DoAll, 0x0000_0000_00FF_0000, Act::Tick),
        (May::DoAll, 0x0000_0000_010F_0000, Act::Step),
        (May::DoAll, 0x0000_0000_FFFF_0000, Act::Step),
        (May::StepAlone, 0x0000_0000_0008_0000, Act::Step),
        (May::StepAlone, 0x0000_0001_0009_0000, Act::Step),
        (May::StepAlone, 0x0000_0001_000A_0000, Act::Step),
        (May::StepAlone, 0x0000_0000_000B_0000, Act::Step),
        (May::StepAlone, 0x0000_0000_000C_0000, Act::Step),
        (May::StepAlone, 0x0000_0001_000D_0000, Act::Step),
        (May::StepAlone, 0x0000_0000_000E_0000, Act::Step),
        (May::StepAlone, 0x0000_0000_000F_0000, Act::Step),
        (May::Fill, 0x0000_0001_0000_0000, Act::Fill),
        (May::Fill, 0x0000_0001_0008_0000, Act::Drain(1)),
        (May::Drain, 0x0000_0001_0000_0000, Act::Drain(0)),
        (May::Drain, 0x0000_0000_0010_0000, Act::Drain(0)),
        (
            May::MakeRoom(Bank::Even),
            0x0000_0001_0000_0000,
            Act::Drop(Bank::Even, line(2)),
        ),
        (
            May::MakeRoom(Bank::Odd),
            0x0000_0000_0007_0000,
            Act::Drop(Bank::Odd, line(5)),
        ),
        (
            May::MakeRoom(Bank::Code),
            0x0000_0001_0008_0000,
            Act::Drop(Bank::Code, line(9)),
        ),
        (May::MakeRoom(Bank::Code), 0x0000_0000_000E_0000, Act::Poll),
        (May::OnlyDrain, 0, Act::Drain(0)),
        (May::OnlyDrain, 0x0000_0005_000E_0000, Act::Drain(2)),
        (May::OnlyDrain, 0x0000_0004_000D_0000, Act::Drain(1)),
    ]
}

#[test]
fn words_choose_by_the_table(rt: HostRuntime) -> Result<(), Fail> {
    for (may, word, act) in rows() {
        let offer = offer_of(may);
        assert!(rt; is_able(&offer), "{may:?}");
        assert!(rt; choose(&offer, word) == act, "{may:?} at {word:#018x}");
    }
    Ok(())
}

#[test]
fn some_processors_can_do_nothing(rt: HostRuntime) -> Result<(), Fail> {
    let finished = Offer {
        spent: true,
        drains: 0,
        ..everything()
    };
    assert!(rt; !is_able(&nothing()));
    assert!(rt; !is_able(&finished));
    assert!(rt; !is_able(&room_elsewhere()));
    Ok(())
}

#[test]
fn words_are_those_of_the_generator(rt: HostRuntime) -> Result<(), Fail> {
    // The words of the seed 42 and the stream 54 are those of the generator's own demonstration.
    // The others were worked apart from this program.
    let rows: [(u64, u64, [u64; 3]); 7] = [
        (
            42,
            54,
            [
                0x86b1_da1d_7206_2b68,
                0x1304_aa46_c985_3d39,
                0xa367_0e9e_0dd5_0358,
            ],
        ),
        (
            0,
            0,
            [
                0xd4fe_b4e5_a4bc_fe09,
                0xe85a_7fe0_71b0_26e6,
                0x3a5b_9037_fe92_8c11,
            ],
        ),
        (
            0,
            1,
            [
                0xacdb_f879_b3c7_3375,
                0x7ea7_54d0_74e8_d88f,
                0xf8fc_7aec_8ae6_245a,
            ],
        ),
        (
            1,
            0,
            [
                0x7156_4ba1_9208_63f1,
                0x06f7_10df_f512_6daf,
                0xaf59_5b98_7d60_ea49,
            ],
        ),
        (
            1,
            1,
            [
                0xd469_2f84_5d3a_3706,
                0xbb0f_09b0_eeba_b6ff,
                0xe26a_c904_ad28_3c09,
            ],
        ),
        (
            u64::MAX,
            0,
            [
                0xfb5f_d3d9_b3d0_cca6,
                0xe158_2e00_eb96_6e21,
                0xdc8b_3dd5_0d82_0338,
            ],
        ),
        (
            u64::MAX,
            1,
            [
                0x7e86_b6c3_c5dd_ff50,
                0x6dc9_e127_832f_bcdc,
                0xa267_37f9_aa61_cbf3,
            ],
        ),
    ];
    for (seed, stream, first) in rows {
        let mut words = Words::new(seed, stream);
        for word in first {
            assert!(rt;
                words.next() == word,
                "seed {seed}, stream {stream}: {word:#018x}"
            );
        }
    }
    Ok(())
}
