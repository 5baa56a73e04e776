use super::*;
use axp_base::NoMemory;
use std::alloc::Global;
use std::test::*;

/// The words of these texts.
fn words_of(alloc: Global, texts: &[&str]) -> Result<Vec<Word>, NoMemory> {
    let mut words = Vec::new(alloc);
    for text in texts {
        words.push(Word::new(alloc, text)?)?;
    }
    Ok(words)
}

#[test]
fn a_word_keeps_its_text(rt: HostRuntime) -> Result<(), Fail> {
    assert_eq!(rt; Word::new(rt.alloc(), "s.img")?.as_str(), "s.img");
    Ok(())
}

#[test]
fn words_in_the_grammar_are_their_command(rt: HostRuntime) -> Result<(), Fail> {
    let least = Command::Seed {
        image: "s.img",
        cpus: 2,
        budget: 1,
        seed: 0,
    };
    let most = Command::Seed {
        image: "a b",
        cpus: 8,
        budget: 32_768,
        seed: u64::MAX,
    };
    let replay = Command::Replay {
        image: "k.img",
        trace: "-",
    };
    let check = Command::Check {
        image: "check",
        trace: "replay",
    };
    let elf = Command::Elf {
        file: "a.out",
        memory: 16_777_216,
        stack: u64::MAX,
        table: 2_047,
    };
    let rows: [(&[&str], Command<'_>); 10] = [
        (&["seed", "s.img", "2", "1", "0"], least),
        (&["seed", "a b", "8", "32768", "18446744073709551615"], most),
        (&["replay", "k.img", "-"], replay),
        (&["check", "check", "replay"], check),
        (
            &["elf", "a.out", "16777216", "18446744073709551615", "2047"],
            elf,
        ),
        (&["gen", "0"], Command::Gen { number: 0 }),
        (&["gen", "10"], Command::Gen { number: 10 }),
        (
            &["gen", "18446744073709551615"],
            Command::Gen { number: u64::MAX },
        ),
        (&["asm", "program.s"], Command::Asm { file: "program.s" }),
        (&["list", "list"], Command::List { image: "list" }),
    ];
    for (texts, command) in rows {
        let words = words_of(rt.alloc(), texts)?;
        assert!(rt; read_words(words.as_slice()) == Ok(command), "{texts:?}");
    }
    Ok(())
}

#[test]
fn other_words_are_no_command(rt: HostRuntime) -> Result<(), Fail> {
    let rows: [&[&str]; 42] = [
        &[],
        &["replay"],
        &["replay", "k.img"],
        &["replay", "", "list"],
        &["replay", "k.img", ""],
        &["replay", "k.img", "list", "more"],
        &["Replay", "k.img", "list"],
        &["check", "k.img"],
        &["check", "", "list"],
        &["check", "k.img", ""],
        &["seed", "s.img", "2", "5"],
        &["seed", "s.img", "2", "5", "0", "0"],
        &["seed", "", "2", "5", "0"],
        &["seed", "s.img", "1", "5", "0"],
        &["seed", "s.img", "9", "5", "0"],
        &["seed", "s.img", "2", "0", "0"],
        &["seed", "s.img", "2", "32769", "0"],
        &["seed", "s.img", "2", "05", "0"],
        &["seed", "s.img", "2", "5", "18446744073709551616"],
        &["run", "s.img", "2", "5", "0"],
        &["gen"],
        &["gen", ""],
        &["gen", "+1"],
        &["gen", "-1"],
        &["gen", "00"],
        &["gen", "1 "],
        &["gen", "0x1"],
        &["gen", "18446744073709551616"],
        &["gen", "1", "2"],
        &["elf", "", "8192", "0", "0"],
        &["elf", "a.out", "8192", "0"],
        &["elf", "a.out", "0", "0", "0"],
        &["elf", "a.out", "12288", "0", "0"],
        &["elf", "a.out", "16785408", "0", "0"],
        &["elf", "a.out", "8192", "0", "1"],
        &["elf", "a.out", "8192", "-1", "0"],
        &["asm"],
        &["asm", ""],
        &["asm", "program.s", "more"],
        &["list", ""],
        &["list", "image", "more"],
        &["listing", "image"],
    ];
    for texts in rows {
        let words = words_of(rt.alloc(), texts)?;
        assert!(rt; read_words(words.as_slice()) == Err(Usage), "{texts:?}");
    }
    Ok(())
}
