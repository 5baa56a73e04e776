use super::checks::checked;
use super::*;
use axp_gen::{Shape, litmus};
use axp_image::write_image;

/// The run of seed 0 over the page of zeros, by a model of the generator and of such a page apart
/// from this program.
const SEED_0: &str = "axp-trace 1 cpus 2 budget 5 memory 8192\n\
    1 fill : i 00000000 @0\n\
    0 fill : i 00000000 @0\n\
    1 step : i 00000000 00000000 @0\n\
    0 step : i 00000000 00000000 @0\n\
    cpu 0 halt 1 steps 1 pc FFFFFC0000000004\n\
    cpu 1 halt 1 steps 1 pc FFFFFC0000000004\n\
    reg 1 16 0000000000000001\n\
    console -\n\
    end 4\n";

/// How the lines begin and end that show how the spin lock ends: both processors halt, the lock is
/// free, and the counter and the console have what the program says.
const SPIN_LOCK_ENDS: [(&str, &str); 5] = [
    ("cpu 0 halt 1 steps ", " pc FFFFFC00000020A4"),
    ("cpu 1 halt 1 steps ", " pc FFFFFC0000002054"),
    ("mem 0000E000 0000000000000000", ""),
    ("mem 0000E040 0000000000000006", ""),
    ("console 4B36", ""),
];

/// The words of a command line.
pub(super) fn words_of(alloc: Global, texts: &[&str]) -> Result<Vec<Word>, Fail> {
    let mut words = Vec::new(alloc);
    for word in texts {
        words.push(Word::new(alloc, word)?)?;
    }
    Ok(words)
}

/// Whether these words over the page of zeros are answered so, with this text, after so many asks.
fn answers(
    alloc: Global,
    texts: &[&str],
    status: Status,
    text: &str,
    asks: usize,
) -> Result<bool, Fail> {
    let words = words_of(alloc, texts)?;
    let mut desk = TableDesk::new(alloc, &[])?;
    desk.add(alloc, "image", &ZEROS)?;
    let mut sink = ListSink::new(alloc, &[], 0)?;
    let answered = serve_plain(alloc, words.as_slice(), &mut desk, &mut sink);
    Ok(answered == status && sink.taken() == text.as_bytes() && desk.asks().len() == asks)
}

/// Whether a line of a text begins and ends so.
fn has_line(text: &[u8], start: &str, end: &str) -> bool {
    for line in text.split(|byte| *byte == b'\n') {
        if line.starts_with(start.as_bytes()) && line.ends_with(end.as_bytes()) {
            return true;
        }
    }
    false
}

#[test]
fn prints_the_run_of_a_seed(rt: HostRuntime) -> Result<(), Fail> {
    let words = ["seed", "image", "2", "5", "0"];
    assert!(rt; answers(rt.alloc(), &words, Status::Done, SEED_0, 1)?);
    Ok(())
}

#[test]
fn refuses_numbers_out_of_range(rt: HostRuntime) -> Result<(), Fail> {
    let rows: [[&str; 5]; 4] = [
        ["seed", "image", "2", "32769", "0"],
        ["seed", "image", "1", "5", "0"],
        ["seed", "image", "2", "05", "0"],
        ["seed", "image", "2", "5", "18446744073709551616"],
    ];
    for words in &rows {
        assert!(rt; answers(rt.alloc(), words, Status::Usage, "axp: usage\n", 0)?);
    }
    Ok(())
}

#[test]
fn the_trace_of_a_seed_is_right(rt: HostRuntime) -> Result<(), Fail> {
    let call = replayed(Status::Done, 2);
    let text = SEED_0.as_bytes();
    assert!(rt; gives(rt.alloc(), &call, &ZEROS, text, text)?);
    Ok(())
}

#[test]
fn a_seed_brings_the_spin_lock_to_its_end(rt: HostRuntime) -> Result<(), Fail> {
    let alloc = rt.alloc();
    let image = write_image(alloc, &litmus(alloc, Shape::Lock)?)?;
    let words = words_of(alloc, &["seed", "image", "2", "4000", "7"])?;
    let mut desk = TableDesk::new(alloc, &[])?;
    desk.add(alloc, "image", image.as_slice())?;
    let mut sink = ListSink::new(alloc, &[], 0)?;
    let status = serve_plain(alloc, words.as_slice(), &mut desk, &mut sink);
    assert!(rt; status == Status::Done);
    for (start, end) in SPIN_LOCK_ENDS {
        assert!(rt; has_line(sink.taken(), start, end), "{start}");
    }
    let call = checked(Status::Done, 2);
    let (image, trace) = (image.as_slice(), sink.taken());
    assert!(rt; gives(alloc, &call, image, trace, b"consistent\n")?);
    Ok(())
}
