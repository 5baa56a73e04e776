use super::*;

/// The summary of number 1. Its counts are pinned as they are today; no other program tells them.
const SUMMARY_1: &str = "gen 1 dl rounds 1024\n\
    old 939\n\
    new 72\n\
    weak 13\n\
    events 28816\n";

#[test]
fn prints_the_summary_of_a_number(rt: HostRuntime) -> Result<(), Fail> {
    let alloc = rt.alloc();
    let mut words = Vec::new(alloc);
    words.push(Word::new(alloc, "gen")?)?;
    words.push(Word::new(alloc, "1")?)?;
    let mut desk = TableDesk::new(alloc, &[])?;
    let mut sink = ListSink::new(alloc, &[], 0)?;
    let status = serve_plain(alloc, words.as_slice(), &mut desk, &mut sink);
    assert!(rt; status == Status::Done);
    assert!(rt; sink.taken() == SUMMARY_1.as_bytes());
    assert!(rt; desk.asks().is_empty());
    Ok(())
}
