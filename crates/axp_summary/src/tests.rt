use super::*;
use axp_gen::Shape;
use std::test::*;

/// How many rounds of a number's summary have each label of its test, in order.
fn counts(summary: &Summary) -> [u32; 4] {
    let labels = labels_of(summary.shape());
    let mut counts = [0; 4];
    for n in 0..labels.len().min(4) {
        counts[n] = summary.count(labels[n]);
    }
    counts
}

/// The summary of a number, with the counts and the number of events that it has as today.
fn has_counts(rt: HostRuntime, number: u64, expected: [u32; 4], events: u64) -> Result<bool, Fail> {
    let summary = summarize(rt.alloc(), number)?;
    Ok(summary.rounds() == 1_024 && counts(&summary) == expected && summary.events() == events)
}

#[test]
fn both_loads_pass_both_stores(rt: HostRuntime) -> Result<(), Fail> {
    assert!(rt; has_counts(rt, 0, [267, 366, 335, 56], 23_187)?);
    Ok(())
}

#[test]
fn a_dependent_load_may_be_weak(rt: HostRuntime) -> Result<(), Fail> {
    assert!(rt; has_counts(rt, 1, [939, 72, 13, 0], 28_816)?);
    Ok(())
}

#[test]
fn a_barrier_between_the_loads_forbids_it(rt: HostRuntime) -> Result<(), Fail> {
    assert!(rt; has_counts(rt, 2, [939, 85, 0, 0], 31_117)?);
    Ok(())
}

#[test]
fn labels_have_their_words(rt: HostRuntime) {
    let rows: [(Shape, &[&str]); 4] = [
        (Shape::Sb, &["00", "01", "10", "11"]),
        (Shape::Dl, &["old", "new", "weak"]),
        (Shape::Dm, &["old", "new", "weak"]),
        (Shape::Lock, &["exact", "other"]),
    ];
    for (shape, words) in &rows {
        let labels = labels_of(*shape);
        assert_eq!(rt; labels.len(), words.len());
        for n in 0..labels.len() {
            assert_eq!(rt; labels[n].name(), words[n]);
        }
    }
}
