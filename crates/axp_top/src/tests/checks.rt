//! Traces that are judged.
use super::locks::DISTURBED;
use super::shared_memory::{
    BARRIER_DELIVERS, BOTH_WAIT, BYTES_ARE_MIXED, STORES_ARE_MERGED, VALUE_IS_LATE, VALUE_IS_TAKEN,
};
use super::worked::{Worked, image, text};
use super::{Call, HALTS, HALTS_PRINTED, LIST_HEADER, TEXT_HEADER, ZEROS, gives, joined};
use crate::Status;
use axp_check::Rule;
use std::alloc::Global;
use std::test::Fail;

/// The call of `check` over both files which ends with this status, where nothing fails outside.
pub(super) fn checked(status: Status, asks: usize) -> Call {
    Call {
        words: ["check", "image", "events"],
        failing_fetch: 0,
        failing_put: 0,
        status,
        asks,
    }
}

/// A text with one of its lines in place of another.
fn with_line(alloc: Global, text: &[u8], line: &[u8], altered: &[u8]) -> Result<Vec<u8>, Fail> {
    let mut all = Vec::new(alloc);
    for part in text.split_inclusive(|byte| *byte == b'\n') {
        if part == line {
            all.extend_from_slice(altered)?;
        } else {
            all.extend_from_slice(part)?;
        }
    }
    Ok(all)
}

/// Whether the text of a run over its image is judged so, with this text.
fn judges(
    alloc: Global,
    worked: &Worked,
    trace: &[u8],
    call: &Call,
    told: &[u8],
) -> Result<bool, Fail> {
    let image = image(alloc, worked.words, worked.layout)?;
    gives(alloc, call, image.as_slice(), trace, told)
}

#[test]
fn runs_are_consistent(rt: HostRuntime) -> Result<(), Fail> {
    let call = checked(Status::Done, 2);
    for worked in [
        &BOTH_WAIT,
        &VALUE_IS_LATE,
        &VALUE_IS_TAKEN,
        &BARRIER_DELIVERS,
        &BYTES_ARE_MIXED,
        &STORES_ARE_MERGED,
        &DISTURBED,
    ] {
        let trace = text(rt.alloc(), worked)?;
        assert!(rt; judges(rt.alloc(), worked, trace.as_slice(), &call, b"consistent\n")?);
    }
    Ok(())
}

#[test]
fn value_that_no_store_gave_is_named(rt: HostRuntime) -> Result<(), Fail> {
    let alloc = rt.alloc();
    let trace = text(alloc, &BOTH_WAIT)?;
    let altered = with_line(
        alloc,
        trace.as_slice(),
        b"0 step : r 00004040 8 0000000000000000 @0\n",
        b"0 step : r 00004040 8 0000000000000001 @0\n",
    )?;
    let call = checked(
        Status::Violated {
            rule: Rule::Storage,
            first: 0,
            second: 10,
        },
        2,
    );
    let told = b"axp: violated storage 0 10\n";
    assert!(rt; judges(alloc, &BOTH_WAIT, altered.as_slice(), &call, told)?);
    Ok(())
}

#[test]
fn file_that_is_no_trace_is_not_judged(rt: HostRuntime) -> Result<(), Fail> {
    let alloc = rt.alloc();
    let list = joined(alloc, LIST_HEADER, HALTS)?;
    let call = checked(Status::BadTrace { line: 1 }, 2);
    let told = b"axp: bad trace at line 1\n";
    assert!(rt; gives(alloc, &call, &ZEROS, list.as_slice(), told)?);
    let trace = joined(alloc, TEXT_HEADER, HALTS_PRINTED)?;
    let call = checked(Status::Done, 2);
    assert!(rt; gives(alloc, &call, &ZEROS, trace.as_slice(), b"consistent\n")?);
    let unended = joined(alloc, TEXT_HEADER, "0 step : n\nconsole -\n")?;
    let call = checked(Status::BadTrace { line: 4 }, 2);
    let told = b"axp: bad trace at line 4\n";
    assert!(rt; gives(alloc, &call, &ZEROS, unended.as_slice(), told)?);
    Ok(())
}

#[test]
fn image_is_asked_for_before_the_trace(rt: HostRuntime) -> Result<(), Fail> {
    let call = Call {
        failing_fetch: 2,
        ..checked(Status::ReadFault, 2)
    };
    let told = b"axp: read fault\n";
    assert!(rt; gives(rt.alloc(), &call, &ZEROS, b"", told)?);
    let call = checked(
        Status::BadImage {
            kind: axp_image::ImageKind::Short,
            offset: 0,
        },
        1,
    );
    let told = b"axp: bad image short at 0\n";
    assert!(rt; gives(rt.alloc(), &call, b"", b"", told)?);
    Ok(())
}
