use super::*;
use axp_access::{Access, Cpu, Kind, Place};
use axp_base::NoMemory;
use std::alloc::Global;
use std::test::*;

/// What a short file is read as: how many accesses there are, or the line at fault.
fn count(alloc: Global, file: &str) -> Result<Result<u32, u32>, NoMemory> {
    if file.len() > 1000 {
        return Ok(Err(0));
    }
    match read_trace(alloc, file.as_bytes()) {
        Ok(list) => Ok(Ok(list.len())),
        Err(TraceFault::Bad { line }) => Ok(Err(line)),
        Err(TraceFault::Memory) => Err(NoMemory),
    }
}

#[test]
fn first_line_outside_the_grammar_is_named(rt: HostRuntime) -> Result<(), Fail> {
    let head = "axp-trace 1 cpus 2 budget 9 memory 16384\n";
    let write = "0 step : w 00004000 8 0000000000000001 e1\n";
    let drain = "0 drain 0 : e1 00004000 @1\n";
    let console = "console -\n";
    let end = "end 2\n";
    let rows: [(&[&str], Result<u32, u32>); 18] = [
        (&[], Err(1)),
        (&["axp-trace 1 cpus 2 budget 9 memory 16384"], Err(1)),
        (&["axp-trace 2 cpus 2 budget 9 memory 16384\n"], Err(1)),
        (&["axp-events 1 cpus 2 budget 9\n", "0 step\n"], Err(1)),
        (&[head], Ok(0)),
        (&[head, "0 step : n\n", write, drain], Ok(1)),
        (&[head, "0 step\n"], Err(2)),
        (&[head, "2 step : n\n"], Err(2)),
        (&[head, write, "0 step : n"], Err(3)),
        // an entry is written before it is drained, and drained once
        (&[head, drain], Err(2)),
        (&[head, write, "1 drain 0 : e1 00004000 @1\n"], Err(3)),
        (&[head, write, drain, drain], Err(4)),
        (&[head, write, drain, write], Err(4)),
        // a tail ends with its last line
        (&[head, write, drain, console, end], Ok(1)),
        (&[head, write, drain, console], Err(5)),
        (&[head, write, drain, end, console], Err(5)),
        (&[head, write, drain, console, write], Err(5)),
        // numbers that no machine has are in the grammar
        (&[head, "0 step : m @9\n", "end 1\n"], Ok(1)),
    ];
    for (lines, expected) in rows {
        let mut file = String::new(rt.alloc());
        for line in lines {
            file.push_str(line)?;
        }
        let counted = count(rt.alloc(), file.as_str())?;
        assert!(rt; counted == expected, "{lines:?}");
    }
    Ok(())
}

#[test]
fn accesses_and_drains_are_those_of_the_lines(rt: HostRuntime) -> Result<(), Fail> {
    let file = "axp-trace 1 cpus 2 budget 9 memory 16384\n\
        0 step : w 00004000 4 00000007 e1\n\
        1 poll : 1 @0 stay\n\
        0 drain 0 : e1 00004000 @3\n\
        1 step : c 00004008 8 0000000000000002 yes @4\n";
    let list = match read_trace(rt.alloc(), file.as_bytes()) {
        Ok(list) => list,
        Err(_) => return Err(Fail::from("it is a trace")),
    };
    let first = Cpu::new(0).ok_or("0 is a processor's number")?;
    let second = Cpu::new(1).ok_or("1 is a processor's number")?;
    assert_eq!(rt; list.len(), 3);
    let write = Access {
        cpu: first,
        kind: Kind::Write,
        address: 0x4000,
        size: 4,
        value: 7,
        yes: false,
        place: Place::Entry(1),
    };
    let poll = Access {
        cpu: second,
        kind: Kind::Poll,
        address: 0,
        size: 0,
        value: 0,
        yes: true,
        place: Place::At(0),
    };
    let conditional = Access {
        cpu: second,
        kind: Kind::Conditional,
        address: 0x4008,
        size: 8,
        value: 2,
        yes: true,
        place: Place::At(4),
    };
    assert_eq!(rt;
        (list.get(1), list.get(2), list.get(3)),
        (write, poll, conditional)
    );
    assert_eq!(rt; list.place(1), Place::At(3));
    Ok(())
}
