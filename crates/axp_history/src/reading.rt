//! A file read as a list of accesses.
ghost use Rattle.std.specs.Prelude.{◌≡◌, ◌<◌, ◌^◌, length, IfErr, IfOk};
ghost use Rattle.axp_trace.specs.Files.{lines_of};
ghost use Rattle.axp_history.specs.Shown.{IsFaultOf, IsShown};
ghost use Rattle.axp_history.specs.Traces.{lines_shown, trace_shown};

use crate::TraceFault;
use crate::collecting::collect;
use crate::surveys::go_through;
use axp_access::AccessList;
use axp_trace::{Header, first_line, read_header};
use std::alloc::Global;

/// Reads the lines of a trace behind its header.
fn read_lines(alloc: Global, header: &Header, lines: &[u8]) -> Result<AccessList, TraceFault>
    requires { length lines.now < 2 ^ 30 }
    ensures list { IfOk result (IsShown (lines_shown header.now (lines_of lines.now))) }
    ensures fault { IfErr result (IsFaultOf (lines_shown header.now (lines_of lines.now))) }
{
    let Ok(seen) = go_through(alloc, header, lines) else {
        return Err(TraceFault::Memory);
    };
    if let Some(line) = seen.fault(header) {
        return Err(TraceFault::Bad { line });
    }
    let Ok(mut list) = AccessList::with_room(alloc, seen.accesses) else {
        return Err(TraceFault::Memory);
    };
    collect(&mut list, header, lines);
    Ok(list)
}

/// Reads a trace as the list of its accesses and drains, in the order of its lines. Whether it is what
/// a machine does is not asked, nor whether the numbers of its header and of its tail are right; a trace
/// may have no tail.
pub fn read_trace(alloc: Global, file: &[u8]) -> Result<AccessList, TraceFault>
    requires { length file.now < 2 ^ 30 }
    ensures list { IfOk result (IsShown (trace_shown (lines_of file.now))) }
    ensures fault { IfErr result (IsFaultOf (trace_shown (lines_of file.now))) }
{
    let Some((first, lines)) = first_line(file) else {
        return Err(TraceFault::Bad { line: 1 });
    };
    match read_header(first) {
        Some(header) if header.full => read_lines(alloc, &header, lines),
        Some(_) | None => Err(TraceFault::Bad { line: 1 }),
    }
}
