ghost use Rattle.std.specs.Prelude.{◌≡◌, IfOk, Some, option_map};
ghost use Rattle.std.specs.Option.{unwrap_or};
ghost use Rattle.axp_image.specs.Contents.{byte_in};
ghost use Rattle.axp_check.specs.Verdicts.{verdict, violation};

use crate::barrier::first_barrier;
use crate::issue::first_issue;
use crate::locking::first_unlocked;
use crate::loops::first_on_cycle;
use crate::sources::sources;
use crate::storage::first_wrong;
use crate::{Rule, Verdict};
use axp_access::AccessList;
use axp_base::NoMemory;
use axp_image::Image;
use std::alloc::Global;

/// That a pair of accesses breaks a rule.
fn violated(rule: Rule, pair: (u32, u32)) -> Verdict
    ensures { Some result ≡ violation rule (Some pair) }
{
    let (first, second) = pair;
    Verdict::Violated {
        rule,
        first,
        second,
    }
}

/// Whether the accesses of a list can be those of an Alpha's shared memory in the order of their
/// places, over the bytes of an image, and else the least rule that is broken, by the least second and
/// then the least first access. A byte at or above the end of the image's memory is 0. An `Err` says that
/// memory was not found.
pub fn check(alloc: Global, image: &Image, list: &AccessList) -> Result<Verdict, NoMemory>
    ensures { IfOk result (λ v. v ≡ verdict (byte_in image.now.segments) list.now) }
{
    if let Some(pair) = first_issue(list) {
        return Ok(violated(Rule::Issue, pair));
    }
    if let Some(pair) = first_barrier(list) {
        return Ok(violated(Rule::Barrier, pair));
    }
    let sources = sources(alloc, list)?;
    if let Some(pair) = first_wrong(image, list, sources.as_slice()) {
        return Ok(violated(Rule::Storage, pair));
    }
    if let Some(pair) = first_unlocked(list) {
        return Ok(violated(Rule::Locking, pair));
    }
    match first_on_cycle(list, sources.as_slice()) {
        Some(n) => Ok(violated(Rule::Loop, (n, n))),
        None => Ok(Verdict::Consistent),
    }
}
