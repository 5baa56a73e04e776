//! The lines that say what a judge found of a trace, without their line feeds (`docs/FORMATS.md`,
//! "What a check prints").
ghost use Rattle.std.specs.Prelude.{◌≡◌, ◌<◌};
ghost use Rattle.arrayvec.specs.ArrayVec.{array_vec_len};
ghost use Rattle.axp_trace.specs.declared.lines.TheConstants.{LINE_ROOM};
ghost use Rattle.axp_trace.specs.Verdicts.{consistent_line};

use crate::LineText;
use crate::refusals::fixed;

/// The line of a trace that keeps every rule of shared memory.
#[tactic(auto, unfolding(crate::specs::Verdicts::consistent_line))]
pub fn write_consistent() -> LineText
    ensures text { result.items ≡ consistent_line }
    ensures short { array_vec_len result < LINE_ROOM }
{
    fixed(b"consistent")
}
