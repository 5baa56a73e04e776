use axp_base::Line;
use axp_line::LineData;

/// A copy of a line: its data, and the stamp of the moment that they are of.
#[derive(Clone, Copy, Debug, Default, PartialEq, Eq)]
pub struct LineCopy {
    pub line: Line,
    pub stamp: u64,
    pub bytes: LineData,
}
