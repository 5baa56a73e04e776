/// An event is not legal (docs/MACHINE.md, "Which events are legal"); nothing changes then.
#[derive(Clone, Copy, Debug, PartialEq, Eq)]
pub struct NotLegal;
