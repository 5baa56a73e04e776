/// How far an entry of a processor's write buffer has come. A processor's entries are numbered from
/// 1, in the order in which they are made.
#[derive(Clone, Copy, Debug, PartialEq, Eq)]
pub enum EntryState {
    /// No write went into it: it is not made yet.
    Unwritten,
    /// A write went into it, and it waits in the write buffer.
    Waiting,
    /// A drain wrote it to memory.
    Drained,
}
