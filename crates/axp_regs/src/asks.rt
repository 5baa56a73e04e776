/// The kinds of access.
#[derive(Clone, Copy, Debug, Default, PartialEq, Eq)]
pub enum Kind {
    /// The fetch of an instruction's word.
    #[default]
    Fetch,
    /// A plain read of data.
    Read,
    /// A plain write of data.
    Write,
    /// The read of a load-locked.
    Locked,
    /// A store-conditional: where it succeeds, a write; else it moves nothing.
    Conditional,
    /// A memory barrier, MB.
    Barrier,
    /// A write barrier, WMB.
    WriteBarrier,
    /// An instruction memory barrier, IMB.
    CodeBarrier,
    /// An interprocessor interrupt is requested of another processor.
    Signal,
    /// A byte is sent to the console.
    Console,
    /// A test whether an interprocessor interrupt is requested.
    Poll,
}

/// An access as an instruction asks for it, before its address is translated.
#[derive(Clone, Copy, Debug, Default, PartialEq, Eq)]
pub struct Ask {
    /// What it does.
    pub kind: Kind,
    /// The virtual address, or the physical one where `direct` says so.
    pub address: u64,
    /// Whether the address is physical.
    pub direct: bool,
    /// The number of bytes, 1, 2, 4 or 8.
    pub size: u8,
    /// The bytes to be stored as a little-endian number; 0 where nothing is stored.
    pub value: u64,
}
