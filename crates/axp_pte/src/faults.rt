/// The mode in which an access is made.
#[derive(Clone, Copy, Debug, PartialEq, Eq)]
pub enum Mode {
    /// Kernel mode.
    Kernel,
    /// User mode.
    User,
}

/// What an access does.
#[derive(Clone, Copy, Debug, PartialEq, Eq)]
pub enum Way {
    /// It fetches an instruction.
    Fetch,
    /// It reads data.
    Load,
    /// It writes data.
    Store,
}

/// The memory management faults.
#[derive(Clone, Copy, Debug, PartialEq, Eq)]
pub enum MmFault {
    /// Translation not valid: an entry on the way has V = 0.
    Tnv,
    /// Access control violation: the entry gives the mode no right to the access, or the mode
    /// cannot reach the address at all.
    Acv,
    /// Fault on read: a load at an entry with FOR.
    For,
    /// Fault on execute: a fetch at an entry with FOE.
    Foe,
    /// Fault on write: a store at an entry with FOW.
    Fow,
}
