ghost use Rattle.std.specs.Prelude.{◌≡◌};
ghost use Rattle.axp_access.specs.Kinds as kinds;

use crate::{Access, Kind};

impl Access {
    /// Whether it is a fetch.
    pub fn is_fetch(&self) -> bool
        ensures { result ≡ kinds.is_fetch self.now.kind }
    {
        matches!(self.kind, Kind::Fetch)
    }

    /// Whether it is a read: a plain read or a load-locked.
    pub fn is_read(&self) -> bool
        ensures { result ≡ kinds.is_read self.now.kind }
    {
        matches!(self.kind, Kind::Read | Kind::Locked)
    }

    /// Whether it is a plain write.
    pub fn is_plain_write(&self) -> bool
        ensures { result ≡ kinds.is_plain_write self.now.kind }
    {
        matches!(self.kind, Kind::Write)
    }

    /// Whether it is a memory write: a plain write, or a store-conditional that succeeded.
    pub fn is_memory_write(&self) -> bool
        ensures { result ≡ kinds.is_memory_write self.now }
    {
        match self.kind {
            Kind::Write => true,
            Kind::Conditional => self.yes,
            _ => false,
        }
    }

    /// Whether it is a write: a memory write or a signal.
    pub fn is_write(&self) -> bool
        ensures { result ≡ kinds.is_write self.now }
    {
        self.is_memory_write() || matches!(self.kind, Kind::Signal)
    }
}
