ghost use Rattle.std.specs.Prelude.{◌≡◌};
ghost use Rattle.std.specs.IoError.{error_kind};
ghost use Rattle.axp_io.specs.Troubles.{trouble_of};

use std::io;
use std::io::ErrorKind;

/// Why a call outside gave nothing.
#[derive(Clone, Copy, Debug, PartialEq, Eq)]
pub(crate) enum Trouble {
    /// The call was interrupted before it did anything.
    Interrupted,
    /// Memory was not found.
    Memory,
    /// Any other error.
    Fault,
}

/// The trouble that an error of the system stands for.
pub(crate) fn trouble_in(error: io::Error) -> Trouble
    ensures { result ≡ trouble_of (error_kind error) }
{
    match error.kind() {
        ErrorKind::Interrupted => Trouble::Interrupted,
        ErrorKind::OutOfMemory => Trouble::Memory,
        _ => Trouble::Fault,
    }
}
