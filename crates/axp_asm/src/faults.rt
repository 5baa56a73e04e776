ghost use Rattle.std.specs.Prelude.{◌≡◌};
ghost use Rattle.axp_asm.specs.declared.faults.AsmError.TheVariants.{Memory};

use axp_base::NoMemory;
use thiserror::Error;

/// Why a source gives no image.
#[derive(Debug, Drop, PartialEq, Eq, Error)]
pub enum AsmError {
    /// A line is at fault, counted from 1: the first that is no statement, or else the first that
    /// does not fit behind those before it. `docs/FORMATS.md`, "Assembler source", has the rules.
    #[error("bad source at line {line}")]
    Bad { line: u32 },
    /// Memory was not found.
    #[error("out of memory")]
    Memory,
}

impl From<NoMemory> for AsmError {
    ghost from_gives = { λ _ e. e ≡ Memory };

    fn from(_error: NoMemory) -> AsmError {
        AsmError::Memory
    }
}
