ghost use Rattle.std.specs.Prelude.{◌≡◌};
ghost use Rattle.axp_pal.specs.Calls.{is_privileged};

use axp_decode::PalOp;

/// The function of the first call that user mode may make: those below it are privileged.
pub const FIRST_UNPRIVILEGED: u32 = 0x40;

/// Whether a call is privileged: only kernel mode may make it.
pub(crate) fn is_privileged_call(op: PalOp) -> bool
    ensures { result ≡ is_privileged op }
{
    !matches!(
        op,
        PalOp::BPT
            | PalOp::BUGCHK
            | PalOp::CALLSYS
            | PalOp::IMB
            | PalOp::RDUNIQUE
            | PalOp::WRUNIQUE
            | PalOp::GENTRAP
    )
}
