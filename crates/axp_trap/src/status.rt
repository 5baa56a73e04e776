ghost use Rattle.std.specs.Prelude.{◌≡◌};
ghost use Rattle.axp_trap.specs.Status.{in_kernel_mode, mode_of, with_level};

use axp_pte::Mode;

/// The bit of the processor status that is the mode, 1 for user mode. The bits below it are the
/// interrupt level.
pub const MODE_BIT: u32 = 3;

/// The mode that a processor status has.
pub fn mode(ps: u64) -> Mode
    ensures { result ≡ mode_of ps }
{
    if ps >> MODE_BIT & 1 == 1 {
        Mode::User
    } else {
        Mode::Kernel
    }
}

/// The same status in kernel mode.
pub(crate) fn kernel_status(ps: u64) -> u64
    ensures { result ≡ in_kernel_mode ps }
{
    (ps >> 4 << 4) + (ps & 7)
}

/// The same status with the interrupt level that the low three bits of a number are.
pub fn status_at_level(ps: u64, level: u64) -> u64
    ensures { result ≡ with_level ps level }
{
    (ps >> 3 << 3) + (level & 7)
}
