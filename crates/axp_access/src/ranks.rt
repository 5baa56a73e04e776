ghost use Rattle.std.specs.Prelude.{◌≡◌, ◌==◌, ◌<◌, ◌^◌, ◌&&◌, not, nat_lt};
ghost use Rattle.axp_access.specs.Ranks.{FitsPlace, rank_by};

use crate::Place;

/// The number by which BEFORE is compared: of two accesses that have a place, the one BEFORE has the
/// lesser; 0 where there is no place.
pub(crate) fn rank_at(place: Place, other: bool, cpu: u8, n: u32) -> u128
    requires { cpu < 8 }
    ensures value { result ≡ rank_by place other cpu n }
    ensures small { FitsPlace place }
{
    let kind = if other { 1_u128 << 40 } else { 0 };
    let low = kind + u128::from(cpu) * 0x1_0000_0000 + u128::from(n);
    match place {
        Place::At(turn) => u128::from(turn) * 0x200_0000_0000 + low,
        Place::Entry(_) => (1_u128 << 105) + low,
        Place::Absent => 0,
    }
}

/// Whether an access of the first rank is BEFORE one of the second.
pub(crate) fn is_rank_before(first: u128, second: u128) -> bool
    ensures { result ≡ (not (first == 0) && nat_lt first second) }
{
    first != 0 && first < second
}
