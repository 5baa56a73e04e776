ghost use Rattle.std.specs.Prelude.{◌≡◌, true, Some};
ghost use Rattle.axp_access.specs.Offers.{is_offered};
ghost use Rattle.axp_pick.specs.Choices as spec;
ghost use Rattle.axp_pick.specs.Choices.{choice, drain_of, drop_at, first_in_bank, named, progress};
ghost use Rattle.axp_pick.specs.Choices.{index_field, kind_field, rarity_field, room_made};

use axp_access::{Act, Offer};
use axp_base::{Bank, Line};

/// How many values of the field of rarity let a tick pass.
const PASSING_RARITIES: u64 = 16;

/// Bits 19:16 of a word: the kind of act.
fn kind_field(word: u64) -> u64
    ensures { result ≡ kind_field word }
{
    word >> 16 & 0xF
}

/// Bits 31:20: how rare a tick is.
fn rarity_field(word: u64) -> u64
    ensures { result ≡ rarity_field word }
{
    word >> 20 & 0xFFF
}

/// Bits 63:32: which of the drains or drops.
fn index_field(word: u64) -> u64
    ensures { result ≡ index_field word }
{
    word >> 32
}

/// The first copy of a bank.
fn first_in_bank(bank: Bank, drops: &[(Bank, Line)]) -> Option<(Bank, Line)>
    ensures { result ≡ first_in_bank bank drops.now }
{
    drops.iter().copied().find(|copy| copy.0 == bank)
}

/// The drop that makes room in the full bank that the wanted access waits for.
fn room_made(offer: &Offer) -> Option<Act>
    ensures { result ≡ room_made offer.now.needs offer.now.drops.items }
{
    let (bank, line) = first_in_bank(offer.needs?, &offer.drops)?;
    Some(Act::Drop(bank, line))
}

/// The act that brings the processor on.
#[tactic(auto, unfolding(crate::specs::Choices::progress))]
fn progress(offer: &Offer) -> Option<Act>
    ensures { result ≡ progress offer.now }
{
    if offer.step {
        Some(Act::Step)
    } else if offer.fill {
        Some(Act::Fill)
    } else if offer.drains > 0 {
        Some(Act::Drain(0))
    } else {
        room_made(offer)
    }
}

/// One of so many drains.
fn drain_of(index: u64, drains: u8) -> Option<Act>
    ensures { result ≡ drain_of index drains }
{
    if drains == 0 {
        return None;
    }
    Some(Act::Drain((index % u64::from(drains)) as u8))
}

/// One of the drops.
fn drop_at(index: u64, drops: &[(Bank, Line)]) -> Option<Act>
    ensures { result ≡ drop_at index drops.now }
{
    if drops.is_empty() {
        return None;
    }
    let (bank, line) = drops[(index % drops.len() as u64) as usize];
    Some(Act::Drop(bank, line))
}

/// The act that a word names, where it is legal.
#[tactic(auto, unfolding(crate::specs::Choices::named))]
fn named(offer: &Offer, word: u64) -> Option<Act>
    ensures { result ≡ named (kind_field word) (rarity_field word) (index_field word) offer.now }
{
    match kind_field(word) {
        8..=10 => drain_of(index_field(word), offer.drains),
        11 => offer.late.0.then_some(Act::Take(Bank::Even)),
        12 => offer.late.1.then_some(Act::Take(Bank::Odd)),
        13 => drop_at(index_field(word), &offer.drops),
        14 => offer.poll.then_some(Act::Poll),
        15 => (offer.tick && rarity_field(word) < PASSING_RARITIES).then_some(Act::Tick),
        _ => None,
    }
}

/// The act that a word chooses, if there is one.
#[tactic(auto, unfolding(crate::specs::Choices::choice))]
fn choice(offer: &Offer, word: u64) -> Option<Act>
    ensures { result ≡ choice offer.now word }
{
    if offer.spent {
        drain_of(index_field(word), offer.drains)
    } else {
        named(offer, word).or_else(|| progress(offer))
    }
}

/// Whether every word chooses an act of the offer. So it is of a processor that can go on, and of a
/// finished one whose write buffer has entries (docs/MACHINE.md, "Which events are legal").
#[tactic(auto, unfolding(crate::specs::Choices::is_able))]
pub fn is_able(offer: &Offer) -> bool
    ensures { result ≡ spec.is_able offer.now }
{
    if offer.spent {
        offer.drains > 0
    } else {
        progress(offer).is_some()
    }
}

/// The act of the offer that a word chooses (docs/FORMATS.md, "The scheduler").
#[tactic(auto, using(crate::proofs::ChoiceLemmas::able_chooses, crate::proofs::ChoiceLemmas::chosen_is_offered))]
pub fn choose(offer: &Offer, word: u64) -> Act
    requires { spec.is_able offer.now ≡ true }
    ensures chosen { Some result ≡ choice offer.now word }
    ensures legal { is_offered offer.now result ≡ true }
{
    choice(offer, word).unwrap()
}
