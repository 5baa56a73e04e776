ghost use Rattle.std.specs.Prelude.{◌≡◌, ◌-◌, ◌^◌, ◌≤◌, IfSome};
ghost use Rattle.axp_words.specs.Numbers.{begins_plainly, number_in};

/// Whether a word has bytes and begins with no plus sign, and with no zero in front of others.
fn begins_plainly(word: &[u8]) -> bool
    ensures { result ≡ begins_plainly word.now }
{
    !word.is_empty() && word[0] != b'+' && (word[0] != b'0' || word.len() == 1)
}

/// The number below 2^64 that a word writes in decimal.
#[tactic(auto, using(crate::proofs::NumberLemmas::parsed, crate::proofs::NumberLemmas::not_plain))]
fn read_number(word: &str) -> Option<u64>
    ensures { result ≡ number_in 0 (2 ^ 64 - 1) word.now }
{
    // `parse` would also take a plus sign, and zeros in front of other digits.
    if begins_plainly(word.as_bytes()) {
        word.parse().ok()
    } else {
        None
    }
}

/// The number from `least` to `most` that a word writes in decimal digits, with no sign and no zero
/// in front of others; `None` where it writes no such number.
#[tactic(auto, using(crate::proofs::NumberLemmas::none_in, crate::proofs::NumberLemmas::some_in, crate::proofs::NumberLemmas::none_past))]
pub(crate) fn read_number_in(word: &str, least: u64, most: u64) -> Option<u64>
    ensures value { result ≡ number_in least most word.now }
    ensures least { IfSome result (λ n. least ≤ n) }
    ensures most { IfSome result (λ n. n ≤ most) }
{
    let number = read_number(word)?;
    if least <= number && number <= most {
        Some(number)
    } else {
        None
    }
}
