//! A text, cut at a byte.
ghost use Rattle.std.specs.Prelude.{◌≡◌, ◌≢◌, ◌∷◌, ◌++◌, IsNone, IfSome};
ghost use Rattle.std.specs.List.{All};
ghost use Rattle.axp_trace.specs.Fields.{cut_at, parts_of};

/// What stands before the first of these bytes in the text, and what follows it; `None` where the
/// text has none.
fn parts(text: &[u8], byte: u8) -> Option<(&[u8], &[u8])>
    ensures none { IsNone result → All (λ b. b ≢ byte) text.now }
    ensures parted { IfSome result (λ p. text.now ≡ p.0.now ++ byte ∷ p.1.now) }
    ensures first { IfSome result (λ p. All (λ b. b ≢ byte) p.0.now) }
{
    let end = text.iter().position(|b| *b == byte)?;
    Some((&text[..end], &text[end + 1..]))
}

/// The same, with the whole answer in one clause.
pub(crate) fn cut(text: &[u8], byte: u8) -> Option<(&[u8], &[u8])>
    ensures value { parts_of result ≡ cut_at byte text.now }
    ensures parted { IfSome result (λ p. text.now ≡ p.0.now ++ byte ∷ p.1.now) }
{
    parts(text, byte)
}
