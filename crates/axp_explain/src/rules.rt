//! Rules of shared memory, in a person's words.
ghost use Rattle.std.specs.Prelude.{◌≡◌};
ghost use Rattle.axp_explain.specs.RuleWords.{rule_words};

use axp_check::Rule;

/// What two accesses that break a rule do.
pub fn rule_words(rule: Rule) -> &'static str
    ensures { result.now ≡ rule_words rule }
{
    match rule {
        Rule::Issue =>
            "the issue constraint demands that the first access is before the second in memory, and it is not",
        Rule::Barrier =>
            "a WMB stands between the two writes, and the first is not before the second in memory",
        Rule::Storage =>
            "the second access has a byte that is not the one of its source, which is the first, or the image where that is 0",
        Rule::Locking =>
            "the store-conditional, the second, succeeds though the first writes its line behind its load-locked, or it has no load-locked where that is 0",
        Rule::Loop => "the value of the access may have come from itself",
    }
}
