ghost use Rattle.std.specs.Prelude.{◌≡◌, ◌==◌, ◌<◌, ◌∷◌, ◌++◌, [], ℕ, List, None, Some, IsNone};
ghost use Rattle.std.specs.Prelude.{IfSome, ◌↔◌, length, ◌^◌, Option, if◌then◌else◌};
ghost use Rattle.axp_access.specs.declared.Event.{Event};
ghost use Rattle.axp_access.specs.declared.Outcome.{Outcome};
ghost use Rattle.axp_access.specs.declared.tail_items.TailItem.{TailItem};
ghost use Rattle.axp_trace.specs.Lines.{event_text, line_text, events_header, trace_header};
ghost use Rattle.axp_trace.specs.Lines.{tail_line, usage_line, read_fault_line, too_long_line};
ghost use Rattle.axp_trace.specs.Lines.{bad_image_line, bad_trace_line, not_legal_line};
ghost use Rattle.axp_trace.specs.Lines.{incomplete_line, differs_line, given_line, right_line};
ghost use Rattle.axp_trace.specs.declared.files.TheConstants.{LINE_FEED};
ghost use Rattle.axp_trace.specs.Files.{lines_of, IsOneLine};

use crate::cuts::cut;

/// The byte that ends a line.
pub const LINE_FEED: u8 = b'\n';

/// The first line of a text without its line feed, and what follows it; `None` where no line ends.
pub fn first_line(text: &[u8]) -> Option<(&[u8], &[u8])>
    ensures none { IsNone result ↔ IsOneLine text.now }
    ensures lines { IfSome result (λ p. lines_of text.now ≡ Some p.0.now ∷ lines_of p.1.now) }
    ensures parted { IfSome result (λ p. text.now ≡ p.0.now ++ LINE_FEED ∷ p.1.now) }
    ensures shorter { IfSome result (λ p. length p.1.now < length text.now) }
    ensures last { IsNone result → lines_of text.now
        ≡ (if length text.now == 0 then [] else None ∷ []) }
{
    cut(text, LINE_FEED)
}

/// A line and its line feed, put before a text, are its first line.
pub fn lines_begin()
    ensures { (line rest : List ℕ) → IsOneLine line
        → lines_of (line ++ LINE_FEED ∷ rest) ≡ Some line ∷ lines_of rest }
{}

/// No line of an event list or a trace has a line feed in it, nor has a line that says why nothing
/// more is printed, where what it shows has none.
pub fn lines_are_whole()
    ensures event { (e : Event) → IsOneLine (event_text e) }
    ensures line { (e : Event) (o : Outcome) → IsOneLine (line_text e o) }
    ensures events_header { (cpus budget : ℕ) → IsOneLine (events_header cpus budget) }
    ensures trace_header { (cpus budget memory : ℕ) → IsOneLine (trace_header cpus budget memory) }
    ensures tail { (i : TailItem) → IsOneLine (tail_line i) }
    ensures usage { IsOneLine usage_line }
    ensures read_fault { IsOneLine read_fault_line }
    ensures too_long { IsOneLine too_long_line }
    ensures bad_image { (kind : List ℕ) (offset : ℕ)
        → IsOneLine kind → IsOneLine (bad_image_line kind offset) }
    ensures bad_trace { (line : ℕ) → IsOneLine (bad_trace_line line) }
    ensures not_legal { (event : ℕ) → IsOneLine (not_legal_line event) }
    ensures incomplete { (events : ℕ) → IsOneLine (incomplete_line events) }
    ensures differs { (line : ℕ) → IsOneLine (differs_line line) }
    ensures given { (line : List ℕ) → IsOneLine line → IsOneLine (given_line line) }
    ensures right { (line : List ℕ) → IsOneLine line → IsOneLine (right_line line) }
{}

/// A line ends with the byte 10.
pub fn line_feed_is_10()
    ensures { LINE_FEED ≡ 10 }
{}

#[cfg(test)]
mod tests {
    use super::*;

    #[test]
    fn a_text_is_taken_line_by_line(rt: HostRuntime) {
        let text: &[u8] = b"0 step\n1 st";
        let (line, rest) = first_line(text).expect(&rt, "a line ends");
        assert!(rt; line == b"0 step" as &[u8]);
        assert!(rt; rest == b"1 st" as &[u8]);
        assert!(rt; first_line(rest).is_none());
    }
}
