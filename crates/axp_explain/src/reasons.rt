ghost use Rattle.std.specs.Prelude.{◌≡◌};
ghost use Rattle.axp_explain.specs.ReasonWords.{reason_words};

use axp_machine::Reason;

/// Why an event is not legal, in a person's words.
#[tactic(auto, unfolding(crate::specs::ReasonWords::reason_words))]
pub fn reason_words(reason: Reason) -> &'static str
    ensures { result.now ≡ reason_words reason }
{
    match reason {
        Reason::NoProcessor => "the machine has no processor of this number",
        Reason::Finished => {
            "the processor is finished (halted, or its budget of steps made), and may drain alone"
        }
        Reason::AfterFill => "the processor filled a line, and its step must come next",
        Reason::NotAtBoundary => {
            "the processor is not at a boundary: it is between two accesses of one instruction or entry"
        }
        Reason::NothingWanted => {
            "there is nothing to fill: the processor's next step makes no access"
        }
        Reason::NoCopyWanted => {
            "there is nothing to fill: the processor's next access takes no copy of a line"
        }
        Reason::LineHeld => "a fill of a line that the bank holds",
        Reason::BankFull => { "the bank is full: it holds 16 lines, and none of them is this one" }
        Reason::LineNotHeld => {
            "a read of a line that the bank does not hold: a fill must come before it"
        }
        Reason::BufferFull => {
            "the write buffer is full: it has 8 entries, and none takes this write"
        }
        Reason::LineWaits => {
            "a write of the same line waits in the write buffer: it must be drained before"
        }
        Reason::OlderGroupWaits => {
            "a write from before a write barrier waits in the write buffer: it must be drained before"
        }
        Reason::WriteWaits => {
            "a barrier while a write waits in the write buffer: it must be drained before"
        }
        Reason::PastOldestGroup => {
            "a drain past the oldest group of the write buffer: the group has no entry of this number"
        }
        Reason::NothingLate => { "there is nothing to take: no invalidation is late for this bank" }
        Reason::CopyNotHeld => "a drop of a line that the bank does not hold",
        Reason::DroppedSinceStep => {
            "a second drop from this bank since the processor's last step"
        }
        Reason::PolledSinceStep => "a second poll since the processor's last step",
        Reason::InterruptsMasked => {
            "the processor takes no interrupt: its interrupt level is 5 or above"
        }
        Reason::TickedSinceStep => "a second tick since the processor's last step",
    }
}
