//! The law of the reasons, proved as the contract of a function that does nothing.
ghost use Rattle.std.specs.Prelude.{ℕ, List, ◌≡◌, true, is_some};
ghost use Rattle.axp_image.specs.Contents.{Contents, IsValid};
ghost use Rattle.axp_top.specs.Replays.{FileLine, answer_of_lines};
ghost use Rattle.axp_top.specs.declared.status.Status.TheVariants.{NotLegal};
ghost use Rattle.axp_explain.specs.Reasons.{reason_of_lines};

/// Where a file over a valid image is refused for an event that is not legal, there is a reason to
/// tell: nobody is left with the bare refusal.
pub fn refusals_have_a_reason()
    ensures { (image : Contents) (ls : List FileLine) (n : ℕ) → IsValid image
        → (answer_of_lines image ls).status ≡ NotLegal n
        → is_some (reason_of_lines image ls) ≡ true }
{}
