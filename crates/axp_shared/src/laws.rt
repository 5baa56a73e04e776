//! Laws of the shared bus, each proved as the contract of a function that does nothing.
ghost use Rattle.std.specs.Prelude.{◌≡◌, ◌^◌, ◌<◌, ℕ, List};
ghost use Rattle.axp_bus.specs.ReplyLaws.{Answers, turn_of};
ghost use Rattle.axp_line.specs.BusCalls.{BusCall};
ghost use Rattle.axp_line.specs.declared.messages.Reply.{Reply};
ghost use Rattle.axp_line.specs.declared.messages.Request.{Request};
ghost use Rattle.axp_shared.specs.Answers.{IsBusAnswer};
ghost use Rattle.axp_shared.specs.declared.buses.TheConstants.{CALLS_PER_STEP};
ghost use Rattle.axp_shared.specs.declared.logs.BusStart.{BusStart};

/// How many calls a seat may make for each step of the budget, as a number.
pub fn limits_are_these()
    ensures calls { CALLS_PER_STEP ≡ 13 }
{}

/// What a seat is answered fits its request, and tells a turn that is a number of 32 bits.
pub fn right_answers_fit()
    ensures kind { (start : BusStart) (before : List BusCall) (cpu : ℕ) (request : Request)
        (answer : Reply) → IsBusAnswer start before cpu request answer → Answers request answer }
    ensures turn { (start : BusStart) (before : List BusCall) (cpu : ℕ) (request : Request)
        (answer : Reply) → IsBusAnswer start before cpu request answer → turn_of answer < 2 ^ 32 }
{}
