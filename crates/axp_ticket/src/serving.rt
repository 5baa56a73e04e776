ghost use Rattle.std.specs.Prelude.{◌≡◌, ℕ, ◌<◌, List, length};
ghost use Rattle.axp_call.specs.declared.calls.Call.{Call};
ghost use Rattle.axp_call.specs.Calls.{EachRight};
ghost use Rattle.axp_ticket.specs.History.{IsOneLonger};

/// A value that answers asks of numbered seats, and stores the list of its calls. It has a start,
/// plain data that no call changes, and room for so many calls.
pub trait Served: Drop {
    /// What the value was before its first call. No value of it need ever be made.
    type Start;

    /// What a seat asks.
    type Ask;

    /// What it is answered.
    type Answer;

    /// The value's start.
    ghost start: { Self → Self.Start };

    /// How many calls it has room for.
    ghost room: { Self → ℕ };

    /// Its calls, the earliest first.
    ghost calls: { Self → List (Call Self.Ask Self.Answer) };

    /// Which asks fit the seat of a number at a start.
    ghost Fits: { Self.Start → ℕ → Self.Ask → Type 0 };

    /// Which answer is right at a start, after earlier calls, for the seat of a number and its ask.
    ghost Right: { Self.Start → List (Call Self.Ask Self.Answer)
        → ℕ → Self.Ask → Self.Answer → Type 0 };

    /// Answers the ask, and appends exactly this call. The seat's number is that of a processor.
    fn reply(&mut self, seat: u8, ask: Self::Ask) -> Self::Answer
        requires fits { Fits (start self.old) seat ask }
        requires room { length (calls self.old) < room self.old }
        ensures right { Right (start self.old) (calls self.old) seat ask result }
        ensures calls { IsOneLonger (calls self.old) (calls self.new) seat ask result }
        ensures start { start self.new ≡ start self.old }
        ensures room { room self.new ≡ room self.old };

    /// Each stored call is right after those before it.
    ghost each_right: { (x : Self) → EachRight Right (start x) (calls x) };
}
