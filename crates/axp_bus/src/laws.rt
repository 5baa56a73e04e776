//! Laws of what the bus answers, each proved as the contract of a function that does nothing.
ghost use Rattle.std.specs.Prelude.{ℕ, Bool, List, ◌≡◌, ◌↔◌, ◌+◌, ◌<◌, ◌≤◌, ◌∷◌, [], Some, false};
ghost use Rattle.std.specs.Prelude.{length, slice_get};
ghost use Rattle.axp_base.specs.declared.lines.Bank.{Bank};
ghost use Rattle.axp_base.specs.declared.lines.Bank.TheVariants.{Code};
ghost use Rattle.axp_base.specs.declared.processors.Cpu.{Cpu};
ghost use Rattle.axp_base.specs.Cpus.{cpu_number};
ghost use Rattle.axp_base.specs.Masks.{has_bit};
ghost use Rattle.axp_base.specs.LatePairs.{AreBefore};
ghost use Rattle.axp_base.specs.Parts.{number_at, part};
ghost use Rattle.axp_line.specs.declared.messages.Request.{Request};
ghost use Rattle.axp_line.specs.BusCalls.{BusCall, is_touched, late, memory, turns};
ghost use Rattle.axp_line.specs.BusReply.{PortState, bus_reply, gone, is_late, reply_by};
ghost use Rattle.axp_bus.specs.Buses.{State};
ghost use Rattle.axp_bus.specs.BusStands.{Stands, call_of};
ghost use Rattle.axp_bus.specs.Ports.{late_for};
ghost use Rattle.axp_bus.specs.ReplyLaws.{Answers, HasNoLock, IsNothing, IsRefused, TakesNothing};
ghost use Rattle.axp_bus.specs.ReplyLaws.{TellsLine, turn_of};

/// What a bus keeps is what its calls made of the memory that it was loaded with.
pub fn buses_keep_what_calls_made()
    ensures late { (b : State) (image : ℕ → ℕ) (cs : List BusCall) (p : ℕ) (bank : Bank)
        → Stands b image cs → p < length b.ports → late_for p bank b.ports ≡ late p bank cs }
    ensures touched { (b : State) (image : ℕ → ℕ) (cs : List BusCall) (q : ℕ) (mark : Bool)
        → Stands b image cs → slice_get b.touched q ≡ Some mark → mark ≡ is_touched q cs }
    ensures memory { (b : State) (image : ℕ → ℕ) (cs : List BusCall) (address n : ℕ)
        → Stands b image cs → address + n ≤ length b.memory
        → part b.memory address n ≡ number_at (memory image cs) address n }
{}

/// What the bus answers fits the request.
pub fn answers_fit_requests()
    ensures { (f : PortState) (q : Request) → Answers q (reply_by f q) }
{}

/// No more turns are made than calls, and no reply tells a turn beyond the next one.
pub fn turns_are_bounded()
    ensures calls { (cs : List BusCall) → turns cs ≤ length cs }
    ensures replies { (image : ℕ → ℕ) (cs : List BusCall) (p : ℕ) (q : Request)
        → turn_of (bus_reply image cs p q) ≤ turns cs + 1 }
{}

/// What is late comes from turns that were made, one pair of a bank from each at most, and nothing
/// is late in the code bank.
pub fn late_turns_were_made()
    ensures made { (p : ℕ) (bank : Bank) (cs : List BusCall)
        → AreBefore (turns cs + 1) (late p bank cs) }
    ensures few { (p : ℕ) (bank : Bank) (cs : List BusCall) → length (late p bank cs) ≤ turns cs }
    ensures code { (p : ℕ) (cs : List BusCall) → late p Code cs ≡ [] }
{}

/// Nothing is the answer exactly to a take from a bank in which nothing is late.
pub fn nothing_where_nothing_is_late()
    ensures { (image : ℕ → ℕ) (cs : List BusCall) (p : ℕ) (q : Request)
        → IsNothing (bus_reply image cs p q) ↔ TakesNothing p cs q }
{}

/// A store-conditional is refused exactly where the processor's own flag is not set or it has not
/// locked the address's block.
pub fn refused_without_a_lock()
    ensures { (image : ℕ → ℕ) (cs : List BusCall) (p : ℕ) (q : Request)
        → IsRefused (bus_reply image cs p q) ↔ HasNoLock p cs q }
{}

/// A line that the bus tells has the bytes of memory as it is after the call.
pub fn told_lines_are_of_memory()
    ensures { (image : ℕ → ℕ) (cs : List BusCall) (cpu : Cpu) (q : Request)
        → TellsLine (memory image (call_of cpu q (bus_reply image cs (cpu_number cpu) q) ∷ cs)) q
        (bus_reply image cs (cpu_number cpu) q) }
{}

/// A barrier's answer has bit `n` exactly where something late reaches the held copy `n`.
pub fn gone_has_a_bit_for_each_copy()
    ensures each { (f : PortState) (held : List (ℕ × ℕ)) (n : ℕ) (copy : ℕ × ℕ)
        → slice_get held n ≡ Some copy → has_bit (gone f held) n ≡ is_late f copy.0 copy.1 }
    ensures no_more { (f : PortState) (held : List (ℕ × ℕ)) (n : ℕ) → length held ≤ n
        → has_bit (gone f held) n ≡ false }
{}
