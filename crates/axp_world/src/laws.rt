//! What processors play over the bus is what the memory model says.
ghost use Rattle.std.specs.Prelude.{ℕ, List, Ok, ◌≡◌, ◌<◌, ◌&&◌, not, true, false, is_ok};
ghost use Rattle.axp_access.specs.declared.Act.{Act};
ghost use Rattle.axp_access.specs.declared.Act.TheVariants as act;
ghost use Rattle.axp_access.specs.declared.Event.{Event};
ghost use Rattle.axp_access.specs.declared.Outcome.{Outcome};
ghost use Rattle.axp_access.specs.declared.Record.{Record};
ghost use Rattle.axp_base.specs.Cpus.{cpu_number};
ghost use Rattle.axp_base.specs.Lists.{is_empty};
ghost use Rattle.axp_base.specs.declared.processors.Cpu.{Cpu};
ghost use Rattle.axp_base.specs.declared.processors.TheConstants.{MAX_CPUS};
ghost use Rattle.axp_cpu.specs.Actors.{outcome_of, request_of};
ghost use Rattle.axp_cpu.specs.Following.{processors, seat_in};
ghost use Rattle.axp_image.specs.Contents.{Contents, IsValid};
ghost use Rattle.axp_line.specs.BusCalls as calls;
ghost use Rattle.axp_lsu.specs.EntryStates.{entry_in};
ghost use Rattle.axp_model.specs.Console.{printed};
ghost use Rattle.axp_model.specs.Entries.{buffer};
ghost use Rattle.axp_model.specs.EntryStates.{entry_state};
ghost use Rattle.axp_model.specs.Memory.{final_byte, is_touched};
ghost use Rattle.axp_model.specs.Outcomes.{IsRun};
ghost use Rattle.axp_model.specs.Processors.{AreInLine};
ghost use Rattle.axp_model.specs.Turns.{turns};
ghost use Rattle.axp_world.specs.RunLaws.{Played, bytes_in, intent_in, is_legal_in};
ghost use Rattle.axp_model.specs.Waits.{full_bank};
ghost use Rattle.axp_world.specs.RunLaws.{MakesRoom, is_not_legal, is_progress, processors_in, world_in};
ghost use Rattle.axp_world.specs.Deeds.{alone, answer_alone, has_late};
ghost use Rattle.axp_world.specs.Worlds.{IsPlayed, answer_of, image_bytes, reply_at};

/// Every history that processors play over the bus is a run of the memory model: each event was
/// legal after the records before it, and has the outcome that the model says. What processors want
/// lies within a quadword each, so all laws of the model hold of it. Its turns, its memory, the
/// quadwords that were written and what went to the console are the bus's, and each processor
/// stands where its records say. What its write buffer keeps tells of each entry what the records
/// do: whether a write went into it, and whether a drain named it.
pub fn played_histories_are_runs()
    ensures in_line { (image : Contents) (cpus budget : ℕ) → IsValid image
        → AreInLine (processors image cpus budget) }
    ensures run { (g : Played) → IsRun (bytes_in g) (processors_in g) g.history }
    ensures turns { (g : Played) → calls.turns (world_in g).calls ≡ turns g.history }
    ensures memory { (g : Played) (at : ℕ)
        → calls.memory (bytes_in g) (world_in g).calls at ≡ final_byte (bytes_in g) g.history at }
    ensures touched { (g : Played) (q : ℕ)
        → calls.is_touched q (world_in g).calls ≡ is_touched g.history q }
    ensures console { (g : Played) → calls.console (world_in g).calls ≡ printed g.history }
    ensures seats { (g : Played) (p : ℕ) → p < MAX_CPUS
        → seat_in g.image g.cpus g.budget p g.history ≡ ((world_in g).actors p).seat }
    ensures entries { (g : Played) (p n : ℕ)
        → entry_in n ((world_in g).actors p).kept.buffer ≡ entry_state p n g.history }
{}

/// After a played history an event is refused as not legal exactly where the memory model says that
/// it is not: so it is with every event of a processor that there is not.
pub fn refused_where_not_legal()
    ensures { (g : Played) (e : Event)
        → is_not_legal (answer_of g.image g.cpus (world_in g) e) ≡ not (is_legal_in g e) }
{}

/// Every run of the memory model is played.
pub fn runs_are_played()
    ensures { (image : Contents) (cpus budget : ℕ) (h : List Record) → IsValid image
        → IsRun (image_bytes image) (processors image cpus budget) h
        → IsPlayed image cpus budget h }
{}

/// No processor is stuck after a played history: one that is not finished has a legal Step, Fill,
/// Drain or Drop, and one that is finished with a write that waits may drain. Such a Drop makes room
/// in the full bank that the wanted access waits for. What is legal is not refused
/// ([`refused_where_not_legal`]).
pub fn processors_are_never_stuck()
    ensures acts { (g : Played) (c : Cpu) → cpu_number c < g.cpus → (intent_in g c).finished ≡ false
        → (a : Act) × (is_progress a ≡ true)
        × (is_legal_in g (record { cpu = c; act = a }) ≡ true)
        × MakesRoom (full_bank (intent_in g c).wanted (cpu_number c) g.history) a }
    ensures drains { (g : Played) (c : Cpu) → cpu_number c < g.cpus
        → (intent_in g c).finished ≡ true
        → is_empty (buffer (cpu_number c) g.history).waiting ≡ false
        → is_legal_in g (record { cpu = c; act = act.Drain 0 }) ≡ true }
{}

/// Each processor can be taken by itself. It is what its own deeds make of it, its own acts with
/// the bus's answers to them (`led` in `specs/Deeds.antt`), so it is the same whatever else
/// happened; and an answer is the bus's, by the list of all calls, to what it asks as they left it.
/// An event is legal exactly where the processor as its deeds left it may ask for its act, and
/// where the act is a take, something is late, which the bus alone knows; its outcome is fixed by
/// the processor as its deeds left it and by the answer.
pub fn processors_go_by_their_own_deeds()
    ensures state { (g : Played) (p : ℕ)
        → (world_in g).actors p ≡ alone g.image g.cpus g.budget p g.history }
    ensures answers { (g : Played) (e : Event) → reply_at g.image (world_in g) e
        ≡ answer_alone g.image g.cpus g.budget (cpu_number e.cpu) g.history e.act }
    ensures legal { (g : Played) (e : Event) → cpu_number e.cpu < g.cpus → is_legal_in g e
        ≡ (is_ok (request_of (alone g.image g.cpus g.budget (cpu_number e.cpu) g.history) e.act)
        && has_late e.act (world_in g).calls (cpu_number e.cpu)) }
    ensures outcomes { (g : Played) (e : Event) (o : Outcome)
        → answer_of g.image g.cpus (world_in g) e ≡ Ok o
        → o ≡ outcome_of (alone g.image g.cpus g.budget (cpu_number e.cpu) g.history) e.act
        (answer_alone g.image g.cpus g.budget (cpu_number e.cpu) g.history e.act) }
{}
