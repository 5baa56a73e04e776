//! Worked examples of the memory model. Each is the trace of a run, written out in
//! `specs/Examples`, and a theorem by computation: every event of the trace is legal after those
//! before it, and has the outcome that stands beside it. Where an example is a refusal, one event
//! more is not legal.
ghost use Rattle.std.specs.Prelude.{ℕ, List, reverse};
ghost use Rattle.axp_access.specs.declared.Record.{Record};
ghost use Rattle.axp_model.specs.Examples.{Programs, processors, Shows, AnotherBlock};
ghost use Rattle.axp_model.specs.Examples.{BarrierBetween, CodeAfterImb, CodeAfterMb};
ghost use Rattle.axp_model.specs.Examples.{DependentLoad, DroppedAndFilled, FullBuffer, LockRange};
ghost use Rattle.axp_model.specs.Examples.{Merging, MixedSources, OneDropAStep, OwnStoreDrained};
ghost use Rattle.axp_model.specs.Examples.{OwnStoreWaits, ReadWantsCopy, RoomAfterDrain};
ghost use Rattle.axp_model.specs.Examples.{SignalBehindBarrier, SignalIsATurn, StoreBuffering};
ghost use Rattle.axp_model.specs.Examples.{TakenInTime, WriteBarrierBetween, YoungerGroupWaits};
ghost use Rattle.axp_model.specs.Examples.{EntriesRoundWriteBarrier};
ghost use Rattle.axp_model.specs.Outcomes.{IsRun};

/// A trace that an example shows is a run, as the laws of the model speak of one: what holds of
/// every run holds of it.
pub fn shown_traces_are_runs()
    ensures { (image : ℕ → ℕ) (programs : Programs) (trace : List Record)
        → Shows image programs trace → IsRun image (processors programs) (reverse trace) }
{}

/// Writes wait in write buffers. So two processors both read old data (`store_buffering`), and a
/// read takes bytes of its own processor's waiting write and others of older memory
/// (`mixed_sources`). A write joins the entry of its line, and so passes one in between
/// (`merging`), but no write barrier (`write_barrier_between`, with how far each entry has then
/// come, `entries_round_write_barrier`): what comes after one is not drained before what came
/// before (`younger_group_waits`). A full buffer refuses a write (`full_buffer`) until an entry is
/// drained (`room_after_drain`).
pub fn writes_wait()
    ensures store_buffering { StoreBuffering }
    ensures mixed_sources { MixedSources }
    ensures merging { Merging }
    ensures write_barrier_between { WriteBarrierBetween }
    ensures entries_round_write_barrier { EntriesRoundWriteBarrier }
    ensures younger_group_waits { YoungerGroupWaits }
    ensures full_buffer { FullBuffer }
    ensures room_after_drain { RoomAfterDrain }
{}

/// Invalidations come late. So a load by a new pointer may give an old datum (`dependent_load`).
/// Where the invalidation is taken in time, the read is refused (`read_wants_copy`) until the line
/// is filled again (`taken_in_time`); a barrier delivers all that are late (`barrier_between`). A
/// copy that was given up and filled again is younger than what is late, and is kept
/// (`dropped_and_filled`); a bank's copies are given up one a Step (`one_drop_a_step`).
pub fn invalidations_come_late()
    ensures dependent_load { DependentLoad }
    ensures taken_in_time { TakenInTime }
    ensures read_wants_copy { ReadWantsCopy }
    ensures barrier_between { BarrierBetween }
    ensures dropped_and_filled { DroppedAndFilled }
    ensures one_drop_a_step { OneDropAStep }
{}

/// A signal to another processor is a turn (`signal_is_a_turn`), ordered by write barriers like a
/// write (`signal_behind_barrier`).
pub fn signals_are_turns()
    ensures signal_is_a_turn { SignalIsATurn }
    ensures signal_behind_barrier { SignalBehindBarrier }
{}

/// A lock is of a block of 16 bytes: a store-conditional to another block fails (`another_block`),
/// but so does one after another processor's write to any block of the line (`lock_range`). An own
/// store to the line has to be drained first (`own_store_waits`), and leaves the lock
/// (`own_store_drained`).
pub fn locks_are_of_blocks()
    ensures lock_range { LockRange }
    ensures another_block { AnotherBlock }
    ensures own_store_waits { OwnStoreWaits }
    ensures own_store_drained { OwnStoreDrained }
{}

/// Code that was written is fetched as it was before, also after an MB (`code_after_mb`); after an
/// IMB, as it is now (`code_after_imb`).
pub fn written_code_wants_imb()
    ensures code_after_mb { CodeAfterMb }
    ensures code_after_imb { CodeAfterImb }
{}
