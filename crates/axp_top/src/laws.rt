//! Laws of the top call's clauses, each proved as the contract of a function that does nothing.
ghost use Rattle.std.specs.Prelude.{◌≡◌, ◌⊎◌, ◌<◌, ◌^◌, ◌-◌};
ghost use Rattle.axp_io.specs.Causes.{Appends};
ghost use Rattle.axp_top.specs.declared.limits.TheConstants.{MAX_IMAGE_BYTES, MAX_TRACE_BYTES};
ghost use Rattle.axp_top.specs.declared.status.Status.TheVariants as status;
ghost use Rattle.axp_top.specs.declared.status.Status.{Status};
ghost use Rattle.axp_top.specs.Outside.{Outside};
ghost use Rattle.axp_top.specs.Replays.{Answer, text_of};
ghost use Rattle.axp_top.specs.Statuses.{DeskCount, Settles, SinkCount};

/// Where no fault is counted, and neither count stands at its last value, the answer comes with its
/// whole text, or memory was not found.
pub fn no_fault_gives_the_whole_text()
    ensures { (before now : Outside) (answer : Answer) (s : Status) →
        before.desk.faults < 2 ^ 64 - 1 → now.desk.faults ≡ before.desk.faults →
        before.sink.faults < 2 ^ 64 - 1 → now.sink.faults ≡ before.sink.faults →
        Settles before now answer s →
        DeskCount before.desk.faults now.desk.faults s →
        SinkCount before.sink.faults now.sink.faults s →
        ((s ≡ answer.status) × Appends before.sink.taken now.sink.taken (text_of answer))
        ⊎ (s ≡ status.Memory) }
{}

/// An image file has 32 MiB at most, and an event list or a trace 512 MiB.
pub fn limits_of_files()
    ensures image { MAX_IMAGE_BYTES ≡ 33554432 }
    ensures trace { MAX_TRACE_BYTES ≡ 536870912 }
{}
