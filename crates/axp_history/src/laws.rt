//! What the grammar of a trace and the list that it shows say in the words of the memory model, each proved
//! as the contract of a function that does nothing.
ghost use Rattle.std.specs.Prelude.{◌≡◌, ℕ, List};
ghost use Rattle.axp_access.specs.declared.Record.{Record};
ghost use Rattle.axp_access.specs.declared.tail_items.TailItem.{TailItem};
ghost use Rattle.axp_access.specs.Lists.{accesses_in};
ghost use Rattle.axp_model.specs.Accesses.{accesses};
ghost use Rattle.axp_trace.specs.Lines.{tail_line};
ghost use Rattle.axp_history.specs.Shown.{list_of};
ghost use Rattle.axp_history.specs.Traces.{is_end, is_end_line};

/// The list that records show has the accesses of their history, whatever its room.
pub fn lists_are_histories()
    ensures { (room : ℕ) (h : List Record) → accesses_in (list_of room h) ≡ accesses h }
{}

/// Of the lines of a tail those that end it are those of the number of events.
pub fn end_lines_end()
    ensures { (i : TailItem) → is_end_line (tail_line i) ≡ is_end i }
{}
