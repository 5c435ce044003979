//! What stands in a log at each moment.
ghost use Rattle.std.specs.Prelude.{List, ℕ};
ghost use Rattle.log_format.specs.declared.record.Record.{Record};
ghost use Rattle.sw_base.specs.Environment.{WhereTold};
ghost use Rattle.event_buffer.specs.Buffered.{Buffered};
ghost use Rattle.event_buffer.specs.Logged.{HoldsRecords, KeepsPrefix};

/// At each moment a log has a prefix of the header and the records that were put, and its pieces lack at most two blocks.
pub fn prefix_stands()
    ensures { (header : List ℕ) (b : Buffered) (records : List Record) → HoldsRecords header b records
        → WhereTold b.text (KeepsPrefix header records b.size) }
{}
