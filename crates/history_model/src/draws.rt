ghost use Rattle.std.specs.Prelude.{◌≡◌, ℕ, List, ◌++◌, All, map, min};
ghost use Rattle.log_format.specs.declared.record.Record.{Record};
ghost use Rattle.race_model.specs.Draws.{draws_by_loop, closed_loops, DrewEachOnce};
ghost use Rattle.history_model.specs.Drawn.{LaneDraws, TellsDraws, GaveEachOnce, then_loops};

/// Where a loop's counter gave the lanes of a team each number below its value once, their logs tell each chunk below the smaller
/// of that value and the number of chunks once, and no other; and where one of them closes the loop, that is all chunks.
pub fn lanes_draw_each_chunk_once()
    ensures { (lanes : List LaneDraws) (loop chunks counter : ℕ) → All (TellsDraws loop chunks) lanes → GaveEachOnce lanes counter →
        DrewEachOnce (map (λ (lane : LaneDraws). lane.records) lanes) loop (min counter chunks) }
{}

/// The draws of a log that goes on: those of its parts, where the first loop of the later part goes on the loop that stands open.
pub fn draws_compose()
    ensures draws { (records more : List Record) → draws_by_loop (records ++ more) ≡ then_loops (draws_by_loop records) (draws_by_loop more) }
    ensures closed { (records more : List Record) → closed_loops (records ++ more) ≡ closed_loops records ++ closed_loops more }
{}
