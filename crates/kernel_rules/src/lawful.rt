//! Laws of lawful kernels.
ghost use Rattle.std.specs.Prelude.{◌≡◌, ◌≤◌, ℤ, List, ℕ, length};
ghost use Rattle.log_format.specs.declared.format.TheConstants.{FORMAT};
ghost use Rattle.log_format.specs.declared.record.Record.{Record};
ghost use Rattle.race_model.specs.Trace.{Trace, barrier_count};
ghost use Rattle.race_model.specs.IndexFault.{max_rows};
ghost use Rattle.race_model.specs.KeepsRules.{KeepsRules};
ghost use Rattle.race_model.specs.Listing.{IsListing};
ghost use Rattle.kernel_syntax.specs.Program.{Program};
ghost use Rattle.kernel_syntax.specs.Tree.{TeamTree};
ghost use Rattle.kernel_model.specs.Chunking.{HasCounts};
ghost use Rattle.kernel_model.specs.Folder.{IsTraced, IsTracedFolder, paths_of};
ghost use Rattle.kernel_model.specs.Lawful.{Scope, IsEven, IsLawful, IsScoped};
ghost use Rattle.kernel_model.specs.Parts.{parts_of, bar_count};
ghost use Rattle.kernel_model.specs.Trace.{Start, Ended, trace};

/// A lane's trace has as many barriers as its team's body has between its parts, whatever was read and drawn; so all lanes of a
/// team that end pass equally many, and one that stops passes no more.
pub fn lanes_meet_the_same_barriers()
    ensures ended { (program : Program) (start : Start) (reads : List ℤ) (chunks : List ℕ) → IsEven start.team.body
        → (trace program start reads chunks).end ≡ Ended
        → barrier_count (trace program start reads chunks).records ≡ bar_count (parts_of start.team.body) }
    ensures stopped { (program : Program) (start : Start) (reads : List ℤ) (chunks : List ℕ) → IsEven start.team.body
        → barrier_count (trace program start reads chunks).records ≤ bar_count (parts_of start.team.body) }
    ensures same { (program : Program) (one other : Start) (records beside : List Record) → IsEven one.team.body → one.team ≡ other.team
        → IsTraced program one records → IsTraced program other beside → barrier_count records ≡ barrier_count beside }
{}

/// The tasks of a whole run of a lawful kernel, in the order of a listing and at most 65,536, keep every rule of a folder.
pub fn lawful_folder_keeps_the_rules()
    ensures { (program : Program) (tasks : Trace) → IsLawful program → IsTracedFolder program tasks → IsListing (paths_of tasks)
        → length tasks ≤ max_rows → KeepsRules FORMAT tasks }
{}

/// How many chunks the loops of a team have, in order: all lanes that start with the same locals tell them, whatever was read and drawn.
pub fn lanes_find_the_same_chunks()
    ensures { (names : Scope) (team : TeamTree) (slots : List ℤ) → IsScoped names team.body → IsEven team.body → HasCounts team slots }
{}
