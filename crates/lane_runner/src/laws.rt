//! That the arrays of a kernel are where a lane can run, and what widths their elements have; and that the logs handed on are those of the
//! tasks of a tree of work.
ghost use Rattle.std.specs.Prelude.{◌≡◌, ◌<◌, ℕ, List, [], ◌∷◌, All};
ghost use Rattle.kernel_syntax.specs.Layout.{elements};
ghost use Rattle.kernel_syntax.specs.Program.{Program};
ghost use Rattle.kernel_syntax.specs.Bounds.{IsBounded};
ghost use Rattle.shared_words.specs.Handles.{WordsValue, ChunksValue};
ghost use Rattle.log_format.specs.Fitting.{IsWidth};
ghost use Rattle.sw_base.specs.declared.path.Step.{Step};
ghost use Rattle.sw_base.specs.Names.{IsUnder};
ghost use Rattle.history_model.specs.Work.{Work, RegionWork};
ghost use Rattle.execution_model.specs.Runs.{logged_tasks};
ghost use Rattle.lane_runner.specs.Handed.{HandedEntry, LogPlace, MaybeStop, TaskHands, RegionsHand, AreEntriesOf, AreNoDeeper};
ghost use Rattle.execution_model.specs.Elements.{element_width};
ghost use Rattle.lane_runner.specs.World.{IsWorld};

/// The arrays of a kernel within the bounds of the language, with a table of as many words as they have elements, are where a lane of a
/// team can run.
pub fn arrays_of_a_kernel_have_words()
    ensures { (program : Program) (words : WordsValue) (chunks : ChunksValue) (lane span : ℕ) → IsBounded program → words.elements ≡ elements program.arrays → lane < span →
        IsWorld (record { arrays = program.arrays; words = words; chunks = chunks; lane = lane; span = span }) }
{}

/// The element of each word of a kernel within the bounds of the language has a width of the language.
pub fn elements_of_a_kernel_have_widths()
    ensures { (program : Program) → IsBounded program → (word : ℕ) → IsWidth (element_width program.arrays word) }
{}

/// The logs that the regions of a task hand on are those of tasks below it.
pub fn handed_logs_are_of_tasks_below()
    ensures { (place : LogPlace) (stop : MaybeStop) (path : List Step) (number : ℕ) (regions : List RegionWork) (entries : List HandedEntry) → RegionsHand place stop path number regions entries →
        All (λ (e : HandedEntry). IsUnder e.task path) entries }
{}

/// The logs of the root and of all tasks below it are those of the tasks of its tree of work, in the order of an index, where no path has
/// more steps than the tree is listed to.
pub fn handed_logs_are_those_of_the_tasks()
    ensures { (place : LogPlace) (stop : MaybeStop) (depth : ℕ) (root : Work) (entries : List HandedEntry) → TaskHands place stop [] (root ∷ []) entries → AreNoDeeper depth entries →
        AreEntriesOf place stop (logged_tasks depth root) entries }
{}
