//! The laws of kernels that texts have.
ghost use Rattle.std.specs.Prelude.{◌≡◌, ◌↔◌, ◌⊎◌, ◌≤◌, ◌∷◌, ◌++◌, List, [], ℕ, ℤ, Some, length, Ok};
ghost use Rattle.log_format.specs.declared.format.TheConstants.{FORMAT};
ghost use Rattle.sw_base.specs.declared.path.Step.{Step};
ghost use Rattle.race_model.specs.Trace.{Trace, Logs, barrier_count};
ghost use Rattle.race_model.specs.IndexFault.{max_rows};
ghost use Rattle.race_model.specs.KeepsRules.{KeepsRules};
ghost use Rattle.race_model.specs.Listing.{IsListing};
ghost use Rattle.kernel_syntax.specs.Program.{Program};
ghost use Rattle.kernel_model.specs.Folder.{IsTracedFolder, paths_of, start_at};
ghost use Rattle.kernel_model.specs.Lawful.{IsLawful};
ghost use Rattle.kernel_model.specs.Trace.{Start, Ended, trace};
ghost use Rattle.kernel_text.specs.Tokens.{Refusal, tokens_of};
ghost use Rattle.kernel_text.specs.Grammar.{KernelTree, kernel_tokens, IsKernel};
ghost use Rattle.kernel_text.specs.Faults.{IsShallow};
ghost use Rattle.kernel_reader.specs.Rules.{kernel_faults};
ghost use Rattle.kernel_reader.specs.Resolve.{program};
ghost use Rattle.kernel_laws.specs.Naming.{HasGoodNames};
ghost use Rattle.kernel_reader.specs.KernelOf.{IsKernelOf, IsRefused};

/// The kernel of a text is lawful.
pub fn kernels_are_lawful()
    ensures { (text : List ℕ) (program : Program) → IsKernelOf text program → IsLawful program }
{}

/// Of a text that tokens and grammar accept, with at most 32 levels, the rules find no fault exactly where its names are good and
/// the program that it is resolved to is lawful.
pub fn rules_are_exact()
    ensures { (text : List ℕ) (tree : KernelTree) → tokens_of text ≡ Ok (kernel_tokens tree) → IsKernel tree → IsShallow tree
        → (kernel_faults tree ≡ []) ↔ (HasGoodNames tree × IsLawful (program tree)) }
{}

/// In a lawful kernel each lane of a region meets the same barriers, whatever it and the others read and drew: of two lanes that start
/// below one task in one region, as some logs tell, the traces that end have equally many Barrier records, and one that stops or
/// wants a value has no more than one that ends.
pub fn lanes_of_regions_meet_the_same_barriers()
    ensures ended { (program : Program) (logs : Logs) (above : List Step) (a b : Step) (one other : Start)
        (reads : List ℤ) (chunks : List ℕ) (reads_beside : List ℤ) (chunks_beside : List ℕ) → IsLawful program → a.region ≡ b.region
        → start_at program logs (above ++ a ∷ []) ≡ Some one → start_at program logs (above ++ b ∷ []) ≡ Some other
        → (trace program one reads chunks).end ≡ Ended → (trace program other reads_beside chunks_beside).end ≡ Ended
        → barrier_count (trace program one reads chunks).records ≡ barrier_count (trace program other reads_beside chunks_beside).records }
    ensures stopped { (program : Program) (logs : Logs) (above : List Step) (a b : Step) (one other : Start)
        (reads : List ℤ) (chunks : List ℕ) (reads_beside : List ℤ) (chunks_beside : List ℕ) → IsLawful program → a.region ≡ b.region
        → start_at program logs (above ++ a ∷ []) ≡ Some one → start_at program logs (above ++ b ∷ []) ≡ Some other
        → (trace program one reads chunks).end ≡ Ended
        → barrier_count (trace program other reads_beside chunks_beside).records ≤ barrier_count (trace program one reads chunks).records }
{}

/// So the tasks of a whole run of the kernel of a text, in the order of a listing and at most 65,536, keep every rule of a folder.
pub fn folders_of_kernels_keep_the_rules()
    ensures { (text : List ℕ) (program : Program) (tasks : Trace) → IsKernelOf text program → IsTracedFolder program tasks → IsListing (paths_of tasks)
        → length tasks ≤ max_rows → KeepsRules FORMAT tasks }
{}

/// A text has one answer, a kernel or a line and the reason for which it is refused.
pub fn texts_have_one_answer()
    ensures some { (text : List ℕ) → ((p : Program) × IsKernelOf text p) ⊎ ((r : Refusal) × IsRefused text r) }
    ensures kernel { (text : List ℕ) (p q : Program) → IsKernelOf text p → IsKernelOf text q → p ≡ q }
    ensures refusal { (text : List ℕ) (r s : Refusal) → IsRefused text r → IsRefused text s → r ≡ s }
    // And never both.
    ensures apart { (text : List ℕ) (p : Program) (r : Refusal) → IsKernelOf text p → IsRefused text r → ⊥ }
{}
