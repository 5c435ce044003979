//! What `explain`, `confirm` and `replay` are to print is one text; and what a command answers for a folder is what it answers for its run, or refuses.
ghost use Rattle.std.specs.Prelude.{◌≡◌, ◌↔◌, ℕ, List, Option};
ghost use Rattle.sw_base.specs.Environment.{Files};
ghost use Rattle.command_answer.specs.Answer.{Answers};
ghost use Rattle.folder_commands.specs.Check.{AnswersForRun, AnswersRefusal, FolderDue, HasReport};
ghost use Rattle.folder_commands.specs.Confirm.{HasConfirmation};
ghost use Rattle.folder_commands.specs.Explain.{HasExplanation};
ghost use Rattle.folder_commands.specs.Replay.{ReplayDue};
ghost use Rattle.folder_commands.specs.Show.{ShowsRecords};

/// `explain` of two lines of a folder.
pub fn a_folder_has_one_explanation()
    ensures { (low high : ℕ) (files : Files) (dir : List ℕ) (status other : ℕ) (text also : List ℕ) → FolderDue (HasExplanation low high) files dir status text
        → FolderDue (HasExplanation low high) files dir other also → text ≡ also }
{}

/// `confirm` of two records of a folder.
pub fn a_folder_has_one_confirmation()
    ensures { (first_row first second_row second : ℕ) (files : Files) (dir : List ℕ) (status other : ℕ) (text also : List ℕ)
        → FolderDue (HasConfirmation first_row first second_row second) files dir status text → FolderDue (HasConfirmation first_row first second_row second) files dir other also
        → text ≡ also }
{}

/// `replay` of a kernel and a folder.
pub fn a_replay_has_one_answer()
    ensures { (files : Files) (kernel dir : List ℕ) (status other : ℕ) (text also : List ℕ) → ReplayDue files kernel dir status text → ReplayDue files kernel dir other also
        → text ≡ also }
{}

/// To give the answer for the good run of a folder, and to refuse a folder by its first bad place, is all that is due of a folder.
pub fn answers_are_for_runs_or_refusals()
    ensures check { (files : Files) (dir : List ℕ) (old new : Option (List ℕ)) (status : ℕ)
        → Answers (FolderDue HasReport files dir) old new status ↔ (AnswersForRun HasReport files dir old new status × AnswersRefusal files dir old new status) }
    ensures show { (files : Files) (dir : List ℕ) (old new : Option (List ℕ)) (status : ℕ)
        → Answers (FolderDue ShowsRecords files dir) old new status ↔ (AnswersForRun ShowsRecords files dir old new status × AnswersRefusal files dir old new status) }
    ensures explain { (low high : ℕ) (files : Files) (dir : List ℕ) (old new : Option (List ℕ)) (status : ℕ)
        → Answers (FolderDue (HasExplanation low high) files dir) old new status
        ↔ (AnswersForRun (HasExplanation low high) files dir old new status × AnswersRefusal files dir old new status) }
    ensures confirm { (first_row first second_row second : ℕ) (files : Files) (dir : List ℕ) (old new : Option (List ℕ)) (status : ℕ)
        → Answers (FolderDue (HasConfirmation first_row first second_row second) files dir) old new status
        ↔ (AnswersForRun (HasConfirmation first_row first second_row second) files dir old new status × AnswersRefusal files dir old new status) }
{}
