//! Verdicts of one kernel, and what is printed of it.
ghost use Rattle.std.specs.Prelude.{◌≡◌, ℕ, List};
ghost use Rattle.sw_base.specs.Environment.{Files};
ghost use Rattle.kernel_syntax.specs.Program.{Program};
ghost use Rattle.kernel_model.specs.Lawful.{IsLawful};
ghost use Rattle.certify.specs.declared.verdict.Verdict.{Verdict};
ghost use Rattle.certify.specs.Verdicts.{Tells};
ghost use Rattle.certify_command.specs.Certify.{CertifyDue};
ghost use Rattle.certify_laws.specs.Same.{SayTheSame};

/// Verdicts that hold of one kernel say the same. So `certify` answers with a verdict exactly where it holds.
pub fn a_kernel_has_one_verdict()
    ensures { (program : Program) (v w : Verdict) → IsLawful program → Tells program v → Tells program w → SayTheSame v w }
{}

/// The command has one answer to the files.
pub fn certify_has_one_answer()
    ensures { (files : Files) (kernel : List ℕ) (status told : ℕ) (text answer : List ℕ) → CertifyDue files kernel status text → CertifyDue files kernel told answer → (told ≡ status) × (answer ≡ text) }
{}
