//! The laws. Each is the contract of a function that does nothing.

ghost use Rattle.std.specs.Prelude.{◌≢◌, ℕ, List};
ghost use Rattle.program_model.specs.declared.kinds.MethodId.{MethodId};
ghost use Rattle.program_model.specs.declared.program.Program.{Program};
ghost use Rattle.command_answers.specs.declared.answers.Outcome.TheVariants as outcomes;
ghost use Rattle.stub_conduct.specs.declared.choice.Choices.{Choices};
ghost use Rattle.content_laws.specs.Accept.{Accept};
ghost use Rattle.run_command.specs.Runs.{run};
ghost use Rattle.run_command.specs.RunAnswers.{answer_outcome, run_outcome};
ghost use Rattle.content_laws.specs.Safety.{IsMain, IsSafe};
ghost use Rattle.content_laws.specs.AgreementConditions.{MeetsFileConditions};

/// No run of a safe program answers that it leaks.
pub fn safe_run_leaks_nothing()
    ensures { (p : Program) → IsSafe p → (main : MethodId) (choices : Choices) (n : ℕ) → IsMain p main → run_outcome (run p main choices n) ≢ outcomes.Leaks }
{}

/// No run of a program that is accepted, and has what every program of files has, answers that it leaks.
pub fn accepted_run_leaks_nothing()
    ensures { (p : Program) → Accept p → MeetsFileConditions p → (main : MethodId) (choices : Choices) (n : ℕ) → IsMain p main
        → run_outcome (run p main choices n) ≢ outcomes.Leaks }
{}

/// A run of a safe program never answers that it leaks, whatever class is named whose `main` is to run.
pub fn safe_answer_leaks_nothing()
    ensures { (p : Program) → IsSafe p → (name : List ℕ) (choices : Choices) (n : ℕ) → answer_outcome p name choices n ≢ outcomes.Leaks }
{}
