//! The answer of a run.

ghost use Rattle.std.specs.Prelude.{◌≡◌, IfOk};
ghost use Rattle.std.specs.List.{list_any};
ghost use Rattle.ledger_interp.specs.Configurations.{configuration};
ghost use Rattle.command_answers.specs.Texts.{placeless_text};
ghost use Rattle.ledger_interp.specs.Runs.{run};
ghost use Rattle.ledger_text.specs.Ledger.{ledger_text};
ghost use Rattle.ledger_state.specs.Leaks.{is_leak};
ghost use Rattle.run_command.specs.RunAnswers.{answer_outcome, answer_text, outcome_of, run_outcome, run_text};

use crate::mains::main_of;
use command_answers::{Answer, Outcome, placeless};
use ledger_interp::{How, RunEnd, print_ledger, run};
use ledger_state::Entry;
use program_model::{MethodId, Program};
use rlc_base::{Code, NoMemory, Text};
use std::alloc::Global;
use stub_conduct::Choices;

fn is_leak(entry: Entry) -> bool
    ensures { result ≡ is_leak entry }
{
    match entry {
        Entry::Leak(..) => true,
        Entry::Born(..)
        | Entry::Linked(..)
        | Entry::Called(..)
        | Entry::Owner(..)
        | Entry::Reset(..) => false,
    }
}

// Whether the ledger has a leak.
fn has_leak(entries: &[Entry]) -> bool
    ensures { result ≡ list_any is_leak entries.now }
{
    entries.iter().any(|entry| is_leak(*entry))
}

// What a run came to, by whether its ledger has a leak and by how it ended.
fn outcome_of(leaks: bool, how: How) -> Outcome
    ensures { result ≡ outcome_of leaks how }
{
    if leaks {
        return Outcome::Leaks;
    }
    match how {
        How::Ended(_) => Outcome::Accepted,
        How::Stray(_, _) => Outcome::Stray,
        How::Cut => Outcome::RunCut,
    }
}

// What the steps that were taken came to, and their ledger.
fn ledger_answer(
    alloc: Global,
    p: &Program,
    files: &[Text],
    r: &RunEnd,
    steps: u32,
) -> Result<Answer, NoMemory>
    ensures outcome { IfOk result (λ a. a.outcome ≡ outcome_of (list_any is_leak (configuration r.now.machine).entries) r.now.how) }
    ensures text { IfOk result (λ a. a.text ≡ ledger_text p.now files.now (configuration r.now.machine).entries r.now.how steps) }
{
    let outcome = outcome_of(has_leak(r.machine.ledger()), r.how);
    let mut text = Text::new(alloc);
    print_ledger(alloc, p, files, r, steps, &mut text)?;
    Ok(Answer { outcome, text })
}

// The answer of a run that begins in `main`.
fn answer_of_main(
    alloc: Global,
    p: &Program,
    files: &[Text],
    main: MethodId,
    choices: Choices,
    steps: u32,
) -> Result<Answer, NoMemory>
    ensures outcome { IfOk result (λ a. a.outcome ≡ run_outcome (run p.now main choices steps)) }
    ensures text { IfOk result (λ a. a.text ≡ run_text p.now files.now steps (run p.now main choices steps)) }
{
    let end = run(alloc, p, main, choices, steps)?;
    let answer = ledger_answer(alloc, p, files, &end, steps)?;
    Ok(answer)
}

// The refusal of a program without the `main`: `first` is the name of the file that it names.
fn refuse_main(alloc: Global, first: &str) -> Result<Answer, NoMemory>
    ensures outcome { IfOk result (λ a. a.outcome ≡ Outcome.Refused) }
    ensures text { IfOk result (λ a. a.text ≡ placeless_text first.now Code.NoMain) }
{
    let text = placeless(alloc, first, Code::NoMain)?;
    Ok(Answer {
        outcome: Outcome::Refused,
        text,
    })
}

// The answer for the class whose `main` is run, if it has one.
fn answer_for(
    alloc: Global,
    p: &Program,
    files: &[Text],
    first: &str,
    class: &str,
    choices: Choices,
    steps: u32,
) -> Result<Answer, NoMemory>
    ensures outcome { IfOk result (λ a. a.outcome ≡ answer_outcome p.now class.now choices steps) }
    ensures text { IfOk result (λ a. a.text ≡ answer_text p.now files.now first.now class.now choices steps) }
{
    match main_of(p, class) {
        None => {
            let answer = refuse_main(alloc, first)?;
            Ok(answer)
        }
        Some(main) => {
            let answer = answer_of_main(alloc, p, files, main, choices, steps)?;
            Ok(answer)
        }
    }
}

/// The answer of the mode `run` for a program whose signatures are read. `class` is the qualified name of the class whose
/// `main` is run: where no class of the program has that name, or it declares no `main`, the program is refused (74), and
/// `first_file` is the name of the file that the refusal names. Else at most `steps` steps are taken, and the text is the
/// ledger. The outcome is `Leaks` where the ledger has a leak, else `Accepted` where no frame is left, else `Stray` where fewer
/// steps were taken because the next one is stray, else `RunCut`. `choices` are those of the library, and `names` those of the
/// files by their numbers.
pub fn run_answer(
    alloc: Global,
    program: Program,
    names: &[Text],
    first_file: &str,
    class: &str,
    choices: Choices,
    steps: u32,
) -> Result<Answer, NoMemory>
    ensures outcome { IfOk result (λ a. a.outcome ≡ answer_outcome program class.now choices steps) }
    ensures text { IfOk result (λ a. a.text ≡ answer_text program names.now first_file.now class.now choices steps) }
{
    answer_for(alloc, &program, names, first_file, class, choices, steps)
}
