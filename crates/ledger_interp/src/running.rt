//! The first steps of a run, and their text.

ghost use Rattle.std.specs.Prelude.{◌≡◌, ◌++◌, IfOk, OnErr, OnOk};
ghost use Rattle.ledger_machine.specs.Configurations.{configuration};
ghost use Rattle.ledger_runs.specs.Runs.{come_to, how_spent, run, run_from};
ghost use Rattle.ledger_text.specs.Ledger.{ledger_text};

use ledger_machine::{Machine, Turn, start_machine};
use ledger_text::{How, print_entries};
use program_model::{MethodId, Program};
use rlc_base::{NoMemory, Text};
use std::alloc::Global;
use stub_conduct::Choices;

/// What the first steps of a run came to.
#[derive(Drop)]
pub struct RunEnd {
    pub machine: Machine,
    pub how: How,
}

// How the run came to its end when its steps are spent.
#[tactic(auto, using(crate::proofs::RunLaws::how_over, crate::proofs::RunLaws::how_cut))]
fn how_spent(machine: &Machine) -> How
    ensures { result ≡ how_spent (configuration machine.now) (configuration machine.now).frames }
{
    if machine.is_over() {
        How::Ended(machine.exception())
    } else {
        How::Cut
    }
}

// Takes `n` steps, or fewer where no frame is left or the next step is stray.
fn run_on(alloc: Global, p: &Program, machine: Machine, n: u32) -> Result<RunEnd, NoMemory>
    ensures { IfOk result (λ r. come_to (configuration r.machine) r.how ≡ run_from n p.now (configuration machine)) }
{
    let mut now = machine;
    'steps: for taken in 0..n {
        match now.step(alloc, p)? {
            Turn::Went => {}
            Turn::Ended(class) => {
                return Ok(RunEnd {
                    machine: now,
                    how: How::Ended(class),
                });
            }
            Turn::Stray(class, pos) => {
                return Ok(RunEnd {
                    machine: now,
                    how: How::Stray(class, pos),
                });
            }
        }
    }
    let how = how_spent(&now);
    Ok(RunEnd { machine: now, how })
}

/// The first `n` steps of the run that begins in `main`, or fewer where no frame is left or the next step is stray, and how
/// the run came to its end.
#[tactic(auto, unfolding(ledger_runs::specs::Runs::run))]
pub fn run(
    alloc: Global,
    p: &Program,
    main: MethodId,
    choices: Choices,
    n: u32,
) -> Result<RunEnd, NoMemory>
    ensures config { IfOk result (λ r. configuration r.machine ≡ (run p.now main choices n).config) }
    ensures how { IfOk result (λ r. r.how ≡ (run p.now main choices n).how) }
{
    let machine = start_machine(alloc, p, main, choices)?;
    run_on(alloc, p, machine, n)
}

/// Appends the text of a run: its ledger, and how it ended, where `n` steps were asked for. `files` are the names of the
/// files by their numbers. Where memory runs out the text stays as it was.
pub fn print_ledger(
    alloc: Global,
    p: &Program,
    files: &[Text],
    r: &RunEnd,
    n: u32,
    into: &mut Text,
) -> Result<(), NoMemory>
    ensures printed { OnOk result (into.new ≡ into.old ++ ledger_text p.now files.now (configuration r.now.machine).entries r.now.how n) }
    ensures kept { OnErr result (into.new ≡ into.old) }
{
    print_entries(alloc, p, files, r.machine.ledger(), r.how, n, into)
}
