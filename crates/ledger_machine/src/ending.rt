//! Steps that end frames.

ghost use Rattle.std.specs.Prelude.{◌≡◌, ◌<◌, ◌≤◌, length, vec_len, IfOk, OnErr, OnOk};
ghost use Rattle.ledger_machine.specs.Turns.{turn_of};
ghost use Rattle.ledger_moves.specs.Frames.{highest_control};
ghost use Rattle.ledger_moves.specs.Moves.{End};
ghost use Rattle.ledger_runs.specs.Outcomes.{config_after};
ghost use Rattle.ledger_runs.specs.Steps.{moved_by};
ghost use Rattle.machine_state.specs.RunStates.{HasNothingToLose, config_of};

use crate::turn::Turn;
use java_control::Completion;
use ledger_moves::CallEnd;
use machine_calls::{run_call_end, run_main_end, run_return};
use machine_state::RunState;
use program_model::Program;
use rlc_base::{NoMemory, Pos};
use std::alloc::Global;

// The top frame, which has a caller, ends. Where memory runs out, or the exception by which it ends is stray, all stays.
fn end_call(
    alloc: Global,
    p: &Program,
    m: &mut RunState,
    pos: Pos,
    completion: Completion,
) -> Result<Turn, NoMemory>
    requires running { 1 < vec_len m.old.frames }
    requires bounded { highest_control m.old.frames.items ≤ length m.old.lists.cells.keys }
    requires settled { HasNothingToLose m.old }
    ensures turn { IfOk result (λ t. t ≡ turn_of (moved_by p.now (config_of m.old) (config_of m.old).frames (End pos completion))) }
    ensures config { OnOk result (config_of m.new ≡ config_after (config_of m.old) (moved_by p.now (config_of m.old) (config_of m.old).frames (End pos completion))) }
    ensures kept { OnErr result (config_of m.new ≡ config_of m.old) }
    ensures bounded { highest_control m.new.frames.items ≤ length m.new.lists.cells.keys }
    ensures settled { HasNothingToLose m.new }
{
    let end = run_call_end(alloc, p, m, pos, completion)?;
    match end {
        CallEnd::NoWay => Ok(Turn::Went),
        CallEnd::Stray(class, at) => Ok(Turn::Stray(class, at)),
        CallEnd::Back(thrown, named, t) => {
            run_return(alloc, p, m, pos, completion, thrown, named, t)?;
            Ok(Turn::Went)
        }
    }
}

// The frame of `main`, which stands alone, ends. Where memory runs out all stays.
fn end_main(
    alloc: Global,
    p: &Program,
    m: &mut RunState,
    pos: Pos,
    completion: Completion,
) -> Result<Turn, NoMemory>
    requires alone { vec_len m.old.frames ≡ 1 }
    requires bounded { highest_control m.old.frames.items ≤ length m.old.lists.cells.keys }
    requires settled { HasNothingToLose m.old }
    ensures turn { IfOk result (λ t. t ≡ turn_of (moved_by p.now (config_of m.old) (config_of m.old).frames (End pos completion))) }
    ensures config { OnOk result (config_of m.new ≡ config_after (config_of m.old) (moved_by p.now (config_of m.old) (config_of m.old).frames (End pos completion))) }
    ensures kept { OnErr result (config_of m.new ≡ config_of m.old) }
    ensures bounded { highest_control m.new.frames.items ≤ length m.new.lists.cells.keys }
    ensures settled { HasNothingToLose m.new }
{
    run_main_end(alloc, p, m, pos, completion)?;
    Ok(Turn::Went)
}

/// Ends the top frame. Where memory runs out, or the exception by which it ends is stray, all stays.
pub fn run_end(
    alloc: Global,
    p: &Program,
    m: &mut RunState,
    pos: Pos,
    completion: Completion,
) -> Result<Turn, NoMemory>
    requires running { 0 < vec_len m.old.frames }
    requires bounded { highest_control m.old.frames.items ≤ length m.old.lists.cells.keys }
    requires settled { HasNothingToLose m.old }
    ensures turn { IfOk result (λ t. t ≡ turn_of (moved_by p.now (config_of m.old) (config_of m.old).frames (End pos completion))) }
    ensures config { OnOk result (config_of m.new ≡ config_after (config_of m.old) (moved_by p.now (config_of m.old) (config_of m.old).frames (End pos completion))) }
    ensures kept { OnErr result (config_of m.new ≡ config_of m.old) }
    ensures bounded { highest_control m.new.frames.items ≤ length m.new.lists.cells.keys }
    ensures settled { HasNothingToLose m.new }
{
    if m.frames.len() == 1 {
        let turn = end_main(alloc, p, m, pos, completion)?;
        Ok(turn)
    } else {
        let turn = end_call(alloc, p, m, pos, completion)?;
        Ok(turn)
    }
}
