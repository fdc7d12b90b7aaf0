//! One run of a program.

ghost use Rattle.std.specs.Prelude.{◌≡◌, ◌≤◌, length, true};
ghost use Rattle.ledger_moves.specs.Frames.{highest_control};
ghost use Rattle.machine_state.specs.RunStates.{HasNothingToLose};

use machine_state::RunState;

/// One run of a program at one moment: its frames, its heap with the ledger of each object, its arrays and static fields, the
/// lines of the ledger so far, and the choices of the library. Contracts see it as a configuration.
#[derive(Drop)]
pub struct Machine {
    pub(crate) state: RunState,
    ghost bounded: { highest_control state.frames.items ≤ length state.lists.cells.keys },
    ghost settled: { HasNothingToLose state },
}
