//! The steps of the machine.

ghost use Rattle.std.specs.Prelude.{◌≡◌, ◌∷◌, ◌<◌, ◌≤◌, [], length, map, reverse, true, vec_len, IfOk, IfSome, OnErr, OnOk};
ghost use Rattle.frame_owners.specs.FrameOwners.{Listed, lists_in};
ghost use Rattle.ledger_machine.specs.Configurations.{configuration};
ghost use Rattle.machine_state.specs.RunStates.{HasNothingToLose, config_of};
ghost use Rattle.ledger_moves.specs.Frames.{control_left, highest_control, move_seen};
ghost use Rattle.ledger_runs.specs.Outcomes.{config_after};
ghost use Rattle.ledger_machine.specs.Turns.{turn_of};
ghost use Rattle.frame_owners.specs.Obligations.{held_in};
ghost use Rattle.object_index.specs.ObjectIndexes.{Indexed};
ghost use Rattle.settled_heaps.specs.Settled.{Settled};
ghost use Rattle.ledger_runs.specs.Starts.{start_config};
ghost use Rattle.ledger_runs.specs.Steps.{has_ended, moved_by, step, top_move};

use crate::ending::run_end;
use crate::machine::Machine;
use crate::turn::Turn;
use frame_owners::owner_lists;
use java_control::Lists;
use ledger_moves::{Advance, begin, frame_move};
use ledger_operations::next_choice;
use ledger_state::{Entry, Heap, Value, library_array};
use machine_calls::{run_library, run_start};
use machine_state::RunState;
use machine_steps::run_inner;
use object_index::{ObjectIndex, heap_index};
use program_model::{ClassId, ElementType, MethodId, Program};
use rlc_base::NoMemory;
use settled_heaps::is_settled_heap;
use std::alloc::Global;
use stub_conduct::Choices;

impl Machine {
    /// The lines of the ledger so far, in order. It takes no memory.
    pub fn ledger(&self) -> &[Entry]
        ensures { result.now ≡ (configuration self.now).entries }
    {
        &self.state.entries
    }

    /// Whether no frame is left. It takes no memory.
    #[tactic(auto, using(machine_state::proofs::FrameLaws::ended_seen))]
    pub fn is_over(&self) -> bool
        ensures { result ≡ has_ended (configuration self.now).frames }
    {
        self.state.frames.is_empty()
    }

    /// Where no frame is left, the class of the exception by which `main` ended, or none. It takes no memory.
    pub fn exception(&self) -> Option<ClassId>
        ensures { result ≡ (configuration self.now).ended }
    {
        self.state.ended
    }

    /// Takes one step. Where no frame is left, where the next step is stray, and where memory runs out, the machine stays as it
    /// was.
    pub fn step(&mut self, alloc: Global, p: &Program) -> Result<Turn, NoMemory>
        ensures turn { IfOk result (λ t. t ≡ turn_of (step p.now (configuration self.old))) }
        ensures config { OnOk result (configuration self.new ≡ config_after (configuration self.old) (step p.now (configuration self.old))) }
        ensures kept { OnErr result (configuration self.new ≡ configuration self.old) }
    {
        let turn = take_step(alloc, p, &mut self.state)?;
        Ok(turn)
    }
}

// What the top frame does next.
fn next_advance(alloc: Global, p: &Program, m: &mut RunState) -> Result<Advance, NoMemory>
    requires bounded { highest_control m.old.frames.items ≤ length m.old.lists.cells.keys }
    requires settled { HasNothingToLose m.old }
    ensures seen { IfOk result (λ a. move_seen m.new.lists.cells.keys a ≡ top_move p.now (config_of m.old) (config_of m.old).frames) }
    ensures within { IfOk result (λ a. control_left a ≤ length m.new.lists.cells.keys) }
    ensures kept { config_of m.new ≡ config_of m.old }
    ensures count { vec_len m.new.frames ≡ vec_len m.old.frames }
    ensures bounded { highest_control m.new.frames.items ≤ length m.new.lists.cells.keys }
    ensures settled { HasNothingToLose m.new }
{
    match m.frames.split_last() {
        None => Ok(Advance::Rest),
        Some((top, _below)) => {
            let choice = next_choice(&m.choices, m.used);
            let advance = frame_move(alloc, &mut m.lists, p, &m.heap, &m.arrays, choice, top)?;
            Ok(advance)
        }
    }
}

// Does what comes next.
fn take_move(
    alloc: Global,
    p: &Program,
    m: &mut RunState,
    advance: Advance,
) -> Result<Turn, NoMemory>
    requires running { 0 < vec_len m.old.frames }
    requires bounded { highest_control m.old.frames.items ≤ length m.old.lists.cells.keys }
    requires settled { HasNothingToLose m.old }
    requires within { control_left advance ≤ length m.old.lists.cells.keys }
    ensures turn { IfOk result (λ t. t ≡ turn_of (moved_by p.now (config_of m.old) (config_of m.old).frames (move_seen m.old.lists.cells.keys advance))) }
    ensures config { OnOk result (config_of m.new ≡ config_after (config_of m.old) (moved_by p.now (config_of m.old) (config_of m.old).frames (move_seen m.old.lists.cells.keys advance))) }
    ensures kept { OnErr result (config_of m.new ≡ config_of m.old) }
    ensures bounded { highest_control m.new.frames.items ≤ length m.new.lists.cells.keys }
    ensures settled { HasNothingToLose m.new }
{
    match advance {
        Advance::Inner(thrown, s) => {
            run_inner(alloc, p, m, thrown, s)?;
            Ok(Turn::Went)
        }
        Advance::Start(named, runs, action, pos) => {
            run_start(alloc, p, m, named, runs, action, pos)?;
            Ok(Turn::Went)
        }
        Advance::Library(named, method, conduct, s) => {
            run_library(alloc, p, m, named, method, conduct, s)?;
            Ok(Turn::Went)
        }
        Advance::End(pos, completion) => {
            let turn = run_end(alloc, p, m, pos, completion)?;
            Ok(turn)
        }
        Advance::Stray(class, pos) => Ok(Turn::Stray(class, pos)),
        Advance::Rest => Ok(Turn::Went),
    }
}

// No frame is left, so that no step is taken.
fn over(p: &Program, m: &RunState) -> Turn
    requires { vec_len m.now.frames ≡ 0 }
    ensures turn { result ≡ turn_of (step p.now (config_of m.now)) }
    ensures config { config_of m.now ≡ config_after (config_of m.now) (step p.now (config_of m.now)) }
{
    Turn::Ended(m.ended)
}

// Whether no object is left to lose. It walks all objects.
fn is_settled_run(m: &RunState) -> bool
    ensures { result ≡ true → Settled m.now.heap (map held_in (reverse m.now.frames.items)) }
{
    match m.frames.split_last() {
        None => false,
        Some((top, below)) => is_settled_heap(&m.heap, &top.locals, below),
    }
}

// Which objects the frames own, and the index of the heap.
#[derive(Drop)]
struct RunLists {
    owned: Vec<Vec<u64>>,
    index: ObjectIndex,
}

fn both_lists(owned: Vec<Vec<u64>>, index: ObjectIndex) -> Option<RunLists>
    ensures owned { IfSome result (λ r. r.owned ≡ owned) }
    ensures index { IfSome result (λ r. r.index ≡ index) }
{
    Some(RunLists { owned, index })
}

// Looks which objects so many frames own, and for each object which others its fields own and which are linked to it. It walks all
// objects.
fn run_lists(alloc: Global, heap: &Heap, count: usize) -> Result<Option<RunLists>, NoMemory>
    ensures owned { IfOk result (λ o. IfSome o (λ r. Listed (lists_in r.owned.items) heap.now)) }
    ensures index { IfOk result (λ o. IfSome o (λ r. Indexed r.index heap.now)) }
{
    match owner_lists(alloc, heap, count)? {
        None => Ok(None),
        Some(owned) => match heap_index(alloc, heap)? {
            None => Ok(None),
            Some(index) => Ok(both_lists(owned, index)),
        },
    }
}

// Looks whether an object is left to lose, which objects the frames own, and which belong to or are linked to others, where that is not
// known. Where memory runs out it stays unknown.
fn settle(alloc: Global, m: &mut RunState)
    requires bounded { highest_control m.old.frames.items ≤ length m.old.lists.cells.keys }
    requires settled { HasNothingToLose m.old }
    ensures kept { config_of m.new ≡ config_of m.old }
    ensures bounded { highest_control m.new.frames.items ≤ length m.new.lists.cells.keys }
    ensures settled { HasNothingToLose m.new }
{
    if m.settled {
        return;
    }
    if !is_settled_run(m) {
        return;
    }
    match run_lists(alloc, &m.heap, m.frames.len()) {
        Ok(Some(found)) => {
            let RunLists { owned, index } = found;
            m.owned = owned;
            m.index = index;
            m.settled = true;
        }
        Ok(None) | Err(_) => {}
    }
}

// The top frame takes a step.
fn step_on(alloc: Global, p: &Program, m: &mut RunState) -> Result<Turn, NoMemory>
    requires running { 0 < vec_len m.old.frames }
    requires bounded { highest_control m.old.frames.items ≤ length m.old.lists.cells.keys }
    requires settled { HasNothingToLose m.old }
    ensures turn { IfOk result (λ t. t ≡ turn_of (step p.now (config_of m.old))) }
    ensures config { OnOk result (config_of m.new ≡ config_after (config_of m.old) (step p.now (config_of m.old))) }
    ensures kept { OnErr result (config_of m.new ≡ config_of m.old) }
    ensures bounded { highest_control m.new.frames.items ≤ length m.new.lists.cells.keys }
    ensures settled { HasNothingToLose m.new }
{
    let advance = next_advance(alloc, p, m)?;
    let turn = take_move(alloc, p, m, advance)?;
    settle(alloc, m);
    Ok(turn)
}

// Takes one step.
fn take_step(alloc: Global, p: &Program, m: &mut RunState) -> Result<Turn, NoMemory>
    requires bounded { highest_control m.old.frames.items ≤ length m.old.lists.cells.keys }
    requires settled { HasNothingToLose m.old }
    ensures turn { IfOk result (λ t. t ≡ turn_of (step p.now (config_of m.old))) }
    ensures config { OnOk result (config_of m.new ≡ config_after (config_of m.old) (step p.now (config_of m.old))) }
    ensures kept { OnErr result (config_of m.new ≡ config_of m.old) }
    ensures bounded { highest_control m.new.frames.items ≤ length m.new.lists.cells.keys }
    ensures settled { HasNothingToLose m.new }
{
    if m.frames.is_empty() {
        let turn = over(p, m);
        Ok(turn)
    } else {
        let turn = step_on(alloc, p, m)?;
        Ok(turn)
    }
}

/// The machine at the start of a run: one frame, of `main`, whose argument is an array of texts that the library chooses; no
/// object, no line of the ledger, and no choice used.
#[tactic(auto, unfolding(ledger_runs::specs::Starts::start_config))]
pub fn start_machine(
    alloc: Global,
    p: &Program,
    main: MethodId,
    choices: Choices,
) -> Result<Machine, NoMemory>
    ensures { IfOk result (λ m. configuration m ≡ start_config p.now main choices) }
{
    let mut arguments = Vec::new(alloc);
    arguments.push(Value::Array(0))?;
    let mut lists = Lists::new(alloc);
    let frame = begin(alloc, p, &mut lists, main, Value::Nothing, arguments)?;
    let mut frames = Vec::new(alloc);
    frames.push(frame)?;
    let mut arrays = Vec::new(alloc);
    arrays.push(library_array(alloc, ElementType::Str, i64::from(choices.args)))?;
    Ok(Machine {
        state: RunState {
            lists,
            frames,
            heap: Heap::new(alloc),
            arrays,
            statics: Vec::new(alloc),
            entries: Vec::new(alloc),
            choices: choices.list,
            used: 0,
            ended: None,
            settled: false,
            owned: Vec::new(alloc),
            index: ObjectIndex::new(alloc),
        },
    })
}
