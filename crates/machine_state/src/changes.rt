//! What steps do to the parts of a run.

ghost use Rattle.std.specs.Prelude.{◌≡◌, ◌+◌, ◌++◌, ◌-◌, ◌<◌, ◌≤◌, ◌&&◌, length, slice_set, vec_capacity, vec_len};
ghost use Rattle.program_model.specs.Lookups.{optional};

use ledger_obligations::ActiveFrame;
use ledger_state::{ArrayObject, Entry};

/// Puts a frame in the place of the top one.
pub fn put_top(frames: &mut Vec<ActiveFrame>, frame: ActiveFrame)
    requires { 0 < vec_len frames.old }
    ensures { frames.new.items ≡ slice_set frames.old.items (vec_len frames.old - 1) frame }
{
    let last = frames.len() - 1;
    frames[last] = frame;
}

/// Puts the array that a step makes behind the others, for which there is room.
pub fn add_array(arrays: &mut Vec<ArrayObject>, made: Option<ArrayObject>)
    requires { vec_len arrays.old < vec_capacity arrays.old }
    ensures { arrays.new.items ≡ arrays.old.items ++ optional made }
{
    if let Some(array) = made {
        match arrays.push(array) {
            Ok(()) => {}
            Err(_) => {}
        }
    }
}

/// Appends the lines of a step to the ledger, for which there is room.
pub fn add_lines(entries: &mut Vec<Entry>, lines: &[Entry])
    requires { vec_len entries.old + length lines.now ≤ vec_capacity entries.old }
    ensures { entries.new.items ≡ entries.old.items ++ lines.now }
{
    match entries.extend_from_slice(lines) {
        Ok(()) => {}
        Err(_) => {}
    }
}

/// Whether both are so.
pub fn both(first: bool, second: bool) -> bool
    ensures { result ≡ (first && second) }
{
    first && second
}
