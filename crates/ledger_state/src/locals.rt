//! The values of a frame.

ghost use Rattle.std.specs.Prelude.{◌≡◌};
ghost use Rattle.ledger_state.specs.Locals.{temp_in, temp_value, variable_value};

use crate::value::{Value, Values};

/// The values of a frame: of its variables, of `this`, and of its temps by depth.
#[derive(Drop)]
pub struct Locals {
    pub variables: Values,
    pub this: Value,
    pub temps: Values,
}

impl Locals {
    /// What the temp of this depth holds.
    pub fn temp(&self, depth: u64) -> Value
        ensures { result ≡ temp_value self.now depth }
    {
        self.temps.get(depth)
    }

    /// What the temp holds, where there is one.
    pub fn temp_in(&self, depth: Option<u32>) -> Value
        ensures { result ≡ temp_in self.now depth }
    {
        match depth {
            None => Value::Nothing,
            Some(depth) => self.temp(u64::from(depth)),
        }
    }

    /// What the variable with this number holds.
    pub fn variable(&self, number: u64) -> Value
        ensures { result ≡ variable_value self.now number }
    {
        self.variables.get(number)
    }
}
