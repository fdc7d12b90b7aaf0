//! What a search goes on by.

ghost use Rattle.std.specs.Prelude.{ℕ, IfOk, Option};
ghost use Rattle.reached_pairs.specs.Turns.{AreStarts, AreSteps};
ghost use Rattle.reached_pairs.specs.Walks.{IsWalk};
ghost use Rattle.reached_pairs.specs.Additions.{points_in};

use reached_pairs::Point;
use std::alloc::{AllocError, Global};

/// Where walks start, and what one step leads to.
pub trait Transitions<F> {
    // what the methods rely on
    ghost fits: { Self → Type 0 };

    // what is known at a start
    ghost starts: { Self → ℕ × Option F → Type 0 };

    // the step by the arc of that place leads from what is known at a node to what is known at another
    ghost leads: { Self → ℕ → ℕ × Option F → ℕ × Option F → Type 0 };

    /// All that is known at a start.
    fn start_points(&self, alloc: Global) -> Result<Vec<Point<F>>, AllocError>
        requires { fits self.now }
        ensures { IfOk result (λ v. AreStarts (starts self.now) (leads self.now) (points_in v.items)) };

    /// All to which one step leads from the visit at the place, which has this node and this fact.
    fn step_points(
        &self,
        alloc: Global,
        at: usize,
        node: u32,
        fact: Option<F>,
    ) -> Result<Vec<Point<F>>, AllocError>
        requires fits { fits self.now }
        requires reached { (n : ℕ) × IsWalk (starts self.now) (leads self.now) n (node, fact) }
        ensures { IfOk result (λ v. AreSteps (starts self.now) (leads self.now) at (node, fact) (points_in v.items)) };
}
