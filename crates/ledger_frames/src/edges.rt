//! The ways by which steps go.

ghost use Rattle.std.specs.Prelude.{◌≡◌};
ghost use Rattle.ledger_frames.specs.Choosing.{edge_of_action, edge_of_class, fits_edge, operation_edge, same_edge};

use java_control::{Action, Edge};
use ledger_state::Value;
use program_model::ClassId;

pub(crate) fn same_edge(a: Edge, b: Edge) -> bool
    ensures { result ≡ same_edge a b }
{
    match (a, b) {
        (Edge::Go, Edge::Go)
        | (Edge::Null, Edge::Null)
        | (Edge::NonNull, Edge::NonNull)
        | (Edge::True, Edge::True)
        | (Edge::False, Edge::False) => true,
        (Edge::Throws(c), Edge::Throws(d)) => c.0 == d.0,
        _ => false,
    }
}

// Whether the edge is the outcome of a test of the value.
pub(crate) fn fits_edge(value: Value, edge: Edge) -> bool
    ensures { result ≡ fits_edge value edge }
{
    match edge {
        Edge::Null => value.is_null(),
        Edge::NonNull => !value.is_null(),
        Edge::True => value.is_true(),
        Edge::False => !value.is_true(),
        Edge::Go | Edge::Throws(_) => false,
    }
}

/// The edge of an exception of this class, or of none.
pub fn edge_of_class(class: Option<ClassId>) -> Edge
    ensures { result ≡ edge_of_class class }
{
    match class {
        None => Edge::Go,
        Some(found) => Edge::Throws(found),
    }
}

fn edge_of_action(action: Action) -> Edge
    ensures { result ≡ edge_of_action action }
{
    match action {
        Action::Raise(_, class) => edge_of_class(class),
        _ => Edge::Go,
    }
}

/// The edge by which an operation goes that throws an exception of this class, or none. An explicit `throw` goes by the
/// static class of what it throws.
pub fn operation_edge(action: Action, thrown: Option<ClassId>) -> Edge
    ensures { result ≡ operation_edge action thrown }
{
    match thrown {
        None => edge_of_action(action),
        Some(class) => Edge::Throws(class),
    }
}
