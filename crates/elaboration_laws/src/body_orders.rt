//! What holds of a body that is accepted. The law is the contract of a function that does nothing.

ghost use Rattle.std.specs.Prelude.{◌≡◌, []};
ghost use Rattle.java_elaboration.specs.SourceClassesMembers.{Environment};
ghost use Rattle.java_elaboration.specs.Bodies.{SourceBody, body_cases};
ghost use Rattle.elaboration_laws.specs.BodyOrders.{IsOrdered};

/// The typed statements of a body in which nothing is refused begin with the super call, where the constructor makes one, and the
/// initialisers of all instance fields of the class that have one, in the order of the text (JLS 8.8.7, 12.5). Each `break` and
/// `continue` stands in a loop (JLS 14.15, 14.16).
pub fn accepted_body_is_ordered()
    ensures { (e : Environment) (b : SourceBody) → body_cases e b ≡ [] → IsOrdered e b }
{}
