//! Laws of the pairs that a search of a body reached: read through the nodes of the graph and the list of facts, they are the
//! pairs of a control and a fact that paths of controls reach.
#![tactic(auto)]
