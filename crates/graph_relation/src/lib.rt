//! Laws of the graph of a body: its rows of arcs are a control relation over the numbers of its nodes, and paths through it
//! reach and break what paths of controls do.
#![tactic(auto)]
