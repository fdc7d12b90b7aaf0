//! The runs of a program, as definitions: how a run begins, what each step makes of it, and how it ends (JLS 12.1.4, 14, 15). The code
//! that computes them is the machine above; laws on runs need nothing of it.
#![tactic(auto)]
