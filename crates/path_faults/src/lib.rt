//! Laws of what a search of a body reached: each origin that a path bears is in the body's list of origins, and a rule is
//! broken at a visit exactly where some path breaks it.
#![tactic(auto)]
