//! Tests of what no contract can say of the low libraries: that their calls succeed where memory is ample, and what the host's
//! files and output take. They stand in one crate, since the tests of a crate cost a second proof of it.
#![tactic(auto)]

#[cfg(test)]
mod again;
#[cfg(test)]
mod fact_pools;
#[cfg(test)]
mod files;
#[cfg(test)]
mod names;
#[cfg(test)]
mod texts;
