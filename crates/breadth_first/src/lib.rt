//! Laws of a search that goes on from each found value in the order in which they were found, whatever the values are: it
//! finds what some walk reaches, and the first way to each value is one of the fewest steps.
#![tactic(auto)]
