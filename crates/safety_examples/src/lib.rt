//! Programs that show that what is said of safety, and of accepted programs, is not empty:
//!
//! - Programs that show that what is said of safety is not empty.
//! - Programs that show that what is said of accepted programs is not empty: one that closes its socket, and one that takes a stream
//!   of its socket, an alias of it, and closes the stream alone.
//! - A program that shows that what is said of accepted programs speaks of owning fields: a holder keeps a resource in one, and its
//!   `close` has it closed by a method of the library that promises this.
//! - A program that shows that what is said of accepted programs speaks of methods of the program itself that promise something of a
//!   parameter that they are lent: `shut` closes its argument, as its annotation says, and `main` makes a resource and has it closed so.
//! - A program that shows that what is said of accepted programs speaks of methods of the program itself that return their aliased
//!   argument: `main` makes a resource, passes it through `pass`, and closes what it gets back.
//! - A program that shows that what is said of accepted programs speaks of constructors of the program itself that make a resource alias: a
//!   wrapper keeps its argument in an owning field, and its `close` has this closed.
//! - A program that shows that what is said of accepted programs speaks of classes with owning fields that extend other classes: the
//!   constructor of holders calls a super constructor before it stores into the field.
//! - A program that shows that what is said of accepted programs speaks of calls that create obligations anew, beside owning fields: it makes a
//!   socket on which nothing must be called, connects it, and gives it to a holder, whose constructor connects it anew before it keeps it in an owning field,
//!   and which has it closed.
//! - A program that shows that what is said of accepted programs speaks of methods of the program itself that create obligations anew: `main` makes a socket on
//!   which nothing must be called, has it connected by `reopen`, which is lent it, and closes it.
//! - A program that shows that what is said of safety speaks of obligations that methods of the program create anew as their calls end: `main` closes its socket,
//!   lends it to such a method, whose body does nothing, and ends, by which the socket leaks.
//! - A program that shows that what is said of accepted programs speaks of obligations that a constructor creates anew on what its owning field holds: it makes a
//!   socket, on which nothing must be called, stores it, and connects it there.
//! - A program that shows that what is said of accepted programs speaks of methods that create the obligation of an object with an owning field anew: `connect` of a
//!   holder connects what its field holds, and `main` closes the holder, connects it, and closes it again.
//! - A program that shows that what is said of accepted programs speaks of methods that store into owning fields: `reopen` of a holder closes what its field holds
//!   and stores a new resource there, and `main` closes the holder, reopens it, and closes it again.
//! - A program that shows that what is said of accepted programs speaks of constructors that call what creates the obligation of their object anew: the constructor of a
//!   holder stores a resource and calls `reopen`, which closes this and stores a new one.
//! - A program that shows that what is said of accepted programs speaks of promises that hold where a method throws: `shut` closes its argument by a call
//!   that may throw, as both its annotations say, and `main` makes a socket and has it closed so.
#![tactic(auto)]

mod aliasing;
mod careful;
mod connecting;
mod extending;
mod forgetful;
mod holding;
mod laws;
mod lending;
mod opening;
mod reconnecting;
mod reopening;
mod replacing;
mod resetting;
mod streaming;
mod throwing;
mod wrapping;

pub use aliasing::{aliasing_has_main, aliasing_is_accepted, aliasing_is_safe};
pub use careful::careful_is_safe;
pub use connecting::{connecting_has_main, connecting_is_accepted, connecting_is_safe};
pub use extending::{extending_has_main, extending_is_accepted, extending_is_safe};
pub use forgetful::{forgetful_is_not_safe, forgetful_run_leaks};
pub use holding::{holding_has_main, holding_is_accepted, holding_is_safe};
pub use laws::{
    careful_has_no_fault, careful_is_accepted, careful_is_valid, careful_is_well_formed,
    careful_run_ends, careless_is_not_safe,
};
pub use lending::{lending_has_main, lending_is_accepted, lending_is_safe};
pub use opening::{opening_has_main, opening_is_accepted, opening_is_safe};
pub use reconnecting::{reconnecting_has_main, reconnecting_is_accepted, reconnecting_is_safe};
pub use reopening::{reopening_has_main, reopening_is_accepted, reopening_is_safe};
pub use replacing::{replacing_has_main, replacing_is_accepted, replacing_is_safe};
pub use resetting::{resetting_has_main, resetting_is_accepted, resetting_is_safe};
pub use streaming::{streaming_is_accepted, streaming_is_safe};
pub use throwing::{throwing_has_main, throwing_is_accepted, throwing_is_safe};
pub use wrapping::{wrapping_has_main, wrapping_is_accepted, wrapping_is_safe};
