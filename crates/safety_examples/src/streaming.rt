//! The laws. Each is the contract of a function that does nothing.

ghost use Rattle.soundness_laws.specs.Accept.{Accept};
ghost use Rattle.soundness_laws.specs.Safety.{IsSafe};
ghost use Rattle.safety_examples.specs.StreamingPrograms.{streaming};

/// A program that makes a socket, takes its stream and closes the stream is accepted: the stream is an alias of the socket's resource.
pub fn streaming_is_accepted()
    ensures { Accept streaming }
{}

/// So it is safe in every run, whatever an honest library chooses, up to the first stray exception.
pub fn streaming_is_safe()
    ensures { IsSafe streaming }
{}
