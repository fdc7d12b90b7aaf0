use crate::faults::FormFail;
use std::io;

/// Why the run of a file of cases was cut short.
#[derive(Drop)]
pub enum Cut {
    /// The file or one of its cases is malformed.
    Form(FormFail),
    /// What was to be printed was not.
    Output(io::Error),
}

impl From<FormFail> for Cut {
    fn from(fail: FormFail) -> Cut {
        Cut::Form(fail)
    }
}

impl From<io::Error> for Cut {
    fn from(error: io::Error) -> Cut {
        Cut::Output(error)
    }
}
