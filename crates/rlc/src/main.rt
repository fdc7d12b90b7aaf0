// `rlc`: a resource leak checker for Java must-call obligations. The top call over the host's files and standard output.
#![tactic(auto)]

use outside::{HostFiles, HostSink};
use rlc_cli::{Status, rlc};
use std::process::ExitCode;
use std::{env, io};

// The words of the command, without the program's own name.
fn words(rt: &HostRuntime) -> io::Result<Vec<String>> {
    let mut words = Vec::new(rt.alloc());
    for word in env::args(rt)?.skip(1) {
        words.push(word)?;
    }
    Ok(words)
}

fn main(rt: HostRuntime) -> ExitCode {
    let Ok(words) = words(&rt) else {
        return ExitCode::from(Status::NoMemory.code());
    };
    let mut files = HostFiles::new(&rt);
    let mut out = HostSink::new(&rt);
    let status = rlc(rt.alloc(), &words, &mut files, &mut out);
    ExitCode::from(status.code())
}
