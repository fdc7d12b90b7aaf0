// Runs the cases of the files that its arguments name: rows of tokens and trees from the folder `trees`, graphs of methods from the
// folder `graphs`, whole commands from elsewhere. Arguments that end in `.astub` are stub files, which cases of whole commands may take.
// Prints each case whose answer is another than the case wants, and how many cases of each kind passed and failed.
#![tactic(auto)]

mod commands;
mod stubs;
mod trial;

use case_files::{Count, Cut};
use outside::HostFiles;
use std::process::ExitCode;
use std::{env, io};
use stubs::{StubFile, is_stub, read_stub};

// What the cases of a file are.
#[derive(Clone, Copy, Debug, PartialEq, Eq)]
enum Kind {
    Commands,
    Trees,
    Graphs,
}

// What the cases of the file of this name are.
fn kind_of(file: &str) -> Kind {
    match file.split_once('/') {
        Some(("trees", _)) => Kind::Trees,
        Some(("graphs", _)) => Kind::Graphs,
        _ => Kind::Commands,
    }
}

fn name_of(kind: Kind) -> &'static str {
    match kind {
        Kind::Commands => "commands",
        Kind::Trees => "trees",
        Kind::Graphs => "graphs",
    }
}

// Reads all stub files.
fn read_stubs(rt: &HostRuntime) -> Result<Vec<StubFile>, Cut> {
    let mut files = HostFiles::new(rt);
    let mut stubs = Vec::new(rt.alloc());
    for file in env::args(rt)?.skip(1).filter(|file| is_stub(file)) {
        read_stub(rt.alloc(), &mut files, &file, &mut stubs)?;
    }
    Ok(stubs)
}

// Runs the cases of one file.
fn run_file(
    rt: &HostRuntime,
    kind: Kind,
    file: &str,
    stubs: &[StubFile],
    count: &mut Count,
) -> Result<(), Cut> {
    let mut files = HostFiles::new(rt);
    match kind {
        Kind::Commands => commands::run_file(rt, rt.alloc(), &mut files, file, stubs, count),
        Kind::Trees => tree_cases::run_file(rt, rt.alloc(), &mut files, file, count),
        Kind::Graphs => graph_cases::run_file(rt, rt.alloc(), &mut files, file, count),
    }
}

// Runs all files of a kind, and prints how many cases passed and failed. A file that cannot be run to its end counts as a case that
// failed.
fn run_kind(rt: &HostRuntime, kind: Kind, stubs: &[StubFile]) -> io::Result<Count> {
    let mut count = Count {
        passed: 0,
        failed: 0,
    };
    for file in env::args(rt)?
        .skip(1)
        .filter(|file| !is_stub(file) && kind_of(file) == kind)
    {
        match run_file(rt, kind, &file, stubs, &mut count) {
            Ok(()) => {}
            Err(Cut::Output(error)) => return Err(error),
            Err(Cut::Form(fail)) => {
                println!(rt; "{file}: {fail}")?;
                count.add(false);
            }
        }
    }
    println!(rt;
        "{}: {} passed, {} failed",
        name_of(kind),
        count.passed,
        count.failed
    )?;
    Ok(count)
}

// Runs the files of all kinds, and answers whether a case failed. Without all stub files none is run.
fn run_all(rt: &HostRuntime) -> io::Result<bool> {
    let stubs = match read_stubs(rt) {
        Ok(stubs) => stubs,
        Err(Cut::Output(error)) => return Err(error),
        Err(Cut::Form(fail)) => {
            println!(rt; "the stub files: {fail}")?;
            return Ok(true);
        }
    };
    let commands = run_kind(rt, Kind::Commands, &stubs)?;
    let trees = run_kind(rt, Kind::Trees, &stubs)?;
    let graphs = run_kind(rt, Kind::Graphs, &stubs)?;
    Ok(commands.has_failed() || trees.has_failed() || graphs.has_failed())
}

fn main(rt: HostRuntime) -> ExitCode {
    match run_all(&rt) {
        Ok(false) => ExitCode::SUCCESS,
        _ => ExitCode::FAILURE,
    }
}
