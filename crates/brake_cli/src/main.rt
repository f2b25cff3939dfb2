//! A press brake bend planner: the program `brake`.
#![tactic(auto)]

use brake_commands::run_program;
use brake_io::{DirShelf, StdSink};
use std::env;
use std::process::ExitCode;

/// Runs the command over the files of the current folder and standard output, and ends with the
/// status's number.
fn main(rt: HostRuntime) -> ExitCode {
    let mut shelf = DirShelf::new(&rt);
    let mut out = StdSink::new(&rt);
    run_program(rt.alloc(), env::args(&rt), &mut shelf, &mut out).exit_code()
}
