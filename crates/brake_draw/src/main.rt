//! The program `brake_draw`: the drawn setup sheet of a certificate.
#![tactic(auto)]

mod draw;
mod program;
mod run_draw;
mod say;
mod steps;

use brake_io::{DirShelf, StdSink};
use program::run_program;
use std::env;
use std::process::ExitCode;

/// Draws over the files of the current folder and standard output, and ends with the status's
/// number.
fn main(rt: HostRuntime) -> ExitCode {
    let mut shelf = DirShelf::new(&rt);
    let mut out = StdSink::new(&rt);
    run_program(rt.alloc(), env::args(&rt), &mut shelf, &mut out).exit_code()
}
