//! The program over its arguments.
ghost use Rattle.std.specs.Prelude.{◌≡◌};
ghost use Rattle.command_runner.specs.Ends.{CountsFault, MayFault};
ghost use Rattle.command_runner.specs.Program.{words_of};
ghost use Rattle.brake_draw.specs.Run.{form_for, RunEnds, RunOutcome};

use crate::run_draw::run_draw;
use brake_io::{Shelf, Sink};
use command_runner::{Status, words_of};
use std::alloc::Global;
use std::env::Args;
use std::io;

/// Runs the words behind the program's name. Where the arguments can't be read there is no word;
/// where there is no memory for them, nothing is done.
pub fn run_program<H: Shelf, K: Sink>(
    alloc: Global,
    args: io::Result<Args>,
    shelf: &mut H,
    out: &mut K,
) -> Status
    // All that `run_draw` promises of these words.
    ensures ends { RunEnds (words_of args)
        (record { shelf = H.state shelf.old; sink = K.state out.old })
        (record { shelf = H.state shelf.new; sink = K.state out.new }) result }
    ensures outcome { RunOutcome (words_of args)
        (record { shelf = H.state shelf.old; sink = K.state out.old })
        (record { shelf = H.state shelf.new; sink = K.state out.new }) result }
    ensures fault { result ≡ Status.Fault → CountsFault
        (record { shelf = H.state shelf.old; sink = K.state out.old })
        (record { shelf = H.state shelf.new; sink = K.state out.new }) }
    ensures cause { result ≡ Status.Fault → MayFault (form_for (words_of args)) (words_of args)
        (record { shelf = H.state shelf.old; sink = K.state out.old })
        (record { shelf = H.state shelf.new; sink = K.state out.new }) }
{
    match words_of(alloc, args) {
        Ok(words) => run_draw(alloc, words.as_slice(), shelf, out),
        Err(_) => Status::NoMemory,
    }
}
