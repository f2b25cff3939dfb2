//! The program over its arguments.
ghost use Rattle.std.specs.Prelude.{◌≡◌};
ghost use Rattle.command_runner.specs.Delivery.{Outside};
ghost use Rattle.command_runner.specs.Ends.{CountsFault, MayFault};
ghost use Rattle.command_runner.specs.Program.{words_of};
ghost use Rattle.brake_commands.specs.Forms.{command_of};
ghost use Rattle.brake_commands.specs.Run.{form_for, RunEnds, RunOutcome, TellsBlank};
ghost use Rattle.brake_commands.specs.Headline.{HasHeadline};
ghost use Rattle.brake_commands.specs.Complete.{IsComplete};
ghost use Rattle.brake_commands.specs.Confirmed.{ConfirmsHeld};

use crate::run::brake;
use brake_io::{Shelf, Sink};
use command_runner::{Status, words_of};
use std::alloc::Global;
use std::env::Args;
use std::io;

/// Runs the command that the words behind the program's name are, all of them in order. Where the
/// arguments can't be read, as where one of them isn't UTF-8, there is no word; where there is no
/// memory for them, nothing is done.
pub fn run_program<H: Shelf, K: Sink>(
    alloc: Global,
    args: io::Result<Args>,
    shelf: &mut H,
    out: &mut K,
) -> Status
    // All that `brake` promises of these words.
    ensures ends { RunEnds (words_of args)
        (record { shelf = H.state shelf.old; sink = K.state out.old })
        (record { shelf = H.state shelf.new; sink = K.state out.new }) result }
    ensures outcome { RunOutcome (words_of args)
        (record { shelf = H.state shelf.old; sink = K.state out.old })
        (record { shelf = H.state shelf.new; sink = K.state out.new }) result }
    ensures fault { result ≡ Status.Fault → CountsFault
        (record { shelf = H.state shelf.old; sink = K.state out.old })
        (record { shelf = H.state shelf.new; sink = K.state out.new }) }
    ensures cause { result ≡ Status.Fault →
        MayFault (form_for (command_of (words_of args))) (words_of args)
        (record { shelf = H.state shelf.old; sink = K.state out.old })
        (record { shelf = H.state shelf.new; sink = K.state out.new }) }
    ensures told { TellsBlank (words_of args)
        (record { shelf = H.state shelf.old; sink = K.state out.old })
        (record { shelf = H.state shelf.new; sink = K.state out.new }) result }
    ensures headline { HasHeadline (words_of args)
        (record { shelf = H.state shelf.old; sink = K.state out.old })
        (record { shelf = H.state shelf.new; sink = K.state out.new }) result }
    ensures complete { IsComplete (words_of args)
        (record { shelf = H.state shelf.old; sink = K.state out.old })
        (record { shelf = H.state shelf.new; sink = K.state out.new }) result }
    ensures confirms { ConfirmsHeld (words_of args)
        (record { shelf = H.state shelf.old; sink = K.state out.old })
        (record { shelf = H.state shelf.new; sink = K.state out.new }) result }
{
    match words_of(alloc, args) {
        Ok(words) => brake(alloc, words.as_slice(), shelf, out),
        Err(_) => Status::NoMemory,
    }
}
