//! The top call.
ghost use Rattle.std.specs.Prelude.{◌≡◌, List, ℕ, [], map, string_bytes};
ghost use Rattle.command_runner.specs.Delivery.{Outside};
ghost use Rattle.command_runner.specs.Ends.{Ends, IsOutcome, CountsFault, MayFault};
ghost use Rattle.brake_commands.specs.Forms.{command_of};
ghost use Rattle.brake_commands.specs.Run.{form_for, meaning_for, begins_for, RunEnds, RunOutcome, TellsBlank};
ghost use Rattle.brake_commands.specs.Headline.{HasHeadline};
ghost use Rattle.brake_commands.specs.Complete.{IsComplete};
ghost use Rattle.brake_commands.specs.Confirmed.{ConfirmsHeld};

use crate::command::{read_words, run_command};
use crate::usage::usage;
use brake_io::{Shelf, Sink};
use command_runner::{Status, deliver};
use std::alloc::Global;

/// Puts the usage text.
fn put_usage<H: Shelf, K: Sink>(alloc: Global, shelf: &mut H, out: &mut K) -> Status
    ensures ends { (words : List (List ℕ)) → Ends [] (meaning_for None) (begins_for None) words
        (record { shelf = H.state shelf.old; sink = K.state out.old })
        (record { shelf = H.state shelf.new; sink = K.state out.new }) result }
    ensures fault { result ≡ Status.Fault → CountsFault
        (record { shelf = H.state shelf.old; sink = K.state out.old })
        (record { shelf = H.state shelf.new; sink = K.state out.new }) }
    ensures cause { (words : List (List ℕ)) → result ≡ Status.Fault → MayFault [] words
        (record { shelf = H.state shelf.old; sink = K.state out.old })
        (record { shelf = H.state shelf.new; sink = K.state out.new }) }
{
    match usage(alloc) {
        Ok(answer) => deliver(&answer, shelf, out),
        Err(_) => Status::NoMemory,
    }
}

/// Runs the command whose words these are: `blank PART TOOLS` puts the blank sheet, and `plan PART
/// TOOLS MACHINE CERT` stores the certificate of a plan of least cost and puts the sheets; `check
/// CERT`, with the files of a job or without, puts what the certificate proves; `trial N` plans a
/// generated job and checks the certificate; `why` puts what refuses a bend; `setups` stores the
/// certificates of a list of setups and puts the cheapest one; `settle` and `merge` store a table,
/// and `prove` puts what one proves. Words of no form, or with a number out of its range, are
/// answered by the usage text before anything is fetched.
pub fn brake<H: Shelf, K: Sink>(
    alloc: Global,
    words: &[String],
    shelf: &mut H,
    out: &mut K,
) -> Status
    // The run stores and puts an answer that the words and the files have, or is cut short: before an
    // answer is given only `plan`, `settle` and `merge` have stored anything, the text of one of its
    // answers or a beginning of it, and `setups`, the first of its certificates.
    ensures ends { RunEnds (map string_bytes words.now)
        (record { shelf = H.state shelf.old; sink = K.state out.old })
        (record { shelf = H.state shelf.new; sink = K.state out.new }) result }
    // As it shows from outside: a file is refused for its length only where the count of long files
    // rose, and where that rose nothing else is answered, unless the run is cut short.
    ensures outcome { RunOutcome (map string_bytes words.now)
        (record { shelf = H.state shelf.old; sink = K.state out.old })
        (record { shelf = H.state shelf.new; sink = K.state out.new }) result }
    // A fault is answered only where the shelf or the sink has counted one, and for its cause.
    ensures fault { result ≡ Status.Fault → CountsFault
        (record { shelf = H.state shelf.old; sink = K.state out.old })
        (record { shelf = H.state shelf.new; sink = K.state out.new }) }
    ensures cause { result ≡ Status.Fault →
        MayFault (form_for (command_of (map string_bytes words.now))) (map string_bytes words.now)
        (record { shelf = H.state shelf.old; sink = K.state out.old })
        (record { shelf = H.state shelf.new; sink = K.state out.new }) }
    // Where the shelf tells what it holds, that determines what `blank` answers.
    ensures told { TellsBlank (map string_bytes words.now)
        (record { shelf = H.state shelf.old; sink = K.state out.old })
        (record { shelf = H.state shelf.new; sink = K.state out.new }) result }
    // A run of `plan` that ends with a claim has the headline, over any shelf; and it ends with one,
    // unless it is cut short, a file is refused, or a budget that was given isn't enough.
    ensures headline { HasHeadline (map string_bytes words.now)
        (record { shelf = H.state shelf.old; sink = K.state out.old })
        (record { shelf = H.state shelf.new; sink = K.state out.new }) result }
    ensures complete { IsComplete (map string_bytes words.now)
        (record { shelf = H.state shelf.old; sink = K.state out.old })
        (record { shelf = H.state shelf.new; sink = K.state out.new }) result }
    // Where the shelf tells that it holds a good certificate, `check` answers its claim.
    ensures confirms { ConfirmsHeld (map string_bytes words.now)
        (record { shelf = H.state shelf.old; sink = K.state out.old })
        (record { shelf = H.state shelf.new; sink = K.state out.new }) result }
{
    match read_words(words) {
        Some(command) => run_command(alloc, command, words, shelf, out),
        None => put_usage(alloc, shelf, out),
    }
}
