//! The top call.
ghost use Rattle.std.specs.Prelude.{◌≡◌, [], map, string_bytes, IsTrue};
ghost use Rattle.command_runner.specs.Kinds.{is_form};
ghost use Rattle.command_runner.specs.Ends.{CountsFault, MayFault};
ghost use Rattle.brake_draw.specs.Draw.{draw_form};
ghost use Rattle.brake_draw.specs.Run.{is_drawing, EndsAtOnce, form_for, RunEnds, RunOutcome};

use crate::draw::Draw;
use crate::say::{answer_at_once, is_saying};
use brake_io::{Shelf, Sink};
use command_runner::{Command, Status, deliver, is_form, run};
use std::alloc::Global;

/// Puts the answer to words that fetch nothing.
fn put_at_once<H: Shelf, K: Sink>(
    alloc: Global,
    words: &[String],
    shelf: &mut H,
    out: &mut K,
) -> Status
    ensures ends { EndsAtOnce (map string_bytes words.now)
        (record { shelf = H.state shelf.old; sink = K.state out.old })
        (record { shelf = H.state shelf.new; sink = K.state out.new }) result }
    ensures fault { result ≡ Status.Fault → CountsFault
        (record { shelf = H.state shelf.old; sink = K.state out.old })
        (record { shelf = H.state shelf.new; sink = K.state out.new }) }
    ensures cause { result ≡ Status.Fault → MayFault [] (map string_bytes words.now)
        (record { shelf = H.state shelf.old; sink = K.state out.old })
        (record { shelf = H.state shelf.new; sink = K.state out.new }) }
{
    match answer_at_once(alloc, words) {
        Ok(answer) => deliver(&answer, shelf, out),
        Err(_) => Status::NoMemory,
    }
}

/// Whether the words are `CERT OUT`. A first word `say` is never CERT.
#[tactic(auto, unfolding(crate::specs::Run::is_drawing))]
fn is_drawing(words: &[String]) -> bool
    ensures value { result ≡ is_drawing (map string_bytes words.now) }
    ensures form { IsTrue result → IsTrue (is_form draw_form (map string_bytes words.now)) }
{
    !is_saying(words) && is_form(Draw.kinds(), words)
}

/// Checks the certificate of the words `CERT OUT`, stores its page under OUT and puts a line. The words
/// `say LINE` are answered by the sentence of a printed refusal, and others by the usage text, before
/// anything is fetched.
pub fn run_draw<H: Shelf, K: Sink>(
    alloc: Global,
    words: &[String],
    shelf: &mut H,
    out: &mut K,
) -> Status
    // The run stores and puts an answer that the words and the certificate have, or is cut short:
    // before an answer is given nothing is stored.
    ensures ends { RunEnds (map string_bytes words.now)
        (record { shelf = H.state shelf.old; sink = K.state out.old })
        (record { shelf = H.state shelf.new; sink = K.state out.new }) result }
    // As it shows from outside: what is stored where the run isn't cut short is that answer's.
    ensures outcome { RunOutcome (map string_bytes words.now)
        (record { shelf = H.state shelf.old; sink = K.state out.old })
        (record { shelf = H.state shelf.new; sink = K.state out.new }) result }
    // A fault is answered only where the shelf or the sink has counted one, and for its cause.
    ensures fault { result ≡ Status.Fault → CountsFault
        (record { shelf = H.state shelf.old; sink = K.state out.old })
        (record { shelf = H.state shelf.new; sink = K.state out.new }) }
    ensures cause { result ≡ Status.Fault →
        MayFault (form_for (map string_bytes words.now)) (map string_bytes words.now)
        (record { shelf = H.state shelf.old; sink = K.state out.old })
        (record { shelf = H.state shelf.new; sink = K.state out.new }) }
{
    if is_drawing(words) {
        run(alloc, &Draw, words, shelf, out)
    } else {
        put_at_once(alloc, words, shelf, out)
    }
}
