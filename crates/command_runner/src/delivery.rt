//! Storing and putting an answer.
ghost use Rattle.std.specs.Prelude.{◌≡◌, ◌⊎◌, ◌≤◌, map, IsErrOf, OnOk, OnErr};
ghost use Rattle.std.specs.Vec.{vec_items};
ghost use Rattle.brake_io.specs.Rose.{Rose};
ghost use Rattle.brake_io.specs.Meanings.{NoCountFalls, Puts, PutsPart};
ghost use Rattle.command_runner.specs.Answers.{stored_data, answer_data, concatenation, one_stored};
ghost use Rattle.command_runner.specs.Fetching.{HasDueCall};
ghost use Rattle.command_runner.specs.Delivery.{IsCutShort, Outside, AreStored, AreStoredUpTo, Delivers};

use crate::answer::{Answer, StoredText};
use crate::status::Status;
use brake_io::{Pieces, PutFault, Shelf, Sink, StoreFault};
use std::alloc::Global;

/// Stores the texts in order, up to the first that can't be stored.
pub fn store_all<H: Shelf>(stored: &[StoredText], shelf: &mut H) -> Result<(), StoreFault>
    ensures ok { OnOk result
        (AreStored (map stored_data stored.now) (H.state shelf.old) (H.state shelf.new)) }
    ensures err { OnErr result
        (AreStoredUpTo (map stored_data stored.now) (H.state shelf.old) (H.state shelf.new)) }
    ensures never_falls { NoCountFalls (H.state shelf.old) (H.state shelf.new) }
    ensures faults { ¬ IsErrOf result StoreFault.Failed →
        (H.state shelf.new).faults ≡ (H.state shelf.old).faults }
    ensures failed { IsErrOf result StoreFault.Failed →
        Rose (H.state shelf.old).faults (H.state shelf.new).faults }
    ensures cause { IsErrOf result StoreFault.Failed →
        HasDueCall (H.state shelf.old) (H.state shelf.new) }
{
    for one in stored {
        shelf.store(one.name.as_str(), one.text.as_slice())?;
    }
    Ok(())
}

/// Stores a text that is made in pieces, and so isn't held whole: what `store_all` does of one text.
pub fn store_pieces<H: Shelf, P: Pieces>(
    alloc: Global,
    name: &str,
    pieces: &mut P,
    shelf: &mut H,
) -> Result<(), StoreFault>
    ensures ok { OnOk result (AreStored (one_stored name.now (P.left pieces.old))
        (H.state shelf.old) (H.state shelf.new)) }
    ensures err { OnErr result (AreStoredUpTo (one_stored name.now (P.left pieces.old))
        (H.state shelf.old) (H.state shelf.new)) }
    ensures never_falls { NoCountFalls (H.state shelf.old) (H.state shelf.new) }
    ensures faults { ¬ IsErrOf result StoreFault.Failed →
        (H.state shelf.new).faults ≡ (H.state shelf.old).faults }
    ensures failed { IsErrOf result StoreFault.Failed →
        Rose (H.state shelf.old).faults (H.state shelf.new).faults }
    ensures cause { IsErrOf result StoreFault.Failed →
        HasDueCall (H.state shelf.old) (H.state shelf.new) }
{
    shelf.store_by(alloc, name, pieces)?;
    Ok(())
}

/// Puts the texts in order, up to the first that can't be put.
fn put_all<K: Sink>(texts: &[Vec<u8>], out: &mut K) -> Result<(), PutFault>
    ensures ok { OnOk result
        (Puts (K.state out.old) (K.state out.new) (concatenation (map vec_items texts.now))) }
    ensures err { OnErr result
        (PutsPart (K.state out.old) (K.state out.new) (concatenation (map vec_items texts.now))) }
    ensures faults { OnOk result ((K.state out.new).faults ≡ (K.state out.old).faults) }
    ensures failed { IsErrOf result PutFault.Failed →
        Rose (K.state out.old).faults (K.state out.new).faults }
{
    for text in texts {
        out.put(text.as_slice())?;
    }
    Ok(())
}

/// Stores and then puts an answer, and says how the run ends.
pub fn deliver<H: Shelf, K: Sink>(answer: &Answer, shelf: &mut H, out: &mut K) -> Status
    requires { ¬ IsCutShort answer.now.status }
    ensures delivers { Delivers (answer_data answer.now)
        (record { shelf = H.state shelf.old; sink = K.state out.old })
        (record { shelf = H.state shelf.new; sink = K.state out.new }) result }
    ensures never_falls { NoCountFalls (H.state shelf.old) (H.state shelf.new) }
    ensures fault { result ≡ Status.Fault → Rose (K.state out.old).faults (K.state out.new).faults
        ⊎ Rose (H.state shelf.old).faults (H.state shelf.new).faults }
    ensures cause { result ≡ Status.Fault → Rose (K.state out.old).faults (K.state out.new).faults
        ⊎ HasDueCall (H.state shelf.old) (H.state shelf.new) }
{
    match store_all(answer.stored.as_slice(), shelf) {
        Ok(()) => match put_all(answer.texts.as_slice(), out) {
            Ok(()) => answer.status,
            Err(PutFault::Failed) => Status::Fault,
            Err(PutFault::NoMemory) => Status::NoMemory,
        },
        Err(StoreFault::Failed) => Status::Fault,
        Err(StoreFault::NoMemory) => Status::NoMemory,
    }
}
