//! The reading of a certificate's or a table's text piece by piece.
ghost use Rattle.std.specs.Prelude.{◌≡◌, ◌≤◌, ◌++◌, [], ℕ, Err, IfOk, IsFalse, IsTrue, List, Result, drop, false, length, true};
ghost use Rattle.brake_io.specs.Pieces.{HasPassed, IsOver, MayFollow};
ghost use Rattle.plan_lines.specs.declared.item.CertFault.TheVariants.{Unended};
ghost use Rattle.cert_lines.specs.declared.format.TextKind.{TextKind};
ghost use Rattle.plan_lines.specs.Facts.{HasFew};
ghost use Rattle.plan_lines.specs.Reading.{MayBeBehind};
ghost use Rattle.cert_check.specs.declared.fault.CheckFault.{CheckFault};
ghost use Rattle.cert_check.specs.declared.fault.CheckFault.TheVariants.{Cert};
ghost use Rattle.cert_check.specs.ReadCert.{ReadAnswer, IsReadBefore, PieceAnswer};
ghost use Rattle.cert_check.specs.ReadWindow.{BeginAnswer};
ghost use Rattle.cert_check.specs.RowNotes.{IsTesting};

use crate::fault::CheckFault;
use crate::read_cert::{ReadCert, read_job, read_piece};
use brake_io::{Reader, Window};
use plan_cert::{CertFault, LinePlace, PlanReader, TextKind};
use std::alloc::Global;

/// What is read of a text, where its reader stands, and how many bytes of the piece it took.
#[derive(Drop)]
struct TextStand {
    read: ReadCert,
    place: LinePlace,
    taken: usize,
}

/// Reads the job, with which a text begins, from its first piece. `Unended` says that the piece ends
/// before the job's lines do.
fn begin(alloc: Global, piece: &[u8], kind: TextKind) -> Result<TextStand, CheckFault>
    ensures few { IfOk result (λ stand. HasFew stand.place.facts) }
    ensures testing { IfOk result (λ stand. IsTesting stand.read.job stand.read.notes) }
    ensures taken { IfOk result (λ stand. stand.taken ≤ length piece.now) }
    ensures read { IfOk result (λ stand. (behind : List ℕ)
        → IsReadBefore kind (piece.now ++ behind) stand.read stand.place
        (drop stand.taken piece.now ++ behind)) }
    ensures refused { (fault : CheckFault) (behind : List ℕ) → result ≡ Err fault
        → (fault ≡ Cert Unended → behind ≡ []) → ReadAnswer kind (piece.now ++ behind) (Err fault) }
{
    let mut reader = PlanReader::new(piece);
    let read = read_job(alloc, &mut reader, kind)?;
    Ok(TextStand {
        read,
        place: reader.place(),
        taken: piece.len() - reader.rest().len(),
    })
}

/// Whether a piece ended before the job's lines did, and more may come.
fn wants_more<R: Reader + Drop>(window: &Window<R>, fault: CheckFault) -> bool
    ensures more { IsTrue result → ¬ IsOver window.now }
    ensures last { IsFalse result → fault ≡ Cert Unended → IsOver window.now }
{
    if fault == CheckFault::Cert(CertFault::Unended) {
        !window.is_over()
    } else {
        false
    }
}

/// Reads the job of a text from its window. Where the bytes at hand end before the job's lines do,
/// it begins once more with more than twice as many.
fn begin_from<R: Reader + Drop>(
    alloc: Global,
    window: &mut Window<R>,
    kind: TextKind,
) -> Result<TextStand, CheckFault>
    ensures few { IfOk result (λ stand. HasFew stand.place.facts) }
    ensures testing { IfOk result (λ stand. IsTesting stand.read.job stand.read.notes) }
    ensures read { (passed : List ℕ) × HasPassed window.old window.new passed
        × ((last : List ℕ) → MayFollow window.new last → BeginAnswer kind result passed
        window.new.unread last) }
{
    loop {
        match begin(alloc, window.unread(), kind) {
            Ok(stand) => {
                window.pass(stand.taken);
                return Ok(stand);
            }
            Err(fault) => {
                if !wants_more(window, fault) {
                    return Err(fault);
                }
            }
        }
        window.fill_more(alloc)?;
    }
}

/// Reads the bytes at hand. Whether more of the certificate is left.
fn read_on(stand: &mut TextStand, piece: &[u8], is_last: bool) -> Result<bool, CheckFault>
    requires few { HasFew stand.old.place.facts }
    requires testing { IsTesting stand.old.read.job stand.old.read.notes }
    ensures few { HasFew stand.new.place.facts }
    ensures testing { IfOk result (λ _. IsTesting stand.new.read.job stand.new.read.notes) }
    ensures taken { stand.new.taken ≤ length piece.now }
    ensures last { is_last ≡ true → IfOk result (λ more. more ≡ false) }
    ensures answer { (kind : TextKind) (text behind : List ℕ) → MayBeBehind is_last behind
        → IsReadBefore kind text stand.old.read stand.old.place (piece.now ++ behind)
        → PieceAnswer result kind text stand.new.read stand.new.place
        (drop stand.new.taken piece.now ++ behind) }
{
    let mut reader = PlanReader::at(stand.place, piece);
    let answer = read_piece(&mut stand.read, &mut reader, is_last);
    stand.place = reader.place();
    stand.taken = piece.len() - reader.rest().len();
    answer
}

/// Reads a text piece by piece, to its end or to its refusal.
pub fn read_text_from<R: Reader + Drop>(
    alloc: Global,
    window: &mut Window<R>,
    kind: TextKind,
) -> Result<ReadCert, CheckFault>
    ensures { (passed : List ℕ) × HasPassed window.old window.new passed
        × ((last : List ℕ) → MayFollow window.new last
        → ReadAnswer kind (passed ++ window.new.unread ++ last) result) }
{
    let mut stand = begin_from(alloc, window, kind)?;
    loop {
        let is_last = window.is_over();
        let more = read_on(&mut stand, window.unread(), is_last)?;
        window.pass(stand.taken);
        if !more {
            return Ok(stand.read);
        }
        window.fill_more(alloc)?;
    }
}
