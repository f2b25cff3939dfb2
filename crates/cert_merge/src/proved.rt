//! The check of a table's text. The text is read once, and no list of its notes is kept.
ghost use Rattle.std.specs.Prelude.{◌≡◌, ◌++◌, ℕ, IfOk, List};
ghost use Rattle.brake_io.specs.Pieces.{HasPassed, MayFollow};
ghost use Rattle.cert_lines.specs.Lines.{IsWorth};
ghost use Rattle.cert_merge.specs.Table.{TableData};
ghost use Rattle.cert_merge.specs.TableChecks.{CostsAtLeast};
ghost use Rattle.cert_merge.specs.TableTexts.{GivesBack};
ghost use Rattle.cert_merge.specs.ReadRows.{AreTableParts, ProvedAnswer};
ghost use Rattle.cert_merge.specs.ProvedTable.{ProvesText};

use crate::proved_keys::proved;
use crate::read_rows::{read_rows, read_rows_from};
use brake_base::Worth;
use brake_io::{Reader, Window};
use cert_check::{CheckFault, ReadCert, RowTable, check_rows};
use handling_cost::start_key;
use job_setup::Job;
use plan_cert::CertFault;
use std::alloc::Global;

/// Why a table's rows don't meet their condition.
#[derive(Clone, Copy, Debug, PartialEq, Eq)]
pub enum TableFault {
    /// A noted reason doesn't hold.
    BadReason { row: u32, action: u8 },
    /// An action without a note isn't closed.
    NotClosed { row: u32, action: u8 },
}

/// Why a table's text isn't accepted.
#[derive(Clone, Copy, Debug, PartialEq, Eq)]
pub enum ProveFault {
    /// The text is no table's, or memory ran out.
    Text(CertFault),
    /// An action of a row isn't accounted for.
    Rows(TableFault),
}

impl From<CheckFault> for ProveFault {
    ghost use Rattle.std.specs.Prelude.{◌≡◌};
    ghost use Rattle.cert_merge.specs.ProvedTable.{prove_fault};

    ghost from_gives = { λ fault own. own ≡ prove_fault fault };

    fn from(fault: CheckFault) -> Self {
        match fault {
            CheckFault::Cert(fault) => ProveFault::Text(fault),
            CheckFault::BadReason { row, action } => {
                ProveFault::Rows(TableFault::BadReason { row, action })
            }
            CheckFault::NotClosed { row, action } => {
                ProveFault::Rows(TableFault::NotClosed { row, action })
            }
            // Memory ran out. The other causes are those of a certificate's claim and steps.
            _ => ProveFault::Text(CertFault::NoMemory),
        }
    }
}

/// The job of a closed table, the number of its rows, and what they prove of the start key, in
/// tenths of a second.
#[derive(Drop)]
pub struct ProvedTable {
    pub job: Job,
    pub rows: u32,
    pub at_start: Worth,
}

/// What the table of a text proves of the start key, in tenths of a second, with its job and the
/// number of its rows; or the first refusal: that of the text, or else the first row and action that
/// aren't accounted for.
pub fn prove_text(alloc: Global, text: &[u8]) -> Result<ProvedTable, ProveFault>
    ensures answer { ProvesText text.now result }
    ensures small { IfOk result (λ proved. IsWorth proved.at_start) }

    // Every plan costs at least what is proved of the start key; there is none where it is Blocked.
    ensures truth { IfOk result (λ proved. CostsAtLeast proved.job proved.at_start) }

    // A text that is a table's gives this table.
    ensures written { GivesBack text.now }
{
    let read = read_rows(alloc, text)?;
    Ok(prove_rows(alloc, read)?)
}

/// The same of a text that is read in pieces, as `prove_text` gives it of each text that begins with
/// what was passed and is at hand: what stands behind that doesn't matter.
pub fn prove_text_from<R: Reader + Drop>(
    alloc: Global,
    window: &mut Window<R>,
) -> Result<ProvedTable, ProveFault>
    ensures answer { (passed : List ℕ) × HasPassed window.old window.new passed
        × ((last : List ℕ) → MayFollow window.new last
        → ProvesText (passed ++ window.new.unread ++ last) result) }
    ensures small { IfOk result (λ proved. IsWorth proved.at_start) }
    ensures truth { IfOk result (λ proved. CostsAtLeast proved.job proved.at_start) }
{
    let read = read_rows_from(alloc, window)?;
    Ok(prove_rows(alloc, read)?)
}

/// The same of a table that was read, or the first row and action that aren't accounted for.
fn prove_rows(alloc: Global, read: ReadCert) -> Result<ProvedTable, CheckFault>
    requires { (table : TableData) × AreTableParts read table }
    ensures answer { (table : TableData) → AreTableParts read table
        → ProvedAnswer read.job table result }
    ensures small { IfOk result (λ proved. IsWorth proved.at_start) }
    ensures truth { IfOk result (λ proved. CostsAtLeast proved.job proved.at_start) }
{
    let ReadCert {
        job,
        rows,
        notes,
        ..
    } = read;
    let at_start = proved(&job, rows.as_slice(), &start_key());
    let rows = RowTable::open(alloc, &job, rows)?;
    check_rows(&job, &rows, &notes)?;
    Ok(ProvedTable {
        rows: rows.len(),
        job,
        at_start,
    })
}
