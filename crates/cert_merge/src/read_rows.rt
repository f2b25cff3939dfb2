//! The one reading of a table's text that keeps of its notes only what their check needs.
ghost use Rattle.std.specs.Prelude.{◌++◌, ℕ, List};
ghost use Rattle.brake_io.specs.Pieces.{HasPassed, MayFollow};
ghost use Rattle.cert_merge.specs.ReadRows.{RowsRead};

use brake_io::{Reader, Window};
use cert_check::{CheckFault, ReadCert, read_text, read_text_from};
use plan_cert::TextKind;
use std::alloc::Global;

/// Reads the whole text of a table once: its job, its rows, and what is kept of its notes.
pub(crate) fn read_rows(alloc: Global, text: &[u8]) -> Result<ReadCert, CheckFault>
    ensures { RowsRead text.now result }
{
    read_text(alloc, text, TextKind::Table)
}

/// The same of a text that is read in pieces.
pub(crate) fn read_rows_from<R: Reader + Drop>(
    alloc: Global,
    window: &mut Window<R>,
) -> Result<ReadCert, CheckFault>
    ensures { (passed : List ℕ) × HasPassed window.old window.new passed
        × ((last : List ℕ) → MayFollow window.new last
        → RowsRead (passed ++ window.new.unread ++ last) result) }
{
    read_text_from(alloc, window, TextKind::Table)
}
