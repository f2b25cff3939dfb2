//! How a table's text begins, and how much of it is a piece.
ghost use Rattle.std.specs.Prelude.{◌≡◌, ◌++◌, codes, IfOk};
ghost use Rattle.cert_lines.specs.JobText.{job_text};

use brake_io::PIECE;
use brake_text::put_word;
use job_setup::Job;
use plan_cert::write_job;
use std::alloc::{AllocError, Global};

/// Room for a row with its notes, in bytes: they have at most 2,761.
const ROW_ROOM: usize = 2_816;

/// A piece that is made row by row ends with the first row behind which it has so many bytes.
pub(crate) const FULL: usize = PIECE - ROW_ROOM;

/// The text of a table up to its rows.
pub(crate) fn beginning(alloc: Global, job: &Job) -> Result<Vec<u8>, AllocError>
    ensures { IfOk result (λ text. text.items
        ≡ codes "brake-table 1\n" ++ job_text job.now) }
{
    let lines = write_job(alloc, job)?;
    let mut text = Vec::new(alloc);
    put_word(&mut text, b"brake-table 1\n")?;
    put_word(&mut text, lines.as_slice())?;
    Ok(text)
}
