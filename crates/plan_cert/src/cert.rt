//! Certificates.

use arrayvec::ArrayVec;
use brake_base::{Step, Worth};
use cert_lines::RowHead;
use plan_lines::Note;

/// A claim, which is the least cost of a plan or that there is none; the steps of a plan of that
/// cost; and the rows and notes that prove that no plan costs less.
#[derive(Debug, Drop)]
pub struct Cert {
    pub claim: Worth,
    pub steps: ArrayVec<Step, 12>,
    pub rows: Vec<RowHead>,
    pub notes: Vec<Note>,
}
