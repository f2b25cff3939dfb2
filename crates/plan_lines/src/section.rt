//! Where a line behind the job stands.

use brake_base::Key;

/// Where a line behind the job stands: at the claim's place, behind so many steps, before the
/// first row, behind a row or its notes, of which the next has at least this number, or behind the
/// end or a refusal.
#[derive(Clone, Copy)]
pub enum Section {
    Claim,
    Steps(u8),
    Rows,
    Notes(Key, u8),
    Over,
}

/// The kind of a line behind the job, but for the end.
#[derive(Clone, Copy)]
pub enum PlanLine {
    Claim,
    Step,
    Row,
    Note,
}
