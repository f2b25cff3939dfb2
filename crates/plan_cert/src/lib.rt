//! Certificates of plans as text: from a certificate's text alone a checker confirms that no plan
//! costs less.
#![tactic(auto)]

mod cert;
mod cert_reading;
mod reader;
mod rows;
mod writing;

pub use cert::Cert;
pub use cert_lines::{RowHead, TextKind, put_count, whole_line};
pub use cert_reading::{CertFile, read_cert, read_file};
pub use plan_lines::{CertFault, Item, LinePlace, Note, NoteLines, PlanItem, PlanReader};
pub use reader::CertReader;
pub use rows::{put_reason, put_rows, put_worth};
pub use writing::{write_cert, write_job};
