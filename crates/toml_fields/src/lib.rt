//! What the readers of all input files share: the document of a file's bytes, and the fields of
//! its tables by key, type and range.
#![tactic(auto)]

mod document;
mod fields;
mod lists;
mod ranges;

pub use document::{DocumentFault, read_document};
pub use fields::{
    has_key, has_unknown_key, integer_at, integer_or, is_name, name_at, table_at, text_at,
    value_at, whole_at,
};
pub use lists::{
    array_at, array_or_none, integers_of, rows_at, rows_or_none, tables_at, tables_or_none,
};
pub use ranges::{is_range, is_within};
