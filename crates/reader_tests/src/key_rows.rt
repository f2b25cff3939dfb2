//! The rows of the keys of a file: a key's table and number, its line in the file, two lines that may
//! stand for it, and three that may not, of another type or just out of range.

/// The places of the lines that may stand for a key's or not, and whether each may.
pub const OTHER_LINES: [(usize, bool); 5] = [
    (3, true),
    (4, true),
    (5, false),
    (6, false),
    (7, false),
];

/// The cell of a row at a place, counted from 0; an empty text where there is none.
pub fn cell(row: &str, place: usize) -> &str {
    row.split(" | ").nth(place).unwrap_or("")
}
