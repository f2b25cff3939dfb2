//! What the shop's stock holds of a tool's pieces.
ghost use Rattle.std.specs.Prelude.{◌≡◌, ◌≤◌, length};
ghost use Rattle.tool_library.specs.Stock.{section_count, held, count_of};

/// How many of the pieces have this length, in micrometres.
pub fn count_of(pieces: &[i64], piece: &i64) -> usize
    ensures value { result ≡ count_of piece.now pieces.now }
    ensures few { result ≤ length pieces.now }
{
    pieces.iter().filter(|other| **other == *piece).count()
}

/// How many pieces of this length the section stands for.
fn section_count(section: &(i64, u16), piece: &i64) -> usize
    ensures value { result ≡ section_count piece.now section.now }
    ensures few { result ≤ 65535 }
{
    if section.0 == *piece {
        usize::from(section.1)
    } else {
        0
    }
}

/// How many pieces of this length, in micrometres, the sections hold; a length may stand in several.
pub fn held(sections: &[(i64, u16)], piece: &i64) -> usize
    requires { length sections.now ≤ 16 }
    ensures { result ≡ held sections.now piece.now }
{
    let mut held = 0;
    for section in sections {
        held += section_count(section, piece);
    }
    held
}
