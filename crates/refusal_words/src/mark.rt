//! The marks in rows, each of which stands for a number of a line.
ghost use Rattle.std.specs.Prelude.{◌≡◌, ◌≤◌, ◌^◌, ◌++◌, OnOk};
ghost use Rattle.refusal_words.specs.Marks.{mark_of, low_of, end_of, body_words, told_text};

use brake_text::{put_number, put_word};
use std::alloc::AllocError;

/// What a number of a line is.
#[derive(Clone, Copy, Debug, PartialEq, Eq)]
pub enum Mark {
    Face,
    /// A bend, or the face that stands on another along it.
    Bend,
    Stage,
    /// A line of a certificate or a table.
    Line,
    /// A step, which a sentence counts from 1.
    Step,
    Row,
    Action,
    /// A box of the part: that of a face, or of the corner of a bend.
    Body,
    Quarter,
    Obstacle,
    /// A table of a tools file.
    ToolsTable,
    /// A table of a setups file.
    SetupsTable,
    /// The table of a face other than face 0, which a sentence tells by its face.
    FaceTable,
    /// The table of a stage, which a sentence tells by its stage.
    StageTable,
    Setup,
    /// A word that names a file.
    FileWord,
}

/// The number of the box of the last face.
const LAST_FACE: u32 = 12;

/// The words before the bend of a corner.
const CORNER: &[u8] = b"the corner of bend ";

/// Appends a box of the part.
#[tactic(auto, using(crate::proofs::Texts::pieces), unfolding(crate::specs::Marks::body_words))]
fn put_body(out: &mut Vec<u8>, body: u32) -> Result<(), AllocError>
    ensures { OnOk result (out.new.items ≡ out.old.items ++ body_words body) }
{
    if body <= LAST_FACE {
        put_word(out, b"face ")?;
        put_number(out, i64::from(body))
    } else {
        put_word(out, CORNER)?;
        put_number(out, i64::from(body - LAST_FACE))
    }
}

impl Mark {
    /// The mark that a byte is.
    pub fn of(byte: u8) -> Option<Mark>
        ensures { result ≡ mark_of byte }
    {
        match byte {
            b'I' => Some(Mark::Face),
            b'J' => Some(Mark::Bend),
            b'S' => Some(Mark::Stage),
            b'L' => Some(Mark::Line),
            b'P' => Some(Mark::Step),
            b'R' => Some(Mark::Row),
            b'A' => Some(Mark::Action),
            b'X' => Some(Mark::Body),
            b'Q' => Some(Mark::Quarter),
            b'O' => Some(Mark::Obstacle),
            b'T' => Some(Mark::ToolsTable),
            b'U' => Some(Mark::SetupsTable),
            b'V' => Some(Mark::FaceTable),
            b'M' => Some(Mark::StageTable),
            b'N' => Some(Mark::Setup),
            b'W' => Some(Mark::FileWord),
            _ => None,
        }
    }

    /// The least number that it may stand for.
    pub fn low(self) -> u64
        ensures { result ≡ low_of self }
    {
        match self {
            Mark::FaceTable => 2,
            Mark::StageTable => 3,
            Mark::Bend
            | Mark::Line
            | Mark::Quarter
            | Mark::ToolsTable
            | Mark::SetupsTable
            | Mark::FileWord => 1,
            _ => 0,
        }
    }

    /// What is above all numbers that it may stand for.
    pub fn end(self) -> u64
        ensures value { result ≡ end_of self }
        ensures bound { result ≤ 2 ^ 32 }
    {
        match self {
            Mark::Face | Mark::Bend => 13,
            Mark::Stage | Mark::FileWord => 6,
            Mark::Line => 1_073_741_826,
            Mark::Step => 12,
            Mark::Row => 4_294_967_296,
            Mark::Action => 144,
            Mark::Body => 25,
            Mark::Quarter => 5,
            Mark::Obstacle => 64,
            Mark::ToolsTable => 577,
            Mark::SetupsTable => 113,
            Mark::FaceTable => 14,
            Mark::StageTable => 9,
            Mark::Setup => 16,
        }
    }

    /// Appends how a sentence tells this number.
    #[tactic(auto, unfolding(crate::specs::Marks::told_text))]
    pub fn put(self, out: &mut Vec<u8>, number: u32) -> Result<(), AllocError>
        ensures { OnOk result (out.new.items ≡ out.old.items ++ told_text self number) }
    {
        match self {
            Mark::Body => put_body(out, number),
            Mark::Step => put_number(out, i64::from(number) + 1),
            Mark::FaceTable => put_number(out, i64::from(number) - 1),
            Mark::StageTable => put_number(out, i64::from(number) - 3),
            _ => put_number(out, i64::from(number)),
        }
    }
}
