//! The blank of a part.
ghost use Rattle.std.specs.Prelude.{◌≡◌, ◌+◌, ◌≤◌, ◌≤ℤ◌, pos, length, map, All, IfOk};
ghost use Rattle.std.specs.List.{range_with_len};
ghost use Rattle.part_file.specs.Part.{IsPart, part_data, half_thickness};
ghost use Rattle.unfolder.specs.Near.{IsRectWithin, IsLineWithin};
ghost use Rattle.toml_fields.specs.Results.{Gives};
ghost use Rattle.unfolder.specs.Blank.{blank_data, blank_of_part, bend_numbers};
ghost use Rattle.unfolder.specs.Edges.{AbutsAtLines};
ghost use Rattle.unfolder.specs.Extent.{IsNearBlank, IsNearRect, IsNearLine};
ghost use Rattle.unfolder.specs.Fold.{FoldsBack};
ghost use Rattle.unfolder.specs.Frames.{IsFrameWithin};
ghost use Rattle.unfolder.specs.Tables.{laid_face, laid_line};

use crate::blank::{BendLine, Blank, FlatFace, FlatRect, UnfoldFault};
use crate::cores::{cores, face_count, joint_of, parent_lines};
use crate::frame::{Frame, frames};
use crate::refusals::{check_cores, check_lines, check_overlaps};
use arrayvec::ArrayVec;
use part_file::Part;

/// The blank of a part with half deduction `q`, in micrometres and in the coordinates of face 0:
/// each face's core, laid flat beside its parent's, and the bend lines.
/// Each refusal is tried over all faces before the next one, in the order of [`UnfoldFault`].
pub fn unfold(part: &Part, q: i64) -> Result<Blank, UnfoldFault>
    requires part { IsPart (part_data part.now) }
    requires q_low { half_thickness (part_data part.now) ≤ℤ q }
    requires q_high { q ≤ℤ pos 100000 }
    ensures value { Gives blank_data result (blank_of_part (part_data part.now) q) }
    ensures faces { IfOk result (λ blank. length blank.faces.items ≡ length part.now.faces.items) }
    ensures bends { IfOk result (λ blank. length blank.bends.items + 1
        ≡ length part.now.faces.items) }

    // All coordinates lie within 1,000,000,000 micrometres of 0.
    ensures near { IfOk result (λ blank. IsNearBlank (blank_data blank)) }

    // Folded at every bend, the blank is the designed part.
    ensures folds_back { IfOk result
        (λ blank. FoldsBack (part_data part.now) q (blank_data blank)) }

    // At each bend line the cores of its two faces abut.
    ensures abuts { IfOk result (λ blank. AbutsAtLines (part_data part.now) (blank_data blank)) }
{
    let cores = cores(part, q);
    let lines = parent_lines(part, q);
    check_cores(cores.as_slice())?;
    check_lines(part, cores.as_slice(), lines.as_slice())?;
    let frames = frames(part, q);
    let faces = flat_faces(cores.as_slice(), frames.as_slice());
    check_overlaps(faces.as_slice())?;
    Ok(Blank {
        faces,
        bends: bend_lines(part, frames.as_slice(), lines.as_slice()),
    })
}

/// The cores in the frames in which they lie flat.
fn flat_faces(cores: &[FlatRect], frames: &[Frame]) -> ArrayVec<FlatFace, 13>
    requires few { length cores.now ≤ 13 }
    requires count { length frames.now ≡ length cores.now }
    requires cores { All (IsRectWithin 21000000) cores.now }
    requires frames { All (IsFrameWithin 12) frames.now }
    ensures value { result.items
        ≡ map (laid_face cores.now frames.now) (range_with_len 0 (length cores.now)) }
    ensures near { All (λ face. IsNearRect face.rect) result.items }
{
    let mut faces = ArrayVec::new();
    for face in 0..cores.len() {
        let frame = &frames[face];
        faces.push(FlatFace {
            rect: frame.rect(&cores[face]),
            turn: frame.turn,
        });
    }
    faces
}

/// The bend lines in the frames of their parents as they lie flat.
fn bend_lines(part: &Part, frames: &[Frame], lines: &[BendLine]) -> ArrayVec<BendLine, 12>
    requires part { IsPart (part_data part.now) }
    requires count { length frames.now ≡ length part.now.faces.items }
    requires bends { length lines.now + 1 ≡ length part.now.faces.items }
    requires frames { All (IsFrameWithin 12) frames.now }
    requires lines { All (IsLineWithin 21000000) lines.now }
    ensures value { result.items
        ≡ map (laid_line (part_data part.now).faces frames.now lines.now)
        (bend_numbers (part_data part.now).faces) }
    ensures near { All IsNearLine result.items }
{
    let mut bends = ArrayVec::new();
    for bend in 1..face_count(part) {
        let parent = &frames[usize::from(joint_of(part, bend).on)];
        bends.push(parent.line(&lines[usize::from(bend) - 1]));
    }
    bends
}
