//! Why a part has no blank.
ghost use Rattle.std.specs.Prelude.{◌≡◌, ◌+◌, ◌-◌, ◌<◌, ◌≤◌, length, map, All, find, position, IfSome};
ghost use Rattle.std.specs.List.{range_with_len};
ghost use Rattle.part_file.specs.Part.{IsPart, part_data};
ghost use Rattle.unfolder.specs.Near.{IsRectWithin};
ghost use Rattle.unfolder.specs.Cores.{is_too_small, holds, is_off_edge};
ghost use Rattle.unfolder.specs.Tables.{is_off_edge_in};
ghost use Rattle.toml_fields.specs.Results.{refuse_found};
ghost use Rattle.unfolder.specs.Blank.{bend_numbers, is_overlap_in_x, is_overlap_in_y, is_overlap, is_overlap_in, pairs_below, flat_overlap};

use crate::blank::{BendLine, FlatFace, FlatRect, UnfoldFault};
use crate::cores::{face_count, joint_of};
use part_file::Part;

/// Whether a size of the core is below 1.
fn is_too_small(core: &FlatRect) -> bool
    requires { IsRectWithin 21000000 core.now }
    ensures { result ≡ is_too_small core.now }
{
    if core.x1 - core.x0 < 1 {
        true
    } else {
        core.y1 - core.y0 < 1
    }
}

/// The first face whose core has a size below 1.
fn first_too_small(cores: &[FlatRect]) -> Option<u8>
    requires within { All (IsRectWithin 21000000) cores.now }
    requires few { length cores.now ≤ 13 }
    ensures { result ≡ position is_too_small cores.now }
{
    for (face, core) in cores.iter().enumerate() {
        if is_too_small(core) {
            return Some(face as u8);
        }
    }
    None
}

/// Refuses the first face whose core has a size below 1.
pub(crate) fn check_cores(cores: &[FlatRect]) -> Result<(), UnfoldFault>
    requires within { All (IsRectWithin 21000000) cores.now }
    requires few { length cores.now ≤ 13 }
    ensures { result ≡ refuse_found (position is_too_small cores.now) UnfoldFault.CoreTooSmall }
{
    match first_too_small(cores) {
        Some(face) => Err(UnfoldFault::CoreTooSmall { face }),
        None => Ok(()),
    }
}

/// Whether the point lies in the rectangle or on its edge.
fn holds(r: &FlatRect, point: &(i64, i64)) -> bool
    ensures { result ≡ holds r.now point.now }
{
    if r.x0 <= point.0 && point.0 <= r.x1 {
        r.y0 <= point.1 && point.1 <= r.y1
    } else {
        false
    }
}

/// Whether a line of the parent isn't within the edge of its core.
fn is_off_edge(parent: &FlatRect, line: &BendLine) -> bool
    ensures { result ≡ is_off_edge parent.now line.now }
{
    !(holds(parent, &line.from) && holds(parent, &line.to))
}

/// The first bend whose line isn't within the parent's core edge.
fn first_off_face(part: &Part, cores: &[FlatRect], lines: &[BendLine]) -> Option<u8>
    requires part { IsPart (part_data part.now) }
    requires cores { length cores.now ≡ length part.now.faces.items }
    requires lines { length lines.now + 1 ≡ length part.now.faces.items }
    ensures { result ≡ find (is_off_edge_in (part_data part.now).faces cores.now lines.now)
        (bend_numbers (part_data part.now).faces) }
{
    for bend in 1..face_count(part) {
        let parent = &cores[usize::from(joint_of(part, bend).on)];
        if is_off_edge(parent, &lines[usize::from(bend) - 1]) {
            return Some(bend);
        }
    }
    None
}

/// Refuses the first bend whose line isn't within the parent's core edge.
pub(crate) fn check_lines(
    part: &Part,
    cores: &[FlatRect],
    lines: &[BendLine],
) -> Result<(), UnfoldFault>
    requires part { IsPart (part_data part.now) }
    requires cores { length cores.now ≡ length part.now.faces.items }
    requires lines { length lines.now + 1 ≡ length part.now.faces.items }
    ensures { result ≡ refuse_found
        (find (is_off_edge_in (part_data part.now).faces cores.now lines.now)
        (bend_numbers (part_data part.now).faces)) UnfoldFault.BendOffFace }
{
    match first_off_face(part, cores, lines) {
        Some(bend) => Err(UnfoldFault::BendOffFace { bend }),
        None => Ok(()),
    }
}

/// Whether the interiors of the ranges in x share a point.
fn is_overlap_in_x(a: &FlatRect, b: &FlatRect) -> bool
    ensures { result ≡ is_overlap_in_x a.now b.now }
{
    a.x0.max(b.x0) < a.x1.min(b.x1)
}

/// Whether the interiors of the ranges in y share a point.
fn is_overlap_in_y(a: &FlatRect, b: &FlatRect) -> bool
    ensures { result ≡ is_overlap_in_y a.now b.now }
{
    a.y0.max(b.y0) < a.y1.min(b.y1)
}

/// Whether the interiors of the rectangles share a point.
fn is_overlap(a: &FlatRect, b: &FlatRect) -> bool
    ensures { result ≡ is_overlap a.now b.now }
{
    is_overlap_in_x(a, b) && is_overlap_in_y(a, b)
}

/// The first face after `a` that overlaps it.
fn first_over(faces: &[FlatFace], a: usize) -> Option<usize>
    requires { a < length faces.now }
    ensures within { IfSome result (λ b. b < length faces.now) }
    ensures value { result ≡ find (λ b. is_overlap_in faces.now (a, b))
        (range_with_len (a + 1) (length faces.now - (a + 1))) }
{
    let first = &faces[a].rect;
    for b in a + 1..faces.len() {
        if is_overlap(first, &faces[b].rect) {
            return Some(b);
        }
    }
    None
}

/// The first two faces that overlap.
fn first_overlap(faces: &[FlatFace]) -> Option<(u8, u8)>
    requires { length faces.now ≤ 13 }
    ensures { result ≡ find (is_overlap_in faces.now) (pairs_below (length faces.now)) }
{
    for a in 0..faces.len() {
        if let Some(b) = first_over(faces, a) {
            return Some((a as u8, b as u8));
        }
    }
    None
}

/// Refuses the first two faces that overlap.
pub(crate) fn check_overlaps(faces: &[FlatFace]) -> Result<(), UnfoldFault>
    requires { length faces.now ≤ 13 }
    ensures { result ≡ refuse_found
        (find (is_overlap_in faces.now) (pairs_below (length faces.now))) flat_overlap }
{
    match first_overlap(faces) {
        Some((a, b)) => Err(UnfoldFault::FlatOverlap { a, b }),
        None => Ok(()),
    }
}
