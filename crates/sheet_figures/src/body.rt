//! The part as a body.
ghost use Rattle.std.specs.Prelude.{◌≡◌, ◌^◌, ◌<◌, ◌≤◌, ◌++◌, unsigned_abs, length, map, flat_map, All, IfSome, OnOk};
ghost use Rattle.brake_base.specs.Boxes.{IsBoxWithin};
ghost use Rattle.box_paint.specs.Painting.{IsOrder, HidesNone};
ghost use Rattle.sheet_paper.specs.Windows.{IsWindow};
ghost use Rattle.sheet_views.specs.Near.{AreNearBoxes};
ghost use Rattle.sheet_figures.specs.Bodies.{face_class, IsNearFace, face_line, box_begin, body_lines, lines_at, IsPainted, drawn_end, IsNearLine, bend_mark, IsPartView};

use crate::forms::{BOX_OF_FACES, FACE};
use crate::side::put_begin;
use arrayvec::ArrayVec;
use box_paint::{Face, FaceKind, Order, drawn, faces_of, painting_order};
use brake_base::{Box3, V3};
use sheet_paper::{
    Dashes, Window, put_figure_end, put_group_end, put_line_between, put_shapes_end,
};
use sheet_views::DrawnBox;
use std::alloc::AllocError;
use svg_text::{Hole, put_line};

/// The class of a face.
#[tactic(auto, unfolding(crate::specs::Bodies::face_class))]
fn face_class(kind: FaceKind, moves: bool) -> &'static [u8]
    ensures { result.now ≡ face_class kind moves }
{
    match (kind, moves) {
        (FaceKind::Right, false) => b"right",
        (FaceKind::Front, false) => b"front",
        (FaceKind::Top, false) => b"top",
        (FaceKind::Right, true) => b"rightm",
        (FaceKind::Front, true) => b"frontm",
        (FaceKind::Top, true) => b"topm",
    }
}

/// A face of a box.
#[tactic(auto, using(sheet_paper::proofs::Texts::pieces))]
fn put_face(out: &mut Vec<u8>, window: &Window, moves: bool, face: &Face) -> Result<(), AllocError>
    requires window { IsWindow window.now }
    requires near { IsNearFace face.now }
    ensures { OnOk result (out.new.items ≡ out.old.items ++ face_line window.now moves face.now) }
{
    let (ax, ay) = drawn(face.corners[0]);
    let (bx, by) = drawn(face.corners[1]);
    let (cx, cy) = drawn(face.corners[2]);
    let (dx, dy) = drawn(face.corners[3]);
    let holes = [
        Hole::Word(face_class(face.kind, moves)),
        window.width(1),
        window.length(ax),
        window.length(ay),
        window.length(bx),
        window.length(by),
        window.length(cx),
        window.length(cy),
        window.length(dx),
        window.length(dy),
    ];
    put_line(out, FACE, &holes)
}

/// Faces of a box.
fn put_faces(
    out: &mut Vec<u8>,
    window: &Window,
    moves: bool,
    faces: &[Face],
) -> Result<(), AllocError>
    requires window { IsWindow window.now }
    requires near { All IsNearFace faces.now }
    ensures { OnOk result (out.new.items
        ≡ out.old.items ++ flat_map (face_line window.now moves) faces.now) }
{
    for face in faces {
        put_face(out, window, moves, face)?;
    }
    Ok(())
}

/// Begins the faces of a box.
#[tactic(auto, using(sheet_paper::proofs::Texts::pieces))]
fn put_box_begin(out: &mut Vec<u8>, id: u8) -> Result<(), AllocError>
    ensures { OnOk result (out.new.items ≡ out.old.items ++ box_begin id) }
{
    put_line(out, BOX_OF_FACES, &[Hole::Number(i64::from(id))])
}

/// A box of the part as a body: its faces that look towards the eye.
#[tactic(auto, using(sheet_paper::proofs::Texts::pieces), unfolding(crate::specs::Bodies::body_lines))]
fn put_body(out: &mut Vec<u8>, window: &Window, part_box: &DrawnBox) -> Result<(), AllocError>
    requires window { IsWindow window.now }
    requires near { IsBoxWithin (2 ^ 40) part_box.now.body }
    ensures { OnOk result (out.new.items ≡ out.old.items ++ body_lines window.now part_box.now) }
{
    put_box_begin(out, part_box.id)?;
    put_faces(out, window, part_box.moves, &faces_of(&part_box.body))?;
    put_group_end(out)
}

/// The boxes' bodies.
fn bodies_of(boxes: &[DrawnBox]) -> ArrayVec<Box3, 25>
    requires { length boxes.now ≤ 25 }
    ensures { result.items ≡ map (λ drawn. drawn.body) boxes.now }
{
    let mut bodies = ArrayVec::new();
    for part_box in boxes {
        bodies.push(part_box.body);
    }
    bodies
}

/// The numbers of the boxes in the order in which they are painted.
fn order_of(boxes: &[DrawnBox]) -> Order
    requires few { length boxes.now ≤ 25 }
    requires near { AreNearBoxes boxes.now }
    ensures each { IsOrder (map (λ drawn. drawn.body) boxes.now) result.items }
    ensures law { HidesNone (map (λ drawn. drawn.body) boxes.now) result.items }
    ensures within { All (λ at. at < length boxes.now) result.items }
{
    let bodies = bodies_of(boxes);
    painting_order(bodies.as_slice())
}

/// Boxes in the order of these numbers.
fn put_in_order(
    out: &mut Vec<u8>,
    window: &Window,
    boxes: &[DrawnBox],
    order: &[u8],
) -> Result<(), AllocError>
    requires window { IsWindow window.now }
    requires near { AreNearBoxes boxes.now }
    requires order { All (λ at. at < length boxes.now) order.now }
    ensures { OnOk result (out.new.items
        ≡ out.old.items ++ flat_map (lines_at window.now boxes.now) order.now) }
{
    for at in order {
        put_body(out, window, &boxes[usize::from(*at)])?;
    }
    Ok(())
}

/// The boxes in the order in which they are painted.
fn put_painted(out: &mut Vec<u8>, window: &Window, boxes: &[DrawnBox]) -> Result<(), AllocError>
    requires window { IsWindow window.now }
    requires few { length boxes.now ≤ 25 }
    requires near { AreNearBoxes boxes.now }
    ensures { OnOk result (IsPainted window.now boxes.now out.old.items out.new.items) }
{
    let order = order_of(boxes);
    put_in_order(out, window, boxes, order.as_slice())?;
    Ok(())
}

/// Where a point of the bend line is drawn.
fn drawn_end(x: i64) -> (i64, i64)
    requires { unsigned_abs x ≤ 2 ^ 40 }
    ensures { result ≡ drawn_end x }
{
    drawn(V3 { x, y: 0, z: 0 })
}

/// The bend line, where it is shown.
#[tactic(auto, unfolding(crate::specs::Bodies::bend_mark))]
fn put_bend_line(
    out: &mut Vec<u8>,
    window: &Window,
    line: Option<(i64, i64)>,
) -> Result<(), AllocError>
    requires window { IsWindow window.now }
    requires line { IfSome line IsNearLine }
    ensures { OnOk result (out.new.items ≡ out.old.items ++ bend_mark window.now line) }
{
    match line {
        Some((from, to)) => {
            let pen: (&'static [u8], i64, Dashes) = (b"bend", 4, Dashes::Dashed(20, 10));
            put_line_between(out, window, pen, drawn_end(from), drawn_end(to))
        }
        None => Ok(()),
    }
}

/// A view of the part as a body, with the bend line or without it.
pub(crate) fn put_part_view<'a>(
    out: &mut Vec<u8>,
    window: &Window,
    title: &'a [u8],
    sentence: &'a [u8],
    boxes: &[DrawnBox],
    line: Option<(i64, i64)>,
) -> Result<(), AllocError>
    requires window { IsWindow window.now }
    requires few { length boxes.now ≤ 25 }
    requires near { AreNearBoxes boxes.now }
    requires line { IfSome line IsNearLine }
    ensures { OnOk result (IsPartView window.now title.now sentence.now boxes.now line
        out.old.items out.new.items) }
{
    put_begin(out, window, title, sentence)?;
    put_painted(out, window, boxes)?;
    put_bend_line(out, window, line)?;
    put_shapes_end(out)?;
    put_figure_end(out, window, title)?;
    Ok(())
}
