//! The boxes of the part in a picture.
ghost use Rattle.std.specs.Prelude.{◌≡◌, ◌^◌, ◌≤◌, ◌++◌, unsigned_abs, flat_map, OnOk};
ghost use Rattle.sheet_paper.specs.Windows.{IsWindow};
ghost use Rattle.sheet_figures.specs.Parts.{box_class, part_box_line, across_bed, beside_line, shows, beside_text, in_line_text, part_lines};

use crate::forms::{PART_BOX, PART_BOX_BESIDE};
use brake_base::Rect;
use sheet_paper::{Area, Window};
use sheet_views::{DrawnBox, across};
use std::alloc::AllocError;
use svg_text::{Hole, put_line};

/// The class of a box, by whether it moves.
#[tactic(auto, unfolding(crate::specs::Parts::box_class))]
fn box_class(moves: bool) -> &'static [u8]
    ensures { result.now ≡ box_class moves }
{
    if moves { b"move" } else { b"rest" }
}

/// A box of the part.
#[tactic(auto, using(sheet_paper::proofs::Texts::pieces))]
pub(crate) fn put_part_box(
    out: &mut Vec<u8>,
    window: &Window,
    width: i64,
    part_box: &DrawnBox,
    area: &Area,
) -> Result<(), AllocError>
    requires window { IsWindow window.now }
    requires width { unsigned_abs width ≤ 2 ^ 20 }
    ensures { OnOk result (out.new.items
        ≡ out.old.items ++ part_box_line window.now width part_box.now area.now) }
{
    let holes = [
        Hole::Word(box_class(part_box.moves)),
        window.width(width),
        window.length(area.x0),
        window.length(area.y0),
        window.length(area.x1),
        window.length(area.y1),
        window.length(area.x0),
        Hole::Number(i64::from(part_box.id)),
    ];
    put_line(out, PART_BOX, &holes)
}

/// A rectangle across the bed as an area of the side views.
pub(crate) fn across_bed(rect: &Rect) -> Area
    ensures { result ≡ across_bed rect.now }
{
    Area {
        x0: rect.y0,
        x1: rect.y1,
        y0: rect.z0,
        y1: rect.z1,
    }
}

/// A box of the part that passes beside the tools.
#[tactic(auto, using(sheet_paper::proofs::Texts::pieces))]
fn put_beside(out: &mut Vec<u8>, window: &Window, part_box: &DrawnBox) -> Result<(), AllocError>
    requires { IsWindow window.now }
    ensures { OnOk result (out.new.items
        ≡ out.old.items ++ beside_line window.now part_box.now) }
{
    let area = across_bed(&across(&part_box.body));
    let holes = [
        window.width(2),
        window.width(12),
        window.width(8),
        window.length(area.x0),
        window.length(area.y0),
        window.length(area.x1),
        window.length(area.y1),
        window.length(area.x0),
        Hole::Number(i64::from(part_box.id)),
    ];
    put_line(out, PART_BOX_BESIDE, &holes)
}

/// Which boxes of the part a picture shows: all, those that move, or those that rest.
#[derive(Clone, Copy, Debug, PartialEq, Eq)]
pub(crate) enum Shown {
    Whole,
    Moving,
    Resting,
}

impl Shown {
    /// Whether a box is shown.
    fn has(self, part_box: &DrawnBox) -> bool
        ensures { result ≡ shows self part_box.now }
    {
        match self {
            Shown::Whole => true,
            Shown::Moving => part_box.moves,
            Shown::Resting => !part_box.moves,
        }
    }
}

/// A box, where it is shown and passes beside the tools.
#[tactic(auto, unfolding(crate::specs::Parts::beside_text))]
fn put_if_beside(
    out: &mut Vec<u8>,
    window: &Window,
    shown: Shown,
    part_box: &DrawnBox,
) -> Result<(), AllocError>
    requires { IsWindow window.now }
    ensures { OnOk result (out.new.items
        ≡ out.old.items ++ beside_text window.now shown part_box.now) }
{
    if !shown.has(part_box) || part_box.in_line {
        return Ok(());
    }
    put_beside(out, window, part_box)
}

/// A box, where it is shown and in line with the tools.
#[tactic(auto, unfolding(crate::specs::Parts::in_line_text))]
fn put_if_in_line(
    out: &mut Vec<u8>,
    window: &Window,
    shown: Shown,
    part_box: &DrawnBox,
) -> Result<(), AllocError>
    requires { IsWindow window.now }
    ensures { OnOk result (out.new.items
        ≡ out.old.items ++ in_line_text window.now shown part_box.now) }
{
    if !shown.has(part_box) || !part_box.in_line {
        return Ok(());
    }
    let area = across_bed(&across(&part_box.body));
    put_part_box(out, window, 3, part_box, &area)
}

/// The boxes that pass beside the tools.
fn put_all_beside(
    out: &mut Vec<u8>,
    window: &Window,
    shown: Shown,
    boxes: &[DrawnBox],
) -> Result<(), AllocError>
    requires { IsWindow window.now }
    ensures { OnOk result (out.new.items
        ≡ out.old.items ++ flat_map (beside_text window.now shown) boxes.now) }
{
    for part_box in boxes {
        put_if_beside(out, window, shown, part_box)?;
    }
    Ok(())
}

/// The boxes in line with the tools.
fn put_all_in_line(
    out: &mut Vec<u8>,
    window: &Window,
    shown: Shown,
    boxes: &[DrawnBox],
) -> Result<(), AllocError>
    requires { IsWindow window.now }
    ensures { OnOk result (out.new.items
        ≡ out.old.items ++ flat_map (in_line_text window.now shown) boxes.now) }
{
    for part_box in boxes {
        put_if_in_line(out, window, shown, part_box)?;
    }
    Ok(())
}

/// The part from the side: first the boxes that pass beside the tools, then those in line with
/// them.
#[tactic(auto, using(sheet_paper::proofs::Texts::pieces), unfolding(crate::specs::Parts::part_lines))]
pub(crate) fn put_part(
    out: &mut Vec<u8>,
    window: &Window,
    shown: Shown,
    boxes: &[DrawnBox],
) -> Result<(), AllocError>
    requires { IsWindow window.now }
    ensures { OnOk result (out.new.items
        ≡ out.old.items ++ part_lines window.now shown boxes.now) }
{
    put_all_beside(out, window, shown, boxes)?;
    put_all_in_line(out, window, shown, boxes)
}
