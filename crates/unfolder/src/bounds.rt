//! The size of a blank.
ghost use Rattle.std.specs.Prelude.{◌≡◌, ◌<◌, length};
ghost use Rattle.unfolder.specs.Blank.{blank_data};
ghost use Rattle.unfolder.specs.Around.{rect_around, rect_of_both};
ghost use Rattle.unfolder.specs.Extent.{extent_of, IsExtent, IsNearBlank, IsNearRect};

use crate::blank::{Blank, FlatFace, FlatRect};

/// The least rectangle that holds all faces of a blank.
pub fn extent(blank: &Blank) -> FlatRect
    requires { 0 < length blank.now.faces.items }
    ensures value { result ≡ extent_of blank.now.faces.items }
    ensures least { IsExtent blank.now.faces.items result }
    ensures near { IsNearBlank (blank_data blank.now) → IsNearRect result }
{
    outline(blank.faces.as_slice())
}

/// The least rectangle that holds the faces.
fn outline(faces: &[FlatFace]) -> FlatRect
    requires { 0 < length faces.now }
    ensures { result ≡ extent_of faces.now }
{
    match faces {
        [first, others @ ..] => all_around(first.rect, others),
        [] => unreachable!(),
    }
}

/// The least rectangle that holds the first one and the faces.
fn all_around(first: FlatRect, faces: &[FlatFace]) -> FlatRect
    ensures { result ≡ rect_around first faces.now }
{
    let mut all = first;
    for face in faces {
        all = around(&all, &face.rect);
    }
    all
}

/// The least rectangle that holds both.
fn around(a: &FlatRect, b: &FlatRect) -> FlatRect
    ensures { result ≡ rect_of_both a.now b.now }
{
    FlatRect {
        x0: a.x0.min(b.x0),
        x1: a.x1.max(b.x1),
        y0: a.y0.min(b.y0),
        y1: a.y1.max(b.y1),
    }
}
