//! The blank sheet.
ghost use Rattle.std.specs.Prelude.{◌≡◌, ◌<◌, ◌≤◌, ◌-ℤ◌, ◌++◌, length, map, All, OnOk, IfOk};
ghost use Rattle.std.specs.List.{flat_map};
ghost use Rattle.part_file.specs.Part.{part_data, face_data};
ghost use Rattle.unfolder.specs.Blank.{blank_data};
ghost use Rattle.setup_sheet.specs.Coordinates.{IsBounded, IsBoundedRect, IsBoundedLine, IsBoundedBlank};
ghost use Rattle.setup_sheet.specs.Sheets.{field, dir_field, point, size_line, corners, face_line, bend_line, face_lines, blank_text};

use crate::words::put_field;
use brake_text::put_word;
use part_file::{Dir, Face, Part};
use std::alloc::{AllocError, Global};
use unfolder::{BendLine, Blank, FlatFace, FlatRect, extent};

/// A space and how far a coordinate is above the least one.
fn put_offset(out: &mut Vec<u8>, value: i64, least: i64) -> Result<(), AllocError>
    requires value { IsBounded value }
    requires least { IsBounded least }
    ensures { OnOk result (out.new.items ≡ out.old.items ++ field (value -ℤ least)) }
{
    put_field(out, value - least)
}

/// A point, from the least corner of the extent.
#[tactic(auto, using(crate::proofs::Texts::pieces), unfolding(crate::specs::Sheets::point))]
fn put_point(out: &mut Vec<u8>, x: i64, y: i64, extent: &FlatRect) -> Result<(), AllocError>
    requires x { IsBounded x }
    requires y { IsBounded y }
    requires extent { IsBoundedRect extent.now }
    ensures { OnOk result (out.new.items ≡ out.old.items ++ point extent.now x y) }
{
    put_offset(out, x, extent.x0)?;
    put_offset(out, y, extent.y0)
}

#[tactic(auto, using(crate::proofs::Texts::pieces), unfolding(crate::specs::Sheets::size_line))]
fn put_size(out: &mut Vec<u8>, extent: &FlatRect) -> Result<(), AllocError>
    requires { IsBoundedRect extent.now }
    ensures { OnOk result (out.new.items ≡ out.old.items ++ size_line extent.now) }
{
    put_word(out, b"size")?;
    put_offset(out, extent.x1, extent.x0)?;
    put_offset(out, extent.y1, extent.y0)?;
    put_word(out, b"\n")
}

/// The least and the greatest corner of a rectangle.
#[tactic(auto, using(crate::proofs::Texts::pieces), unfolding(crate::specs::Sheets::corners))]
fn put_corners(out: &mut Vec<u8>, rect: &FlatRect, extent: &FlatRect) -> Result<(), AllocError>
    requires rect { IsBoundedRect rect.now }
    requires extent { IsBoundedRect extent.now }
    ensures { OnOk result (out.new.items ≡ out.old.items ++ corners extent.now rect.now) }
{
    put_point(out, rect.x0, rect.y0, extent)?;
    put_point(out, rect.x1, rect.y1, extent)
}

#[tactic(auto, using(crate::proofs::Texts::pieces), unfolding(crate::specs::Sheets::face_line))]
fn put_face(
    out: &mut Vec<u8>,
    number: u8,
    name: &str,
    rect: &FlatRect,
    extent: &FlatRect,
) -> Result<(), AllocError>
    requires rect { IsBoundedRect rect.now }
    requires extent { IsBoundedRect extent.now }
    ensures { OnOk result (out.new.items
        ≡ out.old.items ++ face_line extent.now number name.now rect.now) }
{
    put_word(out, b"face")?;
    put_field(out, i64::from(number))?;
    put_word(out, b" ")?;
    put_word(out, name.as_bytes())?;
    put_corners(out, rect, extent)?;
    put_word(out, b"\n")
}

/// A line for each face.
#[tactic(auto, unfolding(crate::specs::Sheets::face_lines))]
fn put_faces(
    out: &mut Vec<u8>,
    faces: &[Face],
    flat_faces: &[FlatFace],
    extent: &FlatRect,
) -> Result<(), AllocError>
    requires few { length flat_faces.now ≤ 13 }
    requires same { length faces.now ≡ length flat_faces.now }
    requires bounded { All (λ face. IsBoundedRect face.rect) flat_faces.now }
    requires extent { IsBoundedRect extent.now }
    ensures { OnOk result (out.new.items
        ≡ out.old.items ++ face_lines extent.now (map face_data faces.now) flat_faces.now) }
{
    for (i, flat_face) in flat_faces.iter().enumerate() {
        put_face(
            out,
            i as u8,
            faces[i].name.as_str(),
            &flat_face.rect,
            extent,
        )?;
    }
    Ok(())
}

/// A space and the word for a bend's direction.
#[tactic(auto, unfolding(crate::specs::Sheets::dir_field))]
fn dir_field(dir: Dir) -> &'static [u8]
    ensures { result.now ≡ dir_field dir }
{
    match dir {
        Dir::Up => b" up",
        Dir::Down => b" down",
    }
}

#[tactic(auto, using(crate::proofs::Texts::pieces), unfolding(crate::specs::Sheets::bend_line))]
fn put_bend(out: &mut Vec<u8>, line: &BendLine, extent: &FlatRect) -> Result<(), AllocError>
    requires line { IsBoundedLine line.now }
    requires extent { IsBoundedRect extent.now }
    ensures { OnOk result (out.new.items ≡ out.old.items ++ bend_line extent.now line.now) }
{
    put_word(out, b"bend")?;
    put_field(out, i64::from(line.bend))?;
    put_point(out, line.from.0, line.from.1, extent)?;
    put_point(out, line.to.0, line.to.1, extent)?;
    put_word(out, dir_field(line.dir))?;
    put_word(out, b"\n")
}

/// A line for each bend.
fn put_bends(out: &mut Vec<u8>, lines: &[BendLine], extent: &FlatRect) -> Result<(), AllocError>
    requires lines { All IsBoundedLine lines.now }
    requires extent { IsBoundedRect extent.now }
    ensures { OnOk result (out.new.items
        ≡ out.old.items ++ flat_map (bend_line extent.now) lines.now) }
{
    for line in lines {
        put_bend(out, line, extent)?;
    }
    Ok(())
}

/// The blank sheet of a part: the size of its blank, then a line for each face and for each bend,
/// with all coordinates measured from the least corner of the blank's extent, in micrometres.
#[tactic(auto, using(crate::proofs::Texts::pieces, crate::proofs::Bounds::extent_is_bounded), unfolding(crate::specs::Sheets::blank_text))]
pub fn blank_sheet(alloc: Global, part: &Part, blank: &Blank) -> Result<Vec<u8>, AllocError>
    requires some_face { 0 < length blank.now.faces.items }
    requires same { length part.now.faces.items ≡ length blank.now.faces.items }
    requires bounded { IsBoundedBlank (blank_data blank.now) }
    ensures { IfOk result (λ sheet. sheet.items
        ≡ blank_text (part_data part.now) (blank_data blank.now)) }
{
    let extent = extent(blank);
    let mut out = Vec::new(alloc);
    put_word(&mut out, b"blank\n")?;
    put_size(&mut out, &extent)?;
    put_faces(&mut out, &part.faces, &blank.faces, &extent)?;
    put_bends(&mut out, &blank.bends, &extent)?;
    Ok(out)
}
