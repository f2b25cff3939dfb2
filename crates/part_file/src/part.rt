//! A sheet metal part: flat rectangular faces joined by right-angle bends.
ghost use Rattle.std.specs.Prelude.{◌≡◌, ◌↔◌, IsTrue};
ghost use Rattle.part_file.specs.Part.{part_data, face_data, side_length, IsPart};

use crate::bounds::MOST_FACES;
use crate::rules::{are_faces, is_sheet};
use arrayvec::ArrayVec;
use brake_base::Name;

/// A side of a face. The sides run clockwise, seen from above: N is the far one, S the near one.
#[derive(Clone, Copy, Debug, PartialEq, Eq)]
pub enum Side {
    N,
    E,
    S,
    W,
}

/// The direction of a bend.
#[derive(Clone, Copy, Debug, PartialEq, Eq)]
pub enum Dir {
    Up,
    Down,
}

/// Where a face's own S side is joined to an earlier face: to that face's side, from `at` on,
/// measured clockwise from the side's start, in micrometres.
#[derive(Clone, Copy, Debug, PartialEq, Eq)]
pub struct Joint {
    pub on: u8,
    pub side: Side,
    pub at: i64,
    pub dir: Dir,
}

/// A rectangle of sheet, with its outside sizes in micrometres: the width along its S side,
/// the length away from it. Face 0 has no joint; bend b joins face b to its parent.
#[derive(Clone, Copy, Debug, Default)]
pub struct Face {
    pub name: Name,
    pub width: i64,
    pub length: i64,
    pub joint: Option<Joint>,
}

impl Face {
    /// How long a side of the face is, in micrometres.
    pub(crate) fn side_length(&self, side: Side) -> i64
        ensures { result ≡ side_length side (face_data self.now) }
    {
        match side {
            Side::N | Side::S => self.width,
            Side::E | Side::W => self.length,
        }
    }
}

/// A part of at most 13 faces. Face 0 is the root, and each other face is joined to an earlier
/// one. The thickness and the inner radius of its bends are in micrometres.
#[derive(Debug, Drop)]
pub struct Part {
    pub material: Name,
    pub thickness: i64,
    pub radius: i64,
    pub faces: ArrayVec<Face, MOST_FACES>,
}

impl Part {
    /// Whether the part meets the rules of the part file, as each part that is read does. The
    /// material and each face have a name of 1 to 24 bytes from 0x21 to 0x7E. The thickness is
    /// even, from 2 to 50,000 micrometres; the radius is from 1 to 50,000, and each size of a face
    /// from 1 to 10,000,000. There is a face, and no two faces have one name. Face 0 has no joint,
    /// and each other face stands within a side of an earlier one, which is an S side only of
    /// face 0. Any part may be asked.
    pub fn is_valid(&self) -> bool
        ensures { IsTrue result ↔ IsPart (part_data self.now) }
    {
        let faces = self.faces.as_slice();
        is_sheet(self) && !faces.is_empty() && are_faces(faces)
    }

    /// A copy of the part. It takes no memory.
    pub fn copy(&self) -> Part
        ensures { part_data result ≡ part_data self.now }
    {
        let mut faces = ArrayVec::new();
        let _ = faces.try_extend_from_slice(self.faces.as_slice());
        Part {
            material: self.material,
            thickness: self.thickness,
            radius: self.radius,
            faces,
        }
    }
}
