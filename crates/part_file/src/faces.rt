//! The faces by the numbers of their parents, and the refusals over all faces.
ghost use Rattle.std.specs.Prelude.{◌≡◌, ◌≤◌, ◌<◌, length, IfSome, map, bytes_eq, position};
ghost use Rattle.toml_fields.specs.Results.{Gives, first_below};
ghost use Rattle.part_file.specs.Part.{face_data};
ghost use Rattle.part_file.specs.Rules.{has_namesake, lacks_parent, has_bad_size};
ghost use Rattle.part_file.specs.Rows.{face_row_data, joint_row_data};
ghost use Rattle.part_file.specs.PartFile.{earlier_face, joint_of, face_of, faces_of, refuse_faces};

use crate::bounds::MOST_FACES;
use crate::fault::PartFault;
use crate::part::{Face, Joint};
use crate::rows::{FaceRow, JointRow};
use crate::rules::{has_bad_size, has_namesake, lacks_parent};
use arrayvec::ArrayVec;
use brake_base::Name;

/// The first face of this name.
fn named(rows: &[FaceRow], name: &Name) -> Option<usize>
    ensures { result ≡ position (λ row. bytes_eq row.name.bytes name.now.bytes) rows.now }
{
    rows.iter().position(|row| row.name == *name)
}

/// The first face of this name, among those before a face.
#[tactic(auto, using(crate::proofs::RowData::rows))]
fn earlier_face(rows: &[FaceRow], face: usize, name: &Name) -> Option<usize>
    requires { face ≤ length rows.now }
    ensures { result ≡ earlier_face (map face_row_data rows.now) face name.now.bytes }
{
    named(&rows[..face], name)
}

/// The joint by the number of its parent, where that is an earlier face.
#[tactic(auto, using(crate::proofs::RowData::rows))]
fn joint_of(rows: &[FaceRow], face: usize, joint: &JointRow) -> Option<Joint>
    requires within { face ≤ length rows.now }
    requires few { length rows.now ≤ MOST_FACES }
    ensures { result ≡ joint_of (map face_row_data rows.now) face (joint_row_data joint.now) }
{
    match earlier_face(rows, face, &joint.on) {
        Some(parent) => Some(Joint {
            on: parent as u8,
            side: joint.side,
            at: joint.at,
            dir: joint.dir,
        }),
        None => None,
    }
}

/// The face of a number, by the number of its parent.
#[tactic(auto, using(crate::proofs::RowData::rows))]
fn face_of(rows: &[FaceRow], face: usize) -> Face
    requires within { face < length rows.now }
    requires few { length rows.now ≤ MOST_FACES }
    ensures { face_data result ≡ face_of (map face_row_data rows.now) face }
{
    let row = &rows[face];
    let joint = match &row.joint {
        Some(joint) => joint_of(rows, face, joint),
        None => None,
    };
    Face {
        name: row.name,
        width: row.width,
        length: row.length,
        joint,
    }
}

/// All faces by the numbers of their parents.
pub fn faces_of(rows: &[FaceRow]) -> ArrayVec<Face, MOST_FACES>
    requires { length rows.now ≤ MOST_FACES }
    ensures { map face_data result.items ≡ faces_of (map face_row_data rows.now) }
{
    let mut faces = ArrayVec::new();
    for face in 0..rows.len() {
        faces.push(face_of(rows, face));
    }
    faces
}

/// The first face whose name an earlier face has.
fn first_namesake(faces: &[Face]) -> Option<usize>
    ensures value { result
        ≡ first_below (has_namesake (map face_data faces.now)) (length faces.now) }
    ensures within { IfSome result (λ face. face < length faces.now) }
{
    (0..faces.len()).find(|face| has_namesake(faces, *face))
}

/// The first face that stands on no earlier face.
fn first_without_parent(faces: &[Face]) -> Option<usize>
    ensures value { result
        ≡ first_below (lacks_parent (map face_data faces.now)) (length faces.now) }
    ensures within { IfSome result (λ face. face < length faces.now) }
{
    (0..faces.len()).find(|face| lacks_parent(faces, *face))
}

/// The first face with a bad size or place.
fn first_bad_size(faces: &[Face]) -> Option<usize>
    ensures value { result
        ≡ first_below (has_bad_size (map face_data faces.now)) (length faces.now) }
    ensures within { IfSome result (λ face. face < length faces.now) }
{
    (0..faces.len()).find(|face| has_bad_size(faces, *face))
}

/// The refusals over all faces: two equal names, then a parent that isn't earlier, then a size or
/// a place.
#[tactic(auto, using(crate::proofs::RowData::rows), unfolding(crate::specs::PartFile::refuse_faces))]
pub fn refuse_faces(faces: &[Face]) -> Result<(), PartFault>
    requires { length faces.now ≤ MOST_FACES }
    ensures { Gives (λ done. done) result (refuse_faces (map face_data faces.now)) }
{
    if let Some(face) = first_namesake(faces) {
        return Err(PartFault::SameName { face: face as u8 });
    }
    if let Some(face) = first_without_parent(faces) {
        return Err(PartFault::UnknownParent { face: face as u8 });
    }
    if let Some(face) = first_bad_size(faces) {
        return Err(PartFault::BadSize { face: face as u8 });
    }
    Ok(())
}
