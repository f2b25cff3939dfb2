//! Faces, boxes and bends.
ghost use Rattle.std.specs.Prelude.{◌≡◌, ◌+◌, ◌<◌, ◌++◌, length, OnOk};
ghost use Rattle.part_file.specs.Part.{face_at};
ghost use Rattle.sheet_words.specs.Faces.{face_kind, face_words, listed_face, faces_words, corner_words, box_words, bend_label};

use crate::lists::separator;
use brake_text::{put_number, put_word};
use job_setup::Job;
use std::alloc::AllocError;

/// The name of a face; the words for a face that the part lacks have none.
pub fn name_of(job: &Job, face: u8) -> &[u8]
    ensures { result.now ≡ (face_at job.now.part.faces face).name }
{
    match job.part().faces.as_slice().get(usize::from(face)) {
        Some(face) => face.name.as_bytes(),
        None => b"",
    }
}

/// The word for face 0, or for one that is bent.
#[tactic(auto, unfolding(crate::specs::Faces::face_kind))]
fn face_kind(face: u8) -> &'static [u8]
    ensures { result.now ≡ face_kind face }
{
    if face == 0 { b"face " } else { b"flange " }
}

/// A face by its number and name.
#[tactic(auto, using(crate::proofs::Texts::pieces), unfolding(crate::specs::Faces::face_words))]
pub fn put_face(out: &mut Vec<u8>, job: &Job, face: u8) -> Result<(), AllocError>
    ensures { OnOk result (out.new.items ≡ out.old.items ++ face_words job.now face) }
{
    put_word(out, face_kind(face))?;
    put_number(out, i64::from(face))?;
    put_word(out, b" '")?;
    put_word(out, name_of(job, face))?;
    put_word(out, b"'")
}

/// The face at a place of a list of so many.
#[tactic(auto, using(crate::proofs::Texts::pieces), unfolding(crate::specs::Faces::listed_face))]
fn put_listed_face(
    out: &mut Vec<u8>,
    job: &Job,
    at: usize,
    count: usize,
    face: u8,
) -> Result<(), AllocError>
    requires { at < count }
    ensures { OnOk result (out.new.items ≡ out.old.items ++ listed_face job.now at count face) }
{
    put_word(out, separator(at, count))?;
    put_face(out, job, face)
}

/// The last faces of a list of so many, from a place on.
#[tactic(auto, using(crate::proofs::Texts::pieces))]
fn put_last_faces(
    out: &mut Vec<u8>,
    job: &Job,
    at: usize,
    count: usize,
    faces: &[u8],
) -> Result<(), AllocError>
    requires { at + length faces.now ≡ count }
    ensures { OnOk result (out.new.items
        ≡ out.old.items ++ faces_words job.now at count faces.now) }
{
    match faces {
        [] => Ok(()),
        [face, faces @ ..] => {
            put_listed_face(out, job, at, count, *face)?;
            put_last_faces(out, job, at + 1, count, faces)
        }
    }
}

/// Faces in a list.
pub fn put_faces(out: &mut Vec<u8>, job: &Job, faces: &[u8]) -> Result<(), AllocError>
    ensures { OnOk result (out.new.items
        ≡ out.old.items ++ faces_words job.now 0 (length faces.now) faces.now) }
{
    put_last_faces(out, job, 0, faces.len(), faces)
}

/// The corner of a bend.
#[tactic(auto, using(crate::proofs::Texts::pieces), unfolding(crate::specs::Faces::corner_words))]
fn put_corner(out: &mut Vec<u8>, bend: u8) -> Result<(), AllocError>
    ensures { OnOk result (out.new.items ≡ out.old.items ++ corner_words bend) }
{
    put_word(out, b"the corner of bend ")?;
    put_number(out, i64::from(bend))
}

/// A box of the part: a face, or the corner of a bend.
#[tactic(auto, unfolding(crate::specs::Faces::box_words))]
pub fn put_box(out: &mut Vec<u8>, job: &Job, id: u8) -> Result<(), AllocError>
    ensures { OnOk result (out.new.items ≡ out.old.items ++ box_words job.now id) }
{
    if id <= 12 {
        put_face(out, job, id)
    } else {
        put_corner(out, id - 12)
    }
}

/// A bend by its number and the name of its flange.
#[tactic(auto, using(crate::proofs::Texts::pieces), unfolding(crate::specs::Faces::bend_label))]
pub fn put_bend_label(out: &mut Vec<u8>, job: &Job, bend: u8) -> Result<(), AllocError>
    ensures { OnOk result (out.new.items ≡ out.old.items ++ bend_label job.now bend) }
{
    put_number(out, i64::from(bend))?;
    put_word(out, b" ")?;
    put_word(out, name_of(job, bend))
}
