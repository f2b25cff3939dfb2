//! Lists of names and lengths in words.
ghost use Rattle.std.specs.Prelude.{◌≡◌, ◌+◌, ◌<◌, ◌++◌, length, OnOk};
ghost use Rattle.sheet_page.specs.Lists.{listed_name, name_words, listed_label, label_words, listed_length, length_words};

use brake_text::put_word;
use job_setup::Job;
use sheet_words::{name_of, put_bend_label, put_mm, separator};
use std::alloc::AllocError;

/// The name of a face at a place of a list of so many.
#[tactic(auto, using(sheet_paper::proofs::Texts::pieces), unfolding(crate::specs::Lists::listed_name))]
fn put_listed_name(
    out: &mut Vec<u8>,
    job: &Job,
    at: usize,
    count: usize,
    face: u8,
) -> Result<(), AllocError>
    requires { at < count }
    ensures { OnOk result (out.new.items ≡ out.old.items ++ listed_name job.now at count face) }
{
    put_word(out, separator(at, count))?;
    put_word(out, name_of(job, face))
}

/// The names of the last faces of a list of so many, from a place on.
#[tactic(auto, using(sheet_paper::proofs::Texts::pieces))]
fn put_last_names(
    out: &mut Vec<u8>,
    job: &Job,
    at: usize,
    count: usize,
    faces: &[u8],
) -> Result<(), AllocError>
    requires { at + length faces.now ≡ count }
    ensures { OnOk result (out.new.items
        ≡ out.old.items ++ name_words job.now at count faces.now) }
{
    match faces {
        [] => Ok(()),
        [face, faces @ ..] => {
            put_listed_name(out, job, at, count, *face)?;
            put_last_names(out, job, at + 1, count, faces)
        }
    }
}

/// The names of faces, listed.
pub fn put_names(out: &mut Vec<u8>, job: &Job, faces: &[u8]) -> Result<(), AllocError>
    ensures { OnOk result (out.new.items
        ≡ out.old.items ++ name_words job.now 0 (length faces.now) faces.now) }
{
    put_last_names(out, job, 0, faces.len(), faces)
}

/// A face at a place of a list of so many, by its number and name.
#[tactic(auto, using(sheet_paper::proofs::Texts::pieces), unfolding(crate::specs::Lists::listed_label))]
fn put_listed_label(
    out: &mut Vec<u8>,
    job: &Job,
    at: usize,
    count: usize,
    face: u8,
) -> Result<(), AllocError>
    requires { at < count }
    ensures { OnOk result (out.new.items ≡ out.old.items ++ listed_label job.now at count face) }
{
    put_word(out, separator(at, count))?;
    put_bend_label(out, job, face)
}

/// The last faces of a list of so many, from a place on, by their numbers and names.
#[tactic(auto, using(sheet_paper::proofs::Texts::pieces))]
fn put_last_labels(
    out: &mut Vec<u8>,
    job: &Job,
    at: usize,
    count: usize,
    faces: &[u8],
) -> Result<(), AllocError>
    requires { at + length faces.now ≡ count }
    ensures { OnOk result (out.new.items
        ≡ out.old.items ++ label_words job.now at count faces.now) }
{
    match faces {
        [] => Ok(()),
        [face, faces @ ..] => {
            put_listed_label(out, job, at, count, *face)?;
            put_last_labels(out, job, at + 1, count, faces)
        }
    }
}

/// Faces by their numbers and names, listed.
pub fn put_labels(out: &mut Vec<u8>, job: &Job, faces: &[u8]) -> Result<(), AllocError>
    ensures { OnOk result (out.new.items
        ≡ out.old.items ++ label_words job.now 0 (length faces.now) faces.now) }
{
    put_last_labels(out, job, 0, faces.len(), faces)
}

/// A length at a place of a list of so many.
#[tactic(auto, using(sheet_paper::proofs::Texts::pieces), unfolding(crate::specs::Lists::listed_length))]
fn put_listed_length(
    out: &mut Vec<u8>,
    at: usize,
    count: usize,
    size: i64,
) -> Result<(), AllocError>
    requires { at < count }
    ensures { OnOk result (out.new.items ≡ out.old.items ++ listed_length at count size) }
{
    put_word(out, separator(at, count))?;
    put_mm(out, size)
}

/// The last lengths of a list of so many, from a place on.
#[tactic(auto, using(sheet_paper::proofs::Texts::pieces))]
fn put_last_lengths(
    out: &mut Vec<u8>,
    at: usize,
    count: usize,
    lengths: &[i64],
) -> Result<(), AllocError>
    requires { at + length lengths.now ≡ count }
    ensures { OnOk result (out.new.items
        ≡ out.old.items ++ length_words at count lengths.now) }
{
    match lengths {
        [] => Ok(()),
        [size, lengths @ ..] => {
            put_listed_length(out, at, count, *size)?;
            put_last_lengths(out, at + 1, count, lengths)
        }
    }
}

/// Lengths in millimetres, listed.
pub fn put_lengths(out: &mut Vec<u8>, lengths: &[i64]) -> Result<(), AllocError>
    ensures { OnOk result (out.new.items
        ≡ out.old.items ++ length_words 0 (length lengths.now) lengths.now) }
{
    put_last_lengths(out, 0, lengths.len(), lengths)
}
