//! The heading of a stroke.
ghost use Rattle.std.specs.Prelude.{◌≡◌, ◌^◌, ◌<◌, ◌≤◌, ◌+◌, ◌++◌, length, map, IfOk, OnOk};
ghost use Rattle.std.specs.Ordering.{int_eq};
ghost use Rattle.std.specs.List.{list_any};
ghost use Rattle.brake_base.specs.Masks.{bends_of};
ghost use Rattle.part_file.specs.Part.{face_at};
ghost use Rattle.sheet_page.specs.Headings.{is_beyond, is_flat_among, is_still_flat, with_length, different, lengths_of, dir_words, group_lengths, measured_words, height_words, way_words, bends_words, titled_line, heading_line};
ghost use Rattle.sheet_page.specs.Strokes.{stroke_data, IsStroke};

use crate::forms::H2_STROKE;
use crate::job_parts::joint_at;
use crate::lists::{put_lengths, put_names};
use crate::stroke::Stroke;
use arrayvec::ArrayVec;
use brake_base::Mask;
use brake_text::put_word;
use job_setup::Job;
use part_file::{Dir, Side};
use sheet_figures::put_bends;
use std::alloc::{AllocError, Global};
use svg_text::{Hole, put_line};

/// The directions of a stroke.
const UP: &[u8] = b"up, 90\xc2\xb0";

const DOWN: &[u8] = b"down, 90\xc2\xb0";

const OUTSIDE: &[u8] = b" mm outside";

/// Whether the bend stands on the outer edge of one of these flanges.
fn is_beyond(job: &Job, flanges: Mask, bend: u8) -> bool
    requires some { 0 < bend }
    requires bend { bend < length job.now.part.faces }
    ensures { result ≡ is_beyond job.now flanges bend }
{
    let joint = joint_at(job, bend);
    match joint.side {
        Side::N => joint.on > 0 && flanges.contains(joint.on),
        _ => false,
    }
}

/// Whether one of the first bends, of so many, stands on the outer edge of one of these flanges and
/// is still flat.
fn is_flat_among(job: &Job, folded: Mask, flanges: Mask, bends: u8) -> bool
    requires within { bends < length job.now.part.faces }
    requires few { bends ≤ 12 }
    ensures { result ≡ is_flat_among job.now folded flanges bends }
{
    if bends == 0 {
        return false;
    }
    (!folded.contains(bends) && is_beyond(job, flanges, bends))
        || is_flat_among(job, folded, flanges, bends - 1)
}

/// Whether a bend on the outer edge of one of these flanges is still flat.
fn is_still_flat(job: &Job, folded: Mask, flanges: Mask) -> bool
    ensures { result ≡ is_still_flat job.now folded flanges }
{
    is_flat_among(job, folded, flanges, job.bends())
}

/// Whether a length is among some lengths.
fn is_told(lengths: &[i64], size: i64) -> bool
    ensures { result ≡ list_any (λ other. int_eq other size) lengths.now }
{
    match lengths {
        [] => false,
        [other, lengths @ ..] => *other == size || is_told(lengths, size),
    }
}

/// Adds a length to those that were told, where it isn't among them.
fn add_length(told: &mut ArrayVec<i64, 16>, size: i64)
    requires { length told.old.items < 16 }
    ensures value { told.new.items ≡ with_length told.old.items size }
    ensures few { length told.new.items ≤ length told.old.items + 1 }
{
    if !is_told(told.as_slice(), size) {
        told.push(size);
    }
}

/// The length of a face.
fn length_of(job: &Job, face: u8) -> i64
    ensures { result ≡ (face_at job.now.part.faces face).length }
{
    match job.part().faces.as_slice().get(usize::from(face)) {
        Some(face) => face.length,
        None => 0,
    }
}

/// Adds the lengths of some flanges to those that were told, each where it isn't among them.
fn add_lengths(told: &mut ArrayVec<i64, 16>, job: &Job, flanges: &[u8])
    requires { length told.old.items + length flanges.now ≤ 16 }
    ensures { told.new.items ≡ different told.old.items
        (map (λ flange. (face_at job.now.part.faces flange).length) flanges.now) }
{
    match flanges {
        [] => {}
        [flange, flanges @ ..] => {
            add_length(told, length_of(job, *flange));
            add_lengths(told, job, flanges);
        }
    }
}

/// The different lengths of the flanges of a group, in order.
fn lengths_of(job: &Job, group: Mask) -> ArrayVec<i64, 16>
    ensures { result.items ≡ lengths_of job.now (bends_of group) }
{
    let mut lengths = ArrayVec::new();
    add_lengths(&mut lengths, job, group.bends().as_slice());
    lengths
}

/// The direction of a stroke.
#[tactic(auto, unfolding(crate::specs::Headings::dir_words))]
fn dir_words(dir: Dir) -> &'static [u8]
    ensures { result.now ≡ dir_words dir }
{
    match dir {
        Dir::Up => UP,
        Dir::Down => DOWN,
    }
}

/// The different lengths of a group's flanges.
#[tactic(auto, unfolding(crate::specs::Headings::group_lengths))]
fn put_group_lengths(out: &mut Vec<u8>, job: &Job, group: Mask) -> Result<(), AllocError>
    ensures { OnOk result (out.new.items ≡ out.old.items ++ group_lengths job.now group) }
{
    put_lengths(out, lengths_of(job, group).as_slice())
}

/// How high the flanges of a group are.
#[tactic(auto, using(sheet_paper::proofs::Texts::pieces), unfolding(crate::specs::Headings::measured_words))]
fn put_measured(out: &mut Vec<u8>, job: &Job, group: Mask) -> Result<(), AllocError>
    ensures { OnOk result (out.new.items ≡ out.old.items ++ measured_words job.now group) }
{
    put_word(out, b", ")?;
    put_group_lengths(out, job, group)?;
    put_word(out, OUTSIDE)
}

/// How high the flanges of a group are over the outside, where that can be measured after the
/// stroke.
#[tactic(auto, using(sheet_paper::proofs::Texts::pieces), unfolding(crate::specs::Headings::height_words))]
fn put_height(out: &mut Vec<u8>, job: &Job, folded: Mask, group: Mask) -> Result<(), AllocError>
    ensures { OnOk result (out.new.items
        ≡ out.old.items ++ height_words job.now folded group) }
{
    if is_still_flat(job, folded, group) {
        return Ok(());
    }
    put_measured(out, job, group)
}

/// The direction of a stroke, and how high its flanges are.
#[tactic(auto, using(sheet_paper::proofs::Texts::pieces), unfolding(crate::specs::Headings::way_words))]
fn way_words(alloc: Global, job: &Job, stroke: &Stroke) -> Result<Vec<u8>, AllocError>
    requires { IsStroke job.now (stroke_data stroke.now) }
    ensures { IfOk result (λ words. words.items ≡ way_words job.now (stroke_data stroke.now)) }
{
    let mut words = Vec::new(alloc);
    let joint = joint_at(job, stroke.step.action.bend);
    put_word(&mut words, dir_words(joint.dir))?;
    put_height(&mut words, job, stroke.after.mask, stroke.group())?;
    Ok(words)
}

/// The bends of a stroke and their flanges: `Bend B: NAME`, or `Bends B and C: NAME and NAME`.
#[tactic(auto, using(sheet_paper::proofs::Texts::pieces), unfolding(crate::specs::Headings::bends_words))]
fn bends_words(alloc: Global, job: &Job, bends: &[u8]) -> Result<Vec<u8>, AllocError>
    ensures { IfOk result (λ words. words.items ≡ bends_words job.now bends.now) }
{
    let mut words = Vec::new(alloc);
    put_bends(&mut words, bends)?;
    put_word(&mut words, b": ")?;
    put_names(&mut words, job, bends)?;
    Ok(words)
}

/// The line of a heading, of the bends in words and the way they are bent.
#[tactic(auto, using(sheet_paper::proofs::Texts::pieces))]
fn put_heading_line<'a>(
    out: &mut Vec<u8>,
    number: usize,
    count: usize,
    bends: &'a [u8],
    way: &'a [u8],
) -> Result<(), AllocError>
    requires number { number < 2 ^ 63 }
    requires count { count < 2 ^ 63 }
    ensures { OnOk result (out.new.items
        ≡ out.old.items ++ titled_line number count bends.now way.now) }
{
    let holes = [
        Hole::Number(number as i64),
        Hole::Text(bends),
        Hole::Text(way),
        Hole::Number(number as i64),
        Hole::Number(count as i64),
    ];
    put_line(out, H2_STROKE, &holes)
}

/// The heading of a stroke, of so many.
pub fn put_heading(
    out: &mut Vec<u8>,
    job: &Job,
    stroke: &Stroke,
    count: usize,
) -> Result<(), AllocError>
    requires stroke { IsStroke job.now (stroke_data stroke.now) }
    requires number { stroke.now.number < 2 ^ 63 }
    requires count { count < 2 ^ 63 }
    ensures { OnOk result (out.new.items
        ≡ out.old.items ++ heading_line job.now count (stroke_data stroke.now)) }
{
    let alloc = *out.allocator();
    let bends = bends_words(alloc, job, stroke.group().bends().as_slice())?;
    let way = way_words(alloc, job, stroke)?;
    put_heading_line(out, stroke.number, count, bends.as_slice(), way.as_slice())
}
