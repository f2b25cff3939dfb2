//! The pieces of the part's boxes, with the sectors that they sweep. They don't depend on the
//! obstacles.
ghost use Rattle.std.specs.Prelude.{◌≡◌, [], ◌+◌, ◌^◌, ◌≤◌, ◌++◌, pos, ◌≤ℤ◌, unsigned_abs, length, option_to_list};
ghost use Rattle.sector_geom.specs.declared.sector.Sweep.TheVariants.{Eighth};
ghost use Rattle.sector_geom.specs.Plane.{IsInRange};
ghost use Rattle.sector_geom.specs.Pieces.{piece_of};
ghost use Rattle.job_setup.specs.ValidJob.{IsJob};
ghost use Rattle.job_setup.specs.Reasons.{across, mirrored, seen_from, widening, moving_rect, lies_high};
ghost use Rattle.sweep_check.specs.Pieces.{IsSolidBox, AreSolidBoxes, piece_in, box_pieces, pieces_of};

use arrayvec::ArrayVec;
use brake_base::{Box3, Half, Quarter, Rect};
use fold_boxes::PoseBox;
use job_setup::Job;
use sector_geom::{Sector, Sweep, cover, split, widened};

/// A box's part in a quarter, as its half is looked at: its box, the range along the bed, whether it
/// lies so high that a sunk obstacle can't meet it, the part itself with how it is swept and how often
/// in a row it may be halved, and the sector that it sweeps.
#[derive(Clone, Copy)]
pub struct Piece {
    pub body: u8,
    pub half: Half,
    pub x0: i64,
    pub x1: i64,
    pub quarter: Quarter,
    pub is_high: bool,
    pub rect: Rect,
    pub sweep: Sweep,
    pub depth: u8,
    pub cover: Sector,
}

impl Default for Piece {
    fn default() -> Self {
        Piece {
            body: 0,
            half: Half::Back,
            x0: 0,
            x1: 0,
            quarter: Quarter::Q1,
            is_high: false,
            rect: Rect::default(),
            sweep: Sweep::Eighth,
            depth: 0,
            cover: Sector {
                near2: 0,
                far2: 0,
                lower: (0, 0),
                upper: (0, 0),
            },
        }
    }
}

/// The pieces of all boxes, by boxes and then by quarters, each swept by an eighth.
pub(crate) fn all_pieces(job: &Job, boxes: &[PoseBox]) -> ArrayVec<Piece, 100>
    requires boxes { AreSolidBoxes boxes.now }
    ensures value { result.items ≡ pieces_of job.now Eighth boxes.now }
    ensures valid { IsJob job.now }
{
    let _ = job.q();
    let mut pieces = ArrayVec::new();
    for body in boxes {
        put_pieces(job, Sweep::Eighth, body, &mut pieces);
    }
    pieces
}

/// Puts the pieces of a box by quarters, swept like this, where there are none yet.
pub(crate) fn begin_pieces(job: &Job, sweep: Sweep, body: &PoseBox, pieces: &mut ArrayVec<Piece, 4>)
    requires solid { IsSolidBox body.now }
    requires none { pieces.old.items ≡ [] }
    ensures value { pieces.new.items ≡ box_pieces job.now sweep body.now }
    ensures valid { IsJob job.now }
{
    let _ = job.q();
    put_pieces(job, sweep, body, pieces);
}

/// Puts the pieces of a box.
pub(crate) fn put_pieces<const N: usize>(
    job: &Job,
    sweep: Sweep,
    body: &PoseBox,
    pieces: &mut ArrayVec<Piece, N>,
)
    requires solid { IsSolidBox body.now }
    requires room { length pieces.old.items + 4 ≤ N }
    ensures value { pieces.new.items ≡ pieces.old.items ++ box_pieces job.now sweep body.now }
    ensures few { length pieces.new.items ≤ length pieces.old.items + 4 }
{
    let [first, second, third, fourth] = split(moving_rect(job, body));
    put(piece_with(job, sweep, body, Quarter::Q1, first), pieces);
    put(piece_with(job, sweep, body, Quarter::Q2, second), pieces);
    put(piece_with(job, sweep, body, Quarter::Q3, third), pieces);
    put(piece_with(job, sweep, body, Quarter::Q4, fourth), pieces);
}

/// Puts a piece, where there is one.
fn put<const N: usize>(piece: Option<Piece>, pieces: &mut ArrayVec<Piece, N>)
    requires room { length pieces.old.items + 1 ≤ N }
    ensures value { pieces.new.items ≡ pieces.old.items ++ option_to_list piece }
    ensures few { length pieces.new.items ≤ length pieces.old.items + 1 }
{
    if let Some(piece) = piece {
        pieces.push(piece);
    }
}

/// The piece of a box with this part in a quarter.
fn piece_with(
    job: &Job,
    sweep: Sweep,
    body: &PoseBox,
    quarter: Quarter,
    part: Option<Rect>,
) -> Option<Piece>
    requires in_range { IsInRange (moving_rect job.now body.now) }
    requires part { part ≡ piece_of quarter (moving_rect job.now body.now) }
    ensures { result ≡ piece_in job.now sweep body.now quarter }
{
    match part {
        Some(rect) => Some(Piece {
            body: body.id,
            half: body.half,
            x0: body.body.lo.x,
            x1: body.body.hi.x,
            quarter,
            is_high: lies_high(job, quarter, &rect),
            rect,
            sweep,
            depth: depth(job),
            cover: cover(rect, quarter, sweep),
        }),
        None => None,
    }
}

/// How often in a row a piece of the job may be halved.
fn depth(job: &Job) -> u8
    ensures { result ≡ job.now.setup.fine }
{
    job.setup().fine
}

/// Whether a piece lies in Q1, or in Q4 and no deeper than the sheet is thick.
fn lies_high(job: &Job, quarter: Quarter, rect: &Rect) -> bool
    ensures { result ≡ lies_high job.now.part.thickness quarter rect.now }
{
    match quarter {
        Quarter::Q1 => true,
        Quarter::Q4 => rect.z0 >= -job.part().thickness,
        Quarter::Q2 | Quarter::Q3 => false,
    }
}

/// What a box sweeps with, as its half is looked at.
fn moving_rect(job: &Job, body: &PoseBox) -> Rect
    requires solid { IsSolidBox body.now }
    ensures value { result ≡ moving_rect job.now body.now }
    ensures in_range { IsInRange result }
{
    widened(seen_from(body.half, &across(&body.body)), widening(job))
}

/// How far a core may fall short of its plate, or a corner reach past it.
pub(crate) fn widening(job: &Job) -> i64
    ensures value { result ≡ widening job.now }
    ensures low { pos 0 ≤ℤ result }
    ensures high { result ≤ℤ pos 100000 }
{
    (job.q() - job.part().thickness).abs()
}

/// The rectangle of a box across the bed.
pub(crate) fn across(body: &Box3) -> Rect
    ensures { result ≡ across body.now }
{
    Rect {
        y0: body.lo.y,
        y1: body.hi.y,
        z0: body.lo.z,
        z1: body.hi.z,
    }
}

/// The rectangle as its half is looked at: the front half mirrored.
pub(crate) fn seen_from(half: Half, r: &Rect) -> Rect
    requires low { unsigned_abs r.now.y0 ≤ 2 ^ 30 }
    requires high { unsigned_abs r.now.y1 ≤ 2 ^ 30 }
    ensures { result ≡ seen_from half r.now }
{
    match half {
        Half::Back => *r,
        Half::Front => mirrored(r),
    }
}

/// The rectangle with front and back in each other's place.
fn mirrored(r: &Rect) -> Rect
    requires low { unsigned_abs r.now.y0 ≤ 2 ^ 30 }
    requires high { unsigned_abs r.now.y1 ≤ 2 ^ 30 }
    ensures { result ≡ mirrored r.now }
{
    Rect {
        y0: -r.y1,
        y1: -r.y0,
        ..*r
    }
}
