//! What belongs to a set of folded bends, and how it is found.
ghost use Rattle.std.specs.Prelude.{◌≡◌, ◌*◌, ◌<◌, ◌≤◌, slice_index_or};
ghost use Rattle.set_facts.specs.Facts.{AreLeads, HasNoneBeyond, AreBounds, AreAttitudes, IsFacts, side_place};

use brake_base::{Back, Mask, Turn};
use fold_boxes::{attitude_from, place};
use handling_cost::{bound_with, farthest, is_lead, leads_left};
use job_setup::Job;

/// What belongs to a set of folded bends.
#[derive(Clone, Copy, Debug)]
pub struct SetFacts {
    /// The leads of the strokes that may come next, and no other bend.
    pub leads: Mask,
    /// At each stage the bound of the keys with this set, in tenths of a second.
    pub bounds: [u32; 6],
    /// How the part is held in the strokes of each bend, with the parent and with the child at the
    /// back.
    pub attitudes: [Turn; 24],
}

impl SetFacts {
    /// What belongs to the set of the folded bends of a job.
    pub(crate) fn of(job: &Job, mask: Mask) -> SetFacts
        ensures { IsFacts job.now mask result }
    {
        SetFacts {
            leads: leads_of(job, mask),
            bounds: bounds_of(job, mask),
            attitudes: attitudes_of(job, mask),
        }
    }

    /// The bound of the keys with this set at a stage, in tenths of a second.
    pub fn bound(&self, stage: u8) -> u32
        requires { stage < 6 }
        ensures { result ≡ slice_index_or self.now.bounds stage 0 }
    {
        self.bounds[usize::from(stage)]
    }

    /// How the part is held in the strokes of a bend with this side at the back.
    pub fn attitude(&self, bend: u8, back: Back) -> Turn
        requires first { 1 ≤ bend }
        requires last { bend ≤ 12 }
        ensures { result ≡ slice_index_or self.now.attitudes (side_place bend back) 0 }
    {
        self.attitudes[side_place(bend, back)]
    }
}

/// Where what belongs to a bend and a side stands.
pub(crate) fn side_place(bend: u8, back: Back) -> usize
    requires { 1 ≤ bend }
    ensures value { result ≡ side_place bend back }
    ensures below { result < 2 * bend }
{
    let side = match back {
        Back::Parent => 0,
        Back::Child => 1,
    };
    usize::from(bend - 1) * 2 + side
}

/// The leads where the bends of the mask are folded.
fn leads_of(job: &Job, mask: Mask) -> Mask
    ensures leads { AreLeads job.now mask result }
    ensures only { HasNoneBeyond job.now result }
{
    let shape = job.shape();
    let mut leads = Mask::empty();
    for bend in 1..shape.faces() {
        if is_lead(job, mask, bend) {
            leads = leads.with(bend);
        }
    }
    leads
}

/// The bound of each key where the bends of the mask are folded, by its stage.
fn bounds_of(job: &Job, mask: Mask) -> [u32; 6]
    ensures { AreBounds job.now mask result }
{
    let leads = leads_left(job, mask);
    let mut bounds = [0; 6];
    for stage in 0..job.stages() {
        let way = farthest(job, mask, stage);
        bounds[usize::from(stage)] = bound_with(job, mask, leads, way) as u32;
    }
    bounds
}

/// How the part is held in the strokes of each bend where the bends of the mask are folded.
pub(crate) fn attitudes_of(job: &Job, mask: Mask) -> [Turn; 24]
    ensures { AreAttitudes job.now mask result }
{
    let shape = job.shape();
    let places = place(shape, mask);
    let mut attitudes = [Turn::from_number(0); 24];
    for bend in 1..shape.faces() {
        let at = usize::from(bend - 1) * 2;
        attitudes[at] = attitude_from(shape, places.as_slice(), mask, bend, Back::Parent);
        attitudes[at + 1] = attitude_from(shape, places.as_slice(), mask, bend, Back::Child);
    }
    attitudes
}
