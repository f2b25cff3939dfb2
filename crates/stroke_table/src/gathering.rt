//! The boxes of a stroke are gathered: what each gives, and where it lies at stage 0.
ghost use Rattle.std.specs.Prelude.{◌≡◌, ◌+◌, ◌<◌, ◌≤◌, ◌^◌, [], ◌∷◌, ◌++◌, min, length, slice_index, slice_get, IfSome, IsSome, All};
ghost use Rattle.brake_base.specs.Turns.{map_of};
ghost use Rattle.fold_boxes.specs.Places.{ArePlaces};
ghost use Rattle.fold_boxes.specs.Pose.{IsGroup, IsNumberOfBox, face_of_box, lead_of, pose_data};
ghost use Rattle.fold_boxes.specs.Posing.{IsNearPoseBox};
ghost use Rattle.unfolder.specs.Blank.{face_numbers};
ghost use Rattle.job_setup.specs.Setup.{JobData, shape_of, bend_count, stage_count};
ghost use Rattle.job_setup.specs.ValidJob.{IsJob};
ghost use Rattle.job_setup.specs.Reasons.{pose_at};
ghost use Rattle.stage_lanes.specs.Lanes.{AreLanes};
ghost use Rattle.stroke_table.specs.declared.keys.StrokeKey.{StrokeKey};
ghost use Rattle.stroke_table.specs.BoxReasons.{AreAround};
ghost use Rattle.stroke_table.specs.Codes.{AreLeastCodes, HoldsAmong, stroke_box, stroke_place};
ghost use Rattle.stroke_table.specs.Records.{AreKept, IsBoxKey, IsFoundOf, IsFoundBox, parent_of};
ghost use Rattle.stroke_table.specs.Gathering.{IsBegun, IsGathered, IsPoseOf};

use crate::box_reasons::box_codes;
use crate::keys::{BoxKey, StrokeKey};
use crate::known::FoundBox;
use crate::records::{BoxRecord, StrokeRecords};
use arrayvec::ArrayVec;
use brake_base::{Mask, Place};
use fold_boxes::{Pose, PoseBox, PosedStroke, pose_box};
use job_setup::Job;
use stage_lanes::{FREE, StageCodes};
use sweep_check::Surroundings;

/// What is gathered of boxes of a stroke: the codes of the first reasons of the kinds Frame, Upper,
/// Nose and Lower that they give at each stage, and the part on the machine at stage 0 with these boxes
/// and with the places of the faces.
#[derive(Drop)]
pub struct StrokeBoxes {
    pub codes: StageCodes,
    pub pose: Pose,
}

impl StrokeBoxes {
    /// No box of a stroke.
    pub fn none(job: &Job, stroke: &StrokeKey) -> StrokeBoxes
        requires { IsGroup (shape_of job.now) stroke.now.mask stroke.now.of.group }
        ensures { IsBegun job.now stroke.now result }
    {
        job.recall_valid();
        let (x0, x1) = job.stage_range(0);
        StrokeBoxes {
            codes: StageCodes::all(FREE),
            pose: Pose {
                bend: lead_of(job, stroke),
                group: stroke.of.group,
                boxes: ArrayVec::new(),
                places: ArrayVec::new(),
                x0,
                x1,
            },
        }
    }

    /// One box more.
    fn take(&mut self, found: &FoundBox)
        requires { length self.old.pose.boxes.items < 25 }
        ensures codes { AreLanes self.new.codes.0 (λ stage.
            min (slice_index self.old.codes.0 stage) (slice_index found.now.codes.0 stage)) }
        ensures pose { (job : JobData) (stroke : StrokeKey)
            → IsPoseOf job stroke self.old.pose → IsPoseOf job stroke self.new.pose }
        ensures boxes { self.new.pose.boxes.items
            ≡ self.old.pose.boxes.items ++ found.now.body ∷ [] }
        ensures places { self.new.pose.places.items ≡ self.old.pose.places.items }
    {
        self.codes = self.codes.lesser(found.codes);
        self.pose.boxes.push(found.body);
    }

    /// One face's box more, and the face's place.
    fn take_face(&mut self, found: &FoundBox)
        requires boxes { length self.old.pose.boxes.items < 25 }
        requires places { length self.old.pose.places.items < 13 }
        ensures codes { AreLanes self.new.codes.0 (λ stage.
            min (slice_index self.old.codes.0 stage) (slice_index found.now.codes.0 stage)) }
        ensures pose { (job : JobData) (stroke : StrokeKey)
            → IsPoseOf job stroke self.old.pose → IsPoseOf job stroke self.new.pose }
        ensures boxes { self.new.pose.boxes.items
            ≡ self.old.pose.boxes.items ++ found.now.body ∷ [] }
        ensures places { self.new.pose.places.items
            ≡ self.old.pose.places.items ++ found.now.place ∷ [] }
    {
        self.codes = self.codes.lesser(found.codes);
        self.pose.boxes.push(found.body);
        self.pose.places.push(found.place);
    }
}

/// Gathers all boxes of a stroke.
pub(crate) fn gather_boxes(
    job: &Job,
    kept: &mut StrokeRecords,
    places: &[Place],
    stroke: &StrokeKey,
    gathered: &mut StrokeBoxes,
)
    requires kept { AreKept job.now kept.old }
    requires count { length places.now ≡ length job.now.part.faces }
    requires places { ArePlaces (shape_of job.now) stroke.now.mask places.now }
    requires mask { stroke.now.mask.0 < 2 ^ bend_count job.now }
    requires group { IsGroup (shape_of job.now) stroke.now.mask stroke.now.of.group }
    requires begun { IsBegun job.now stroke.now gathered.old }
    ensures kept { AreKept job.now kept.new }
    ensures codes { AreLeastCodes (stage_count job.now)
        (HoldsAmong job.now stroke.now.mask stroke.now.of 3 6) gathered.new.codes.0 }
    ensures pose { pose_data gathered.new.pose ≡ pose_at job.now stroke.now.mask
        stroke.now.of.group stroke.now.of.back 0 }
    ensures near { All IsNearPoseBox gathered.new.pose.boxes.items }
{
    let from = parent_of(job, stroke);
    gather_faces(job, kept, places, stroke, from, gathered);
    gather_corners(job, kept, places, stroke, from, gathered);
}

/// Gathers the boxes of the faces.
fn gather_faces(
    job: &Job,
    kept: &mut StrokeRecords,
    places: &[Place],
    stroke: &StrokeKey,
    from: u8,
    gathered: &mut StrokeBoxes,
)
    requires kept { AreKept job.now kept.old }
    requires count { length places.now ≡ length job.now.part.faces }
    requires places { ArePlaces (shape_of job.now) stroke.now.mask places.now }
    requires mask { stroke.now.mask.0 < 2 ^ bend_count job.now }
    requires group { IsGroup (shape_of job.now) stroke.now.mask stroke.now.of.group }
    requires from { from ≡ parent_of job.now stroke.now.of.group }
    requires begun { IsBegun job.now stroke.now gathered.old }
    ensures kept { AreKept job.now kept.new }
    ensures gathered { IsGathered job.now stroke.now 13 (face_numbers job.now.part.faces)
        gathered.new }
    ensures room { length gathered.new.pose.boxes.items ≤ 13 }
{
    for number in 0..job.bends() + 1 {
        let index = index_of_number(job, kept, places, stroke, from, number);
        gathered.take_face(&kept.box_at(index).found);
    }
}

/// Gathers the boxes of the corners of the folded bends behind those of the faces.
fn gather_corners(
    job: &Job,
    kept: &mut StrokeRecords,
    places: &[Place],
    stroke: &StrokeKey,
    from: u8,
    gathered: &mut StrokeBoxes,
)
    requires kept { AreKept job.now kept.old }
    requires count { length places.now ≡ length job.now.part.faces }
    requires places { ArePlaces (shape_of job.now) stroke.now.mask places.now }
    requires mask { stroke.now.mask.0 < 2 ^ bend_count job.now }
    requires group { IsGroup (shape_of job.now) stroke.now.mask stroke.now.of.group }
    requires from { from ≡ parent_of job.now stroke.now.of.group }
    requires gathered { IsGathered job.now stroke.now 13 (face_numbers job.now.part.faces)
        gathered.old }
    requires room { length gathered.old.pose.boxes.items ≤ 13 }
    ensures kept { AreKept job.now kept.new }
    ensures codes { AreLeastCodes (stage_count job.now)
        (HoldsAmong job.now stroke.now.mask stroke.now.of 3 6) gathered.new.codes.0 }
    ensures pose { pose_data gathered.new.pose ≡ pose_at job.now stroke.now.mask
        stroke.now.of.group stroke.now.of.back 0 }
    ensures near { All IsNearPoseBox gathered.new.pose.boxes.items }
{
    for bend in 1..job.bends() + 1 {
        if stroke.mask.contains(bend) {
            let index = index_of_number(job, kept, places, stroke, from, 12 + bend);
            gathered.take(&kept.box_at(index).found);
        }
    }
}

/// The index of the record of the box of a number, which is kept where it isn't yet.
fn index_of_number(
    job: &Job,
    kept: &mut StrokeRecords,
    places: &[Place],
    stroke: &StrokeKey,
    from: u8,
    number: u8,
) -> usize
    requires kept { AreKept job.now kept.old }
    requires count { length places.now ≡ length job.now.part.faces }
    requires places { ArePlaces (shape_of job.now) stroke.now.mask places.now }
    requires mask { stroke.now.mask.0 < 2 ^ bend_count job.now }
    requires group { IsGroup (shape_of job.now) stroke.now.mask stroke.now.of.group }
    requires from { from ≡ parent_of job.now stroke.now.of.group }
    requires number { IsNumberOfBox (shape_of job.now) stroke.now.mask number }
    ensures kept { AreKept job.now kept.new }
    ensures some { IsSome (slice_get kept.new.boxes.items result) }
    ensures found { IfSome (slice_get kept.new.boxes.items result)
        (λ one. IsFoundOf job.now stroke.now.mask stroke.now.of number one.found) }
{
    let key = kept.box_key(job, stroke, from, number);
    match kept.first_index(&key) {
        Some(index) => index,
        None => index_of_box(job, kept, places, stroke.mask, key),
    }
}

/// The face on which the bends of the group of a stroke stand.
fn parent_of(job: &Job, stroke: &StrokeKey) -> u8
    requires { IsGroup (shape_of job.now) stroke.now.mask stroke.now.of.group }
    ensures { result ≡ parent_of job.now stroke.now.of.group }
{
    match stroke.of.group.least() {
        Some(lead) => job.shape().parent(lead),
        None => unreachable!(),
    }
}

/// The least bend of the group of a stroke.
fn lead_of(job: &Job, stroke: &StrokeKey) -> u8
    requires { IsGroup (shape_of job.now) stroke.now.mask stroke.now.of.group }
    ensures { result ≡ lead_of (shape_of job.now) stroke.now.of.group }
{
    match stroke.of.group.least() {
        Some(lead) => lead,
        None => unreachable!(),
    }
}

/// The index of the record of a box, which is kept where it isn't yet. It is called seldom: were it
/// inlined, the key would be written to memory for each box.
#[inline(never)]
fn index_of_box(
    job: &Job,
    kept: &mut StrokeRecords,
    places: &[Place],
    mask: Mask,
    key: BoxKey,
) -> usize
    requires kept { AreKept job.now kept.old }
    requires count { length places.now ≡ length job.now.part.faces }
    requires places { ArePlaces (shape_of job.now) mask places.now }
    requires mask { mask.0 < 2 ^ bend_count job.now }
    requires box_ { IsBoxKey job.now mask key }
    ensures kept { AreKept job.now kept.new }
    ensures some { IsSome (slice_get kept.new.boxes.items result) }
    ensures found { IfSome (slice_get kept.new.boxes.items result)
        (λ one. IsFoundBox job.now mask key one.found) }
{
    match kept.search_box(&key) {
        Ok(index) => index,
        Err(place) => {
            let found = find_box(job, &kept.around, places, mask, &key);
            kept.keep_box(place, BoxRecord { key, found })
        }
    }
}

/// What there is to find of a box, by the part on the machine.
fn find_box(
    job: &Job,
    around: &[Surroundings],
    places: &[Place],
    mask: Mask,
    key: &BoxKey,
) -> FoundBox
    requires around { AreAround job.now around.now }
    requires count { length places.now ≡ length job.now.part.faces }
    requires places { ArePlaces (shape_of job.now) mask places.now }
    requires box_ { IsBoxKey job.now mask key.now }
    ensures found { IsFoundBox job.now mask key.now result }
    ensures valid { IsJob job.now }
{
    let (body, place) = stroke_box(job, places, mask, key);
    let codes = box_codes(job, around, &key.of, &body);
    FoundBox { codes, body, place }
}

/// The box of a stroke at stage 0, and where the face lies whose half it shares.
fn stroke_box(job: &Job, places: &[Place], mask: Mask, key: &BoxKey) -> (PoseBox, Place)
    requires count { length places.now ≡ length job.now.part.faces }
    requires places { ArePlaces (shape_of job.now) mask places.now }
    requires box_ { IsBoxKey job.now mask key.now }
    ensures body { result.0 ≡ stroke_box job.now mask key.now.of key.now.number 0 }
    ensures place { map_of result.1
        ≡ stroke_place job.now mask key.now.of (face_of_box key.now.number) }
    ensures near { IsNearPoseBox result.0 }
    ensures valid { IsJob job.now }
{
    job.recall_valid();
    let (x0, x1) = job.stage_range(0);
    let stroke = PosedStroke {
        mask,
        group: key.of.group,
        back: key.of.back,
        x0,
        x1,
    };
    pose_box(job.shape(), places, &stroke, key.number)
}
