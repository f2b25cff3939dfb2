//! What is kept of a job for its strokes.
ghost use Rattle.std.specs.Prelude.{◌≡◌, ◌↔◌, ◌*◌, ◌<◌, ◌≤◌, ◌^◌, length, replicate, slice_index_or, slice_get, Some, None, IfOk, IfErr, IfSome, IsSome, IsTrue, All, vec_capacity};
ghost use Rattle.fold_boxes.specs.Pose.{IsGroup, IsNumberOfBox};
ghost use Rattle.job_setup.specs.Setup.{JobData, shape_of, bend_count};
ghost use Rattle.stroke_table.specs.BoxReasons.{AreAround};
ghost use Rattle.stroke_table.specs.Records.{IsBoxRecord, IsGroupRecord, IsBoxKey, AreKept, HasRecordAt, parent_of};

use crate::deciding::deciding_bends;
use crate::keys::{BoxKey, GroupKey, StrokeKey};
use crate::known::FoundBox;
use brake_base::{Back, Mask};
use job_setup::Job;
use stage_lanes::StageCodes;
use std::alloc::{AllocError, Global};
use sweep_check::Surroundings;

/// How many records of boxes are kept at most, and at how many places their indices stand.
const BOX_RECORDS: usize = 16_384;

/// At how many places in a row the index of a box's record may stand.
const BOX_PLACES: usize = 8;

/// An index at which no record of a box stands.
const NO_INDEX: u16 = 65_535;

/// What is found of a box.
#[derive(Clone, Copy)]
pub struct BoxRecord {
    pub key: BoxKey,
    pub found: FoundBox,
}

/// What the strokes of a group have at each stage, wherever the boxes lie: the code of the first of
/// Cover and Rest, and that of Load.
#[derive(Clone, Copy)]
pub struct GroupRecord {
    pub key: GroupKey,
    pub lines: StageCodes,
    pub load: StageCodes,
}

/// What is kept of a job for its strokes: what stands around the part at each stage, which bends
/// decide where a box lies, and records of groups and of boxes. A group's record stands at a place
/// that follows from its key. The records of boxes stand as they came: the index of one stands at a
/// place that follows from its key, or shortly behind it, until another takes it.
#[derive(Drop)]
pub struct StrokeRecords {
    pub around: Vec<Surroundings>,
    pub deciding: Vec<Mask>,
    pub groups: Vec<Option<GroupRecord>>,
    pub boxes: Vec<BoxRecord>,
    pub indices: Vec<u16>,
}

impl StrokeRecords {
    /// What stands around the part of a job, and no record. It takes all memory that will be used;
    /// that for the records of boxes is touched only as they come.
    pub(crate) fn open(alloc: Global, job: &Job) -> Result<StrokeRecords, AllocError>
        ensures { IfOk result (λ kept. AreKept job.now kept) }
    {
        Ok(StrokeRecords {
            around: all_surroundings(alloc, job)?,
            deciding: deciding_bends(alloc, job)?,
            groups: no_groups(alloc, group_places(job))?,
            boxes: Vec::with_capacity(alloc, BOX_RECORDS)?,
            indices: no_indices(alloc, BOX_RECORDS)?,
        })
    }

    /// What is kept of a group, where that is.
    pub(crate) fn known_group(&self, key: &GroupKey) -> Option<GroupRecord>
        requires { 0 < length self.now.groups.items }
        ensures { IfSome result (λ known. (known.key ≡ key.now)
            × ((job : JobData) → AreKept job self.now → IsGroupRecord job known)) }
    {
        match group_at(&self.groups, group_place(key, self.groups.len())) {
            Some(known) => {
                if is_same_group(&known.key, key) {
                    Some(known)
                } else {
                    None
                }
            }
            None => None,
        }
    }

    /// Keeps what is true of a group.
    pub(crate) fn keep_group(&mut self, found: GroupRecord)
        requires { 0 < length self.old.groups.items }
        ensures { (job : JobData) → AreKept job self.old → IsGroupRecord job found
            → AreKept job self.new }
    {
        let place = group_place(&found.key, self.groups.len());
        self.groups[place] = Some(found);
    }

    /// The key of a box in a stroke whose group stands on this face.
    pub(crate) fn box_key(&self, job: &Job, stroke: &StrokeKey, from: u8, number: u8) -> BoxKey
        requires kept { AreKept job.now self.now }
        requires group { IsGroup (shape_of job.now) stroke.now.mask stroke.now.of.group }
        requires from { from ≡ parent_of job.now stroke.now.of.group }
        requires number { IsNumberOfBox (shape_of job.now) stroke.now.mask number }
        ensures of { result.of ≡ stroke.now.of }
        ensures number { result.number ≡ number }
        ensures box_ { IsBoxKey job.now stroke.now.mask result }
    {
        job.recall_valid();
        let place = 25 * usize::from(from) + usize::from(number);
        let deciding = deciding_at(&self.deciding, place);
        BoxKey {
            of: stroke.of,
            number,
            folded: stroke.mask.intersection(deciding),
        }
    }

    /// The index of the record of a box, where the first place at which it may stand has it.
    pub(crate) fn first_index(&self, key: &BoxKey) -> Option<usize>
        requires { length self.now.indices.items ≡ 16384 }
        ensures { IfSome result (λ index. HasRecordAt self.now.boxes.items key.now index) }
    {
        let index = usize::from(self.indices[own_place(key)]);
        if self.is_record_of(index, key) {
            Some(index)
        } else {
            None
        }
    }

    /// Whether the record at an index is that of a box.
    fn is_record_of(&self, index: usize, key: &BoxKey) -> bool
        ensures { IsTrue result → HasRecordAt self.now.boxes.items key.now index }
    {
        match self.boxes.get(index) {
            Some(known) => is_same_box(&known.key, key),
            None => false,
        }
    }

    /// The index of the record of a box; as an error the place at which its index is to stand.
    pub(crate) fn search_box(&self, key: &BoxKey) -> Result<usize, usize>
        requires { length self.now.indices.items ≡ 16384 }
        ensures found { IfOk result (λ index. HasRecordAt self.now.boxes.items key.now index) }
        ensures free { IfErr result (λ place. place < 16384) }
    {
        let own = own_place(key);
        for step in 0..BOX_PLACES {
            let place = (own + step) % BOX_RECORDS;
            let index = usize::from(self.indices[place]);
            match self.boxes.get(index) {
                Some(known) => {
                    if is_same_box(&known.key, key) {
                        return Ok(index);
                    }
                }
                None => return Err(place),
            }
        }
        Err(own)
    }

    /// The record of a box at an index.
    pub(crate) fn box_at(&self, index: usize) -> &BoxRecord
        requires { IsSome (slice_get self.now.boxes.items index) }
        ensures { slice_get self.now.boxes.items index ≡ Some result.now }
    {
        match self.boxes.get(index) {
            Some(known) => known,
            None => unreachable!(),
        }
    }

    /// Keeps what is true of a box, with its index at this place. The result is the index.
    pub(crate) fn keep_box(&mut self, place: usize, found: BoxRecord) -> usize
        requires place { place < 16384 }
        requires count { length self.old.indices.items ≡ 16384 }
        requires room { 16384 ≤ vec_capacity self.old.boxes }
        ensures kept { (job : JobData) → AreKept job self.old → IsBoxRecord job found
            → AreKept job self.new }
        ensures here { slice_get self.new.boxes.items result ≡ Some found }
    {
        let free = free_index(self.boxes.len(), self.indices[place], place);
        self.indices[place] = free;
        let index = usize::from(free);
        put_box(&mut self.boxes, index, found);
        index
    }
}

/// The index for a record where there are so many others, and this index stands at its place: that
/// of the record that it takes the place of, else the next, or where there is none that of its place.
fn free_index(count: usize, standing: u16, place: usize) -> u16
    requires { place < 16384 }
    ensures within { result ≤ count }
    ensures room { result ≡ count → result < 16384 }
{
    if usize::from(standing) < count {
        standing
    } else if count < BOX_RECORDS {
        count as u16
    } else {
        place as u16
    }
}

/// Puts a record in the place of that at an index, or behind all.
fn put_box(boxes: &mut Vec<BoxRecord>, index: usize, found: BoxRecord)
    requires within { index ≤ length boxes.old.items }
    requires room { index ≡ length boxes.old.items → index < vec_capacity boxes.old }
    ensures here { slice_get boxes.new.items index ≡ Some found }
    ensures each { (job : JobData) → All (IsBoxRecord job) boxes.old.items
        → IsBoxRecord job found → All (IsBoxRecord job) boxes.new.items }
    ensures same_memory { vec_capacity boxes.new ≡ vec_capacity boxes.old }
{
    if index < boxes.len() {
        boxes[index] = found;
    } else {
        boxes.push_reserved(found);
    }
}

/// What stands around the part at each stage.
fn all_surroundings(alloc: Global, job: &Job) -> Result<Vec<Surroundings>, AllocError>
    ensures { IfOk result (λ around. AreAround job.now around.items) }
{
    let mut around = Vec::with_capacity(alloc, usize::from(job.stages()))?;
    for stage in 0..job.stages() {
        around.push_reserved(Surroundings::at(job, stage));
    }
    Ok(around)
}

/// How many places there are for records of groups: one for each set of the job's bends and each side.
fn group_places(job: &Job) -> usize
    ensures { result ≡ 2 * 2 ^ bend_count job.now }
{
    2 << job.bends()
}

/// So many places at which no record of a group stands.
fn no_groups(alloc: Global, places: usize) -> Result<Vec<Option<GroupRecord>>, AllocError>
    ensures { IfOk result (λ records. records.items ≡ replicate places None) }
{
    let mut records = Vec::with_capacity(alloc, places)?;
    for _ in 0..places {
        records.push_reserved(None);
    }
    Ok(records)
}

/// So many places at which no index of a record stands.
fn no_indices(alloc: Global, places: usize) -> Result<Vec<u16>, AllocError>
    ensures { IfOk result (λ indices. indices.items ≡ replicate places 65535) }
{
    let mut indices = Vec::with_capacity(alloc, places)?;
    for _ in 0..places {
        indices.push_reserved(NO_INDEX);
    }
    Ok(indices)
}

/// The set of deciding bends at a place.
fn deciding_at(deciding: &[Mask], place: usize) -> Mask
    requires { place < length deciding.now }
    ensures { result ≡ slice_index_or deciding.now place (record { 0 = 0 }) }
{
    deciding[place]
}

/// The record of a group at a place.
fn group_at(records: &[Option<GroupRecord>], place: usize) -> Option<GroupRecord>
    requires { place < length records.now }
    ensures { result ≡ slice_index_or records.now place None }
{
    records[place]
}

/// Whether both keys are one.
fn is_same_group(first: &GroupKey, second: &GroupKey) -> bool
    ensures { IsTrue result ↔ (first.now ≡ second.now) }
{
    *first == *second
}

/// Whether both keys are one.
fn is_same_box(first: &BoxKey, second: &BoxKey) -> bool
    ensures { IsTrue result ↔ (first.now ≡ second.now) }
{
    *first == *second
}

/// The place of a group's record among so many.
fn group_place(key: &GroupKey, places: usize) -> usize
    requires { 0 < places }
    ensures { result < places }
{
    (2 * usize::from(key.group.0) + side(key)) % places
}

/// The first place at which the index of a box's record may stand: such that boxes that differ seldom
/// share one.
fn own_place(key: &BoxKey) -> usize
    ensures { result < 16384 }
{
    let strokes = 2 * u64::from(key.of.group.0) + side(&key.of) as u64;
    let mixed = (strokes << 32) ^ (u64::from(key.number) << 16) ^ u64::from(key.folded.0);
    (mixed.wrapping_mul(0x9E37_79B9_7F4A_7C15) >> 50) as usize % BOX_RECORDS
}

/// 0 where the side of the parent is at the back, 1 where that of the child is.
fn side(key: &GroupKey) -> usize
    ensures { result ≤ 1 }
{
    match key.back {
        Back::Parent => 0,
        Back::Child => 1,
    }
}
