//! The part as it stands, with the groups that were folded.
ghost use Rattle.std.specs.Prelude.{◌≡◌, ◌≢◌, ℕ, ◌+◌, ◌-◌, ◌<◌, ◌≤◌, ◌<ℤ◌, Bool, ◌&&◌, not, [], ◌∷◌, ◌++◌, length, take, All};
ghost use Rattle.brake_base.specs.Masks.{has, union};
ghost use Rattle.unfolder.specs.Near.{IsWithin as IsNear};
ghost use Rattle.fold_boxes.specs.Places.{ArePlaces};
ghost use Rattle.fold_boxes.specs.Pose.{IsGroup, pose_of, pose_data};
ghost use Rattle.fold_boxes.specs.Posing.{IsNearPoseBox};
ghost use Rattle.job_setup.specs.Setup.{shape_of};
ghost use Rattle.bend_state.specs.State.{no_bends, AreKept, IsKept, IsWithout, last_fold, with_fold};

use crate::moves::{move_faces, restore_faces};
use arrayvec::ArrayVec;
use brake_base::{Back, Mask, Place};
use fold_boxes::{Pose, Shape, place, pose_from};
use job_setup::Job;
use std::marker::Model;
use undo_region::Region;

/// A group that was folded, the bends that were folded before it, and how long the trail was then.
#[derive(Clone, Copy, Debug, Default, PartialEq, Eq)]
pub struct Fold {
    pub before: Mask,
    pub group: Mask,
    pub mark: usize,
}

/// The part as it stands: the folded bends, where its faces lie, and the groups that were folded, in
/// order. Contracts see the shape, the bends and the folds; the places are those of the bends.
#[derive(Drop)]
pub struct BendState {
    shape: Shape,
    mask: Mask,
    places: ArrayVec<Place, 13>,
    folds: ArrayVec<Fold, 12>,
}

impl Model for BendState {
    ghost use Rattle.bend_state.specs.State.{StateData, IsState};

    ghost Value = { StateData };

    ghost view = { λ s. record { shape = s.shape; mask = s.mask; folds = s.folds.items } };

    ghost invariant = { λ s. IsState (record { shape = s.shape; mask = s.mask; folds = s.folds.items }) s.places.items };
}

impl BendState {
    /// The flat part of a job.
    pub fn start(job: &Job) -> BendState
        ensures shape { result.shape ≡ shape_of job.now }
        ensures mask { result.mask ≡ no_bends }
        ensures folds { result.folds ≡ [] }
    {
        let shape = job.shape().copy();
        let mask = Mask::empty();
        let places = place(&shape, mask);
        BendState {
            shape,
            mask,
            places,
            folds: ArrayVec::new(),
        }
    }

    /// The folded bends.
    pub fn mask(&self) -> Mask
        ensures { result ≡ self.now.mask }
    {
        self.mask
    }

    /// Where each face lies when these bends are folded.
    pub fn places(&self) -> &[Place]
        ensures count { length result.now ≡ length self.now.shape.part.faces }
        ensures each { ArePlaces self.now.shape self.now.mask result.now }
    {
        self.places.as_slice()
    }

    /// Folds a group. The trail takes the old places of the faces beyond any of its bends.
    pub fn fold(&mut self, trail: &mut Region<Place>, group: Mask)
        requires group { IsGroup self.old.shape self.old.mask group }
        requires room { 13 ≤ trail.old.room }
        ensures shape { self.new.shape ≡ self.old.shape }
        ensures mask { self.new.mask ≡ union self.old.mask group }
        ensures folds { self.new.folds ≡ with_fold self.old group (length trail.old.items) }
        ensures first { take (length trail.old.items) trail.new.items ≡ trail.old.items }
        ensures kept { AreKept self.old.shape self.old.mask group
            (length trail.old.items) trail.new.items }
        ensures left { trail.new.room + length trail.new.items
            ≡ trail.old.room + length trail.old.items }
    {
        let mark = trail.mark();
        let before = self.mask;
        move_faces(
            &self.shape,
            before,
            group,
            self.places.as_mut_slice(),
            trail,
        );
        self.mask = before.union(group);
        self.folds.push(Fold {
            before,
            group,
            mark,
        });
    }

    /// Takes the last folded group back. The trail gives the places back that it took then.
    pub fn undo(&mut self, trail: &mut Region<Place>)
        requires some { self.old.folds ≢ [] }
        requires kept { IsKept self.old.shape (last_fold self.old.folds) trail.old.items }
        ensures shape { self.new.shape ≡ self.old.shape }
        ensures mask { self.new.mask ≡ (last_fold self.old.folds).before }
        ensures without { IsWithout self.old.mask (last_fold self.old.folds).group self.new.mask }
        ensures folds { self.old.folds ≡ self.new.folds ++ last_fold self.old.folds ∷ [] }
        ensures trail { trail.new.items ≡ take (last_fold self.old.folds).mark trail.old.items }
        ensures left { trail.new.room + length trail.new.items
            ≡ trail.old.room + length trail.old.items }
    {
        if let Some(fold) = self.folds.pop() {
            restore_faces(&self.shape, &fold, self.places.as_mut_slice(), trail);
            trail.rewind(fold.mark);
            self.mask = fold.before;
        }
    }

    /// The part on the machine before the group is bent, with its span centred on the range from `x0`
    /// to `x1`.
    pub fn pose(&self, group: Mask, back: Back, x0: i64, x1: i64) -> Pose
        requires group { IsGroup self.now.shape self.now.mask group }
        requires range { x0 <ℤ x1 }
        requires from { IsNear 1000000000 x0 }
        requires to { IsNear 1000000000 x1 }
        ensures value { pose_data result ≡ pose_of self.now.shape self.now.mask group back x0 x1 }
        ensures near { All IsNearPoseBox result.boxes.items }
    {
        pose_from(
            &self.shape,
            self.places.as_slice(),
            self.mask,
            group,
            back,
            x0,
            x1,
        )
    }
}
