//! What is known at each set of folded bends. Only the sets that were met use memory for it.
ghost use Rattle.std.specs.Prelude.{◌≡◌, ◌<◌, ◌≤◌, IfOk, Some, None, length, replicate, slice_get, slice_index_or, vec_capacity};
ghost use Rattle.brake_base.specs.Actions.{IsActionAmong};
ghost use Rattle.bb_search.specs.declared.known.KnownActions.{KnownActions};
ghost use Rattle.bb_search.specs.KnownActions.{KnowsNothing, IsRefusal, IsLearnt, IsChangedAt};
ghost use Rattle.bb_search.specs.KnownSets.{known_by, HavePlaces};

use crate::known::KnownActions;
use brake_base::{Action, Mask};
use std::alloc::{AllocError, Global};
use std::marker::Model;

/// What is known of the actions at each set of folded bends. A set is met when something is first
/// told of it, and uses memory from then on. Contracts see what is known by the set's number.
#[derive(Drop)]
pub struct KnownSets {
    /// For each set its place among those that were met, if it was.
    places: Vec<Option<u16>>,
    /// What is known at each set that was met.
    met: Vec<KnownActions>,
    /// What is known at all others.
    nothing: KnownActions,
}

impl Model for KnownSets {
    ghost use Rattle.std.specs.Prelude.{List, vec_capacity};
    ghost use Rattle.bb_search.specs.declared.known.KnownActions.{KnownActions};

    ghost Value = { List KnownActions };

    ghost use Rattle.bb_search.specs.KnownSets.{known_by, HavePlaces};

    ghost view = { λ s. known_by s.nothing s.met.items s.places.items };

    ghost invariant = { λ s. HavePlaces s.places.items s.met.items (vec_capacity s.met) };
}

/// So many sets, none of which was met.
fn no_places(alloc: Global, sets: usize) -> Result<Vec<Option<u16>>, AllocError>
    ensures { IfOk result (λ places. places.items ≡ replicate sets None) }
{
    vec![in alloc; None; sets]
}

/// The place of a set. Where it has none, it gets the next, and nothing is known there.
fn meet(
    places: &mut Vec<Option<u16>>,
    met: &mut Vec<KnownActions>,
    nothing: &KnownActions,
    set: usize,
) -> usize
    requires set { set < length places.old.items }
    requires places { HavePlaces places.old.items met.old.items (vec_capacity met.old) }
    ensures places { HavePlaces places.new.items met.new.items (vec_capacity met.new) }
    ensures place { slice_index_or places.new.items set None ≡ Some result }
    ensures same { known_by nothing.now met.new.items places.new.items
        ≡ known_by nothing.now met.old.items places.old.items }
{
    match places[set] {
        Some(place) => usize::from(place),
        None => {
            let place = met.len();
            places[set] = Some(place as u16);
            met.push_reserved(*nothing);
            place
        }
    }
}

impl KnownSets {
    /// So many sets, at each of which nothing is known. It takes all memory that it will use.
    pub fn open(alloc: Global, sets: usize) -> Result<KnownSets, AllocError>
        requires few { sets ≤ 4096 }
        ensures { IfOk result (λ known. (at : KnownActions) × KnowsNothing at
            × (known ≡ replicate sets at)) }
    {
        let places = no_places(alloc, sets)?;
        let met = Vec::with_capacity(alloc, sets)?;
        Ok(KnownSets {
            places,
            met,
            nothing: KnownActions::none(),
        })
    }

    /// What is known at a set.
    pub fn at(&self, mask: Mask) -> &KnownActions
        requires { mask.0 < length self.now }
        ensures { slice_get self.now mask.0 ≡ Some result.now }
    {
        match self.places[usize::from(mask.0)] {
            Some(place) => &self.met[usize::from(place)],
            None => &self.nothing,
        }
    }

    /// A reason refuses an action at a set.
    pub fn refuse(&mut self, mask: Mask, action: Action)
        requires mask { mask.0 < length self.old }
        requires action { IsActionAmong 12 8 action }
        ensures { IsChangedAt (IsRefusal action) mask.0 self.old self.new }
    {
        let set = usize::from(mask.0);
        let place = meet(&mut self.places, &mut self.met, &self.nothing, set);
        let known = &mut self.met[place];
        known.refuse(action);
    }

    /// The slack of an action at a set is known.
    pub fn learn(&mut self, mask: Mask, action: Action, slack: u32)
        requires mask { mask.0 < length self.old }
        requires action { IsActionAmong 12 8 action }
        ensures { IsChangedAt (IsLearnt action slack) mask.0 self.old self.new }
    {
        let set = usize::from(mask.0);
        let place = meet(&mut self.places, &mut self.met, &self.nothing, set);
        let known = &mut self.met[place];
        known.learn(action, slack);
    }
}
