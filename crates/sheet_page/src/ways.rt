//! How a bend is tried: at which stations, with which side at the back.
ghost use Rattle.std.specs.Prelude.{◌≡◌, ℕ, ◌+◌, ◌<◌, ◌≤◌, ◌++◌, ◌||◌, ◌&&◌, false, length, slice_index_or, OnOk};
ghost use Rattle.brake_base.specs.declared.stroke.Back.{Back};
ghost use Rattle.brake_base.specs.declared.stroke.Back.TheVariants.{Parent, Child};
ghost use Rattle.sheet_page.specs.Ways.{is_way, stations_with, has_mark, marked, is_none, station_word, station_words, side_words, between_sides, ways_words};

use arrayvec::ArrayVec;
use brake_base::{Action, Back};
use brake_text::put_word;
use sheet_figures::put_number_list;
use std::alloc::AllocError;

const EITHER_SIDE: &[u8] = b"either side at the back";

const PARENT_SIDE: &[u8] = b"parent at the back";

const FLANGE_SIDE: &[u8] = b"flange at the back";

const EVERY_STATION: &[u8] = b", every station";

/// The stations at which a bend is tried with the parent at the back, and with the flange there.
#[derive(Clone, Copy, Default)]
pub struct Ways {
    pub(crate) parent: [bool; 6],
    pub(crate) flange: [bool; 6],
}

/// The stations of a list.
fn stations_of(list: &[bool; 6]) -> ArrayVec<u8, 16>
    ensures value { result.items ≡ stations_with (λ station. slice_index_or list.now station false) }
    ensures few { length result.items ≤ 6 }
{
    let mut stations = ArrayVec::new();
    for station in 0..6 {
        if list[usize::from(station)] {
            stations.push(station);
        }
    }
    stations
}

/// The word before one station or before several.
#[tactic(auto, unfolding(crate::specs::Ways::station_word))]
fn station_word(count: usize) -> &'static [u8]
    ensures { result.now ≡ station_word count }
{
    if count == 1 {
        b", station "
    } else {
        b", stations "
    }
}

/// The stations in words, of so many.
#[tactic(auto, using(sheet_paper::proofs::Texts::pieces), unfolding(crate::specs::Ways::station_words))]
fn put_stations(out: &mut Vec<u8>, stations: &[u8], count: usize) -> Result<(), AllocError>
    ensures { OnOk result (out.new.items ≡ out.old.items ++ station_words stations.now count) }
{
    if count > 1 && stations.len() == count {
        return put_word(out, EVERY_STATION);
    }
    put_word(out, station_word(stations.len()))?;
    put_number_list(out, stations)
}

/// A side at the back, and its stations, of so many, where it has some.
#[tactic(auto, using(sheet_paper::proofs::Texts::pieces), unfolding(crate::specs::Ways::side_words))]
fn put_side(
    out: &mut Vec<u8>,
    side: &'static [u8],
    stations: &[u8],
    count: usize,
) -> Result<(), AllocError>
    ensures { OnOk result (out.new.items ≡ out.old.items ++ side_words side.now stations.now count) }
{
    if stations.is_empty() {
        return Ok(());
    }
    put_word(out, side)?;
    put_stations(out, stations, count)
}

/// What stands between the two sides.
#[tactic(auto, using(sheet_paper::proofs::Texts::pieces), unfolding(crate::specs::Ways::between_sides))]
fn put_between(out: &mut Vec<u8>, parent: &[u8], flange: &[u8]) -> Result<(), AllocError>
    ensures { OnOk result (out.new.items ≡ out.old.items ++ between_sides parent.now flange.now) }
{
    if parent.is_empty() || flange.is_empty() {
        return Ok(());
    }
    put_word(out, b"; ")
}

/// The stations of both sides in words, where there are so many stations.
#[tactic(auto, using(sheet_paper::proofs::Texts::pieces), unfolding(crate::specs::Ways::ways_words))]
fn put_sides(
    out: &mut Vec<u8>,
    parent: &[u8],
    flange: &[u8],
    count: usize,
) -> Result<(), AllocError>
    ensures { OnOk result (out.new.items
        ≡ out.old.items ++ ways_words parent.now flange.now count) }
{
    if parent == flange {
        return put_side(out, EITHER_SIDE, parent, count);
    }
    put_side(out, PARENT_SIDE, parent, count)?;
    put_between(out, parent, flange)?;
    put_side(out, FLANGE_SIDE, flange, count)
}

impl Ways {
    /// No way.
    pub fn none() -> Ways
        ensures { (back : Back) (station : ℕ) → has_mark result back station ≡ false }
    {
        Ways {
            parent: [false; 6],
            flange: [false; 6],
        }
    }

    /// Adds the way of an action.
    pub fn add(&mut self, action: Action)
        requires { action.stage < 6 }
        ensures { (back : Back) (station : ℕ) → has_mark self.new back station
            ≡ (has_mark self.old back station || is_way action back station) }
    {
        let place = usize::from(action.stage);
        match action.back {
            Back::Parent => self.parent[place] = true,
            Back::Child => self.flange[place] = true,
        }
    }

    /// How many there are.
    pub fn count(&self) -> usize
        ensures value { result ≡ length (marked self.now Parent) + length (marked self.now Child) }
        ensures few { result ≤ 12 }
    {
        stations_of(&self.parent).len() + stations_of(&self.flange).len()
    }

    /// The ways in words, where there are so many stations.
    pub fn put_words(&self, out: &mut Vec<u8>, count: usize) -> Result<(), AllocError>
        ensures { OnOk result (out.new.items
            ≡ out.old.items ++ ways_words (marked self.now Parent) (marked self.now Child) count) }
    {
        let parent = stations_of(&self.parent);
        let flange = stations_of(&self.flange);
        put_sides(out, parent.as_slice(), flange.as_slice(), count)
    }
}
