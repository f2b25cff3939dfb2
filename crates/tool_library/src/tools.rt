//! The tools of a shop. Lengths are in micrometres, loads and limits in newtons per millimetre.
ghost use Rattle.std.specs.Prelude.{◌≡◌, ◌↔◌, pos, neg_ℤ, ◌≤ℤ◌, IsTrue};
ghost use Rattle.toml_fields.specs.Ranges.{IsWithin};
ghost use Rattle.tool_library.specs.Tools.{punch_data, die_data, IsHeight, IsLimit, IsFlange, IsOpening, HasPunchSizes, HasDieSizes, HasLists, IsPunch, IsDie};

use crate::bounds::{
    GREATEST_FLANGE, GREATEST_HEIGHT, GREATEST_LIMIT, LEAST_HEIGHT, MOST_BOXES, MOST_SECTIONS,
};
use crate::lists::{are_in_range, is_die_body, is_punch_body};
use crate::opening::is_opening;
use allowance::AllowTable;
use arrayvec::ArrayVec;
use brake_base::{Name, Rect};
use toml_fields::{is_name, is_within};

/// An upper tool.
#[derive(Debug, Drop)]
pub struct Punch {
    pub name: Name,
    pub height: i64,
    /// The size n of the wedge at the tip, whose points have |y| < z and y² + z² < 2n².
    pub nose: i64,
    /// The boxes of the profile, with z up from the tip.
    pub body: ArrayVec<Rect, MOST_BOXES>,
    /// The lengths that the shop has, and how often.
    pub sections: ArrayVec<(i64, u16), MOST_SECTIONS>,
    /// The greatest load, or 0 for no limit.
    pub limit: i64,
}

/// A lower tool.
#[derive(Debug, Drop)]
pub struct Die {
    pub name: Name,
    pub height: i64,
    /// The width of the opening.
    pub v: i64,
    /// The shortest flange that the die can bend.
    pub least_flange: i64,
    /// The boxes of the profile, with z upwards, negative below the die's top.
    pub body: ArrayVec<Rect, MOST_BOXES>,
    /// The lengths that the shop has, and how often.
    pub sections: ArrayVec<(i64, u16), MOST_SECTIONS>,
    /// The greatest load, or 0 for no limit.
    pub limit: i64,
}

/// The load that bending a material of this thickness over a die of this opening takes.
#[derive(Clone, Copy, Debug)]
pub struct LoadRow {
    pub material: Name,
    pub thickness: i64,
    pub v: i64,
    pub load: i64,
}

/// The tools of a shop, with its deductions and its loads.
#[derive(Debug, Drop)]
pub struct Tools {
    pub punches: Vec<Punch>,
    pub dies: Vec<Die>,
    pub allow: AllowTable,
    pub loads: Vec<LoadRow>,
}

/// Whether the height of a tool is in range.
fn is_height(n: i64) -> bool
    ensures { IsTrue result ↔ IsHeight n }
{
    is_within(n, LEAST_HEIGHT, GREATEST_HEIGHT)
}

/// Whether the limit of a tool's load is in range.
fn is_limit(n: i64) -> bool
    ensures { IsTrue result ↔ IsLimit n }
{
    is_within(n, 0, GREATEST_LIMIT)
}

impl Punch {
    /// Whether the punch meets the rules of the tools file: it has a name, its sizes are in range,
    /// its boxes lie between 0 and its height, and its sections are in range.
    pub fn is_valid(&self) -> bool
        ensures { IsTrue result ↔ IsPunch (punch_data self.now) }
    {
        is_name(self.name.as_str()) && self.has_sizes_in_range() && self.has_lists_in_range()
    }

    /// Whether the height, the wedge's size and the limit are in range.
    fn has_sizes_in_range(&self) -> bool
        ensures { IsTrue result ↔ HasPunchSizes (punch_data self.now) }
    {
        is_height(self.height) && self.has_nose_in_range() && is_limit(self.limit)
    }

    /// Whether the wedge's size is at most the height.
    fn has_nose_in_range(&self) -> bool
        ensures { IsTrue result ↔ IsWithin (pos 0) self.now.height self.now.nose }
    {
        is_within(self.nose, 0, self.height)
    }

    /// Whether the boxes lie between 0 and the height, and the sections are in range.
    fn has_lists_in_range(&self) -> bool
        ensures { IsTrue result
            ↔ HasLists (pos 0) self.now.height self.now.body.items self.now.sections.items }
    {
        is_punch_body(&self.body, self.height) && are_in_range(&self.sections)
    }

    /// A copy of the punch. It takes no memory.
    pub fn copy(&self) -> Punch
        ensures { punch_data result ≡ punch_data self.now }
    {
        let mut body = ArrayVec::new();
        let _ = body.try_extend_from_slice(self.body.as_slice());
        let mut sections = ArrayVec::new();
        let _ = sections.try_extend_from_slice(self.sections.as_slice());
        Punch {
            name: self.name,
            height: self.height,
            nose: self.nose,
            body,
            sections,
            limit: self.limit,
        }
    }
}

impl Die {
    /// Whether the die meets the rules of the tools file: it has a name, its sizes are in range,
    /// its opening is even, its boxes lie between minus its height and 0, and its sections are in
    /// range.
    pub fn is_valid(&self) -> bool
        ensures { IsTrue result ↔ IsDie (die_data self.now) }
    {
        is_name(self.name.as_str()) && self.has_sizes_in_range() && self.has_lists_in_range()
    }

    /// Whether the height, the opening, the shortest flange and the limit are in range.
    fn has_sizes_in_range(&self) -> bool
        ensures { IsTrue result ↔ HasDieSizes (die_data self.now) }
    {
        self.has_openings_in_range() && is_height(self.height) && is_limit(self.limit)
    }

    /// Whether the opening and the shortest flange are in range.
    fn has_openings_in_range(&self) -> bool
        ensures { IsTrue result ↔ (IsOpening self.now.v × IsFlange self.now.least_flange) }
    {
        is_opening(self.v) && is_within(self.least_flange, 0, GREATEST_FLANGE)
    }

    /// Whether the boxes lie between minus the height and 0, and the sections are in range.
    fn has_lists_in_range(&self) -> bool
        requires { LEAST_HEIGHT ≤ℤ self.now.height }
        ensures { IsTrue result
            ↔ HasLists (neg_ℤ self.now.height) (pos 0) self.now.body.items self.now.sections.items }
    {
        is_die_body(&self.body, self.height) && are_in_range(&self.sections)
    }

    /// A copy of the die. It takes no memory.
    pub fn copy(&self) -> Die
        ensures { die_data result ≡ die_data self.now }
    {
        let mut body = ArrayVec::new();
        let _ = body.try_extend_from_slice(self.body.as_slice());
        let mut sections = ArrayVec::new();
        let _ = sections.try_extend_from_slice(self.sections.as_slice());
        Die {
            name: self.name,
            height: self.height,
            v: self.v,
            least_flange: self.least_flange,
            body,
            sections,
            limit: self.limit,
        }
    }
}
