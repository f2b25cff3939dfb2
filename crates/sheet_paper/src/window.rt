//! The window through which a picture shows.

ghost use Rattle.std.specs.Prelude.{◌≡◌, ◌^◌, ◌<◌, ◌≤◌, pos, neg_ℤ, ◌+ℤ◌, ◌-ℤ◌, ◌*ℤ◌, ◌≤ℤ◌, unsigned_abs};
ghost use Rattle.svg_text.specs.Forms.{IsHole, hole_text};
ghost use Rattle.sheet_paper.specs.Scales.{IsLeastScale, HasRoom};
ghost use Rattle.sheet_paper.specs.Windows.{IsPaper, IsDrawable, IsScale, IsWindow, Shows, joined, point_area, framed, across, upright, window_around, right_of, top_of, begin_around};
ghost use Rattle.sheet_paper.specs.FigureLines.{length_text, width_text};

use crate::scale::least_scale;
use svg_text::Hole;

/// A rectangle of a picture, in micrometres: x to the right, y upwards.
#[derive(Clone, Copy, Default)]
pub struct Area {
    pub x0: i64,
    pub x1: i64,
    pub y0: i64,
    pub y1: i64,
}

impl Area {
    /// The least area that holds both.
    pub fn joined(&self, other: &Area) -> Area
        ensures { result ≡ joined self.now other.now }
    {
        Area {
            x0: self.x0.min(other.x0),
            x1: self.x1.max(other.x1),
            y0: self.y0.min(other.y0),
            y1: self.y1.max(other.y1),
        }
    }

    /// The area of one point.
    fn of_point(x: i64, y: i64) -> Area
        ensures { result ≡ point_area x y }
    {
        Area {
            x0: x,
            x1: x,
            y0: y,
            y1: y,
        }
    }

    /// The least area that holds this and a point.
    pub fn with(&self, x: i64, y: i64) -> Area
        ensures { result ≡ joined self.now (point_area x y) }
    {
        self.joined(&Area::of_point(x, y))
    }
}

/// The paper of a figure and its margins, in millimetres.
#[derive(Clone, Copy)]
pub struct Paper {
    pub width: i64,
    pub height: i64,
    pub left: i64,
    pub right: i64,
    pub top: i64,
    pub bottom: i64,
}

impl Paper {
    /// The paper with one margin on all sides.
    pub fn framed(width: i64, height: i64, margin: i64) -> Paper
        ensures { result ≡ framed width height margin }
    {
        Paper {
            width,
            height,
            left: margin,
            right: margin,
            top: margin,
            bottom: margin,
        }
    }

    /// How wide the window is, in tenths of a millimetre.
    pub fn across(&self) -> i64
        requires { IsPaper self.now }
        ensures value { result ≡ across self.now }
        ensures near { unsigned_abs result ≤ 2 ^ 15 }
    {
        10 * (self.width - self.left - self.right)
    }

    /// How high the window is, in tenths of a millimetre.
    pub fn upright(&self) -> i64
        requires { IsPaper self.now }
        ensures value { result ≡ upright self.now }
        ensures near { unsigned_abs result ≤ 2 ^ 15 }
    {
        10 * (self.height - self.top - self.bottom)
    }

    /// The least scale at which an area has room.
    pub fn scale_for(&self, area: &Area) -> i64
        requires paper { IsPaper self.now }
        requires area { IsDrawable area.now }
        ensures least { IsLeastScale (area.now.x1 -ℤ area.now.x0) (area.now.y1 -ℤ area.now.y0)
            (across self.now) (upright self.now) result }
        ensures valid { IsScale result }
    {
        least_scale(
            area.x1 - area.x0,
            area.y1 - area.y0,
            self.across(),
            self.upright(),
        )
    }
}

/// The window of a figure: its paper, its scale in micrometres to a tenth of a millimetre, that in
/// the units of the picture, the decimal places of these units, the figure's number on the page and
/// the window's lower left corner.
#[derive(Clone, Copy)]
pub struct Window {
    pub paper: Paper,
    pub scale: i64,
    pub unit: i64,
    pub places: u8,
    pub number: i64,
    pub x: i64,
    pub y: i64,
}

/// Where a room begins that has a range in its middle.
fn begin_around(room: i64, low: i64, high: i64) -> i64
    requires room { unsigned_abs room ≤ 2 ^ 50 }
    requires low { unsigned_abs low ≤ 2 ^ 48 }
    requires high { unsigned_abs high ≤ 2 ^ 48 }
    ensures value { result ≡ begin_around room low high }
    ensures near { unsigned_abs result ≤ 2 ^ 50 }
    // What has room lies within it.
    ensures low { (high -ℤ low) ≤ℤ room → result ≤ℤ low }
    ensures high { (high -ℤ low) ≤ℤ room → high ≤ℤ (result +ℤ room) }
{
    low - (room - (high - low)).div_euclid(2)
}

/// So many tenths of a millimetre of paper, in a unit.
fn in_units(tenths: i64, unit: i64) -> i64
    requires tenths { unsigned_abs tenths ≤ 2 ^ 20 }
    requires unit { unsigned_abs unit ≤ 2 ^ 30 }
    ensures value { result ≡ (tenths *ℤ unit) }
    ensures near { unsigned_abs result ≤ 2 ^ 50 }
{
    tenths * unit
}

impl Window {
    /// The window with the area in its middle, of a picture in micrometres.
    pub fn around(paper: Paper, scale: i64, area: &Area, number: i64) -> Window
        requires paper { IsPaper paper }
        requires scale { IsScale scale }
        requires area { IsDrawable area.now }
        ensures value { result ≡ window_around paper scale scale 3 area.now number }
        ensures valid { IsWindow result }
        ensures whole { HasRoom (area.now.x1 -ℤ area.now.x0) (area.now.y1 -ℤ area.now.y0)
            (across paper) (upright paper) scale → Shows result area.now }
    {
        Window::of_units(paper, scale, scale, 3, area, number)
    }

    /// That of a picture in hundredths of a micrometre.
    pub fn around_drawn(paper: Paper, scale: i64, area: &Area, number: i64) -> Window
        requires paper { IsPaper paper }
        requires scale { IsScale scale }
        requires area { IsDrawable area.now }
        ensures value { result ≡ window_around paper scale (pos 100 *ℤ scale) 5 area.now number }
        ensures valid { IsWindow result }
        ensures whole { HasRoom (area.now.x1 -ℤ area.now.x0) (area.now.y1 -ℤ area.now.y0)
            (across paper) (upright paper) (pos 100 *ℤ scale) → Shows result area.now }
    {
        Window::of_units(paper, scale, 100 * scale, 5, area, number)
    }

    fn of_units(paper: Paper, scale: i64, unit: i64, places: u8, area: &Area, number: i64) -> Window
        requires paper { IsPaper paper }
        requires scale { IsScale scale }
        requires some { pos 1 ≤ℤ unit }
        requires unit { unsigned_abs unit ≤ 2 ^ 30 }
        requires decimal { 0 < places }
        requires few { places ≤ 6 }
        requires area { IsDrawable area.now }
        ensures value { result ≡ window_around paper scale unit places area.now number }
        ensures valid { IsWindow result }
        ensures whole { HasRoom (area.now.x1 -ℤ area.now.x0) (area.now.y1 -ℤ area.now.y0)
            (across paper) (upright paper) unit → Shows result area.now }
    {
        Window {
            paper,
            scale,
            unit,
            places,
            number,
            x: begin_around(in_units(paper.across(), unit), area.x0, area.x1),
            y: begin_around(in_units(paper.upright(), unit), area.y0, area.y1),
        }
    }

    /// The window's right edge.
    pub fn x1(&self) -> i64
        requires { IsWindow self.now }
        ensures value { result ≡ right_of self.now }
        ensures near { unsigned_abs result ≤ 2 ^ 51 }
    {
        self.x + in_units(self.paper.across(), self.unit)
    }

    /// The window's upper edge.
    pub fn y1(&self) -> i64
        requires { IsWindow self.now }
        ensures value { result ≡ top_of self.now }
        ensures near { unsigned_abs result ≤ 2 ^ 51 }
    {
        self.y + in_units(self.paper.upright(), self.unit)
    }

    /// Where the window's lower edge lies on the paper, whose y counts downwards.
    pub fn foot(&self) -> i64
        requires { IsWindow self.now }
        ensures value { result ≡ neg_ℤ self.now.y }
        ensures near { unsigned_abs result ≤ 2 ^ 51 }
    {
        -self.y
    }

    /// Where the window's upper edge lies on the paper.
    pub fn head(&self) -> i64
        requires { IsWindow self.now }
        ensures value { result ≡ neg_ℤ (top_of self.now) }
        ensures near { unsigned_abs result ≤ 2 ^ 51 }
    {
        -self.y1()
    }

    /// So many tenths of a millimetre of paper.
    pub fn tenths(&self, tenths: i64) -> i64
        requires window { IsWindow self.now }
        requires tenths { unsigned_abs tenths ≤ 2 ^ 20 }
        ensures value { result ≡ (tenths *ℤ self.now.unit) }
        ensures near { unsigned_abs result ≤ 2 ^ 50 }
    {
        in_units(tenths, self.unit)
    }

    /// The place so many tenths of a millimetre of paper behind another.
    pub fn beyond(&self, at: i64, tenths: i64) -> i64
        requires window { IsWindow self.now }
        requires at { unsigned_abs at ≤ 2 ^ 59 }
        requires tenths { unsigned_abs tenths ≤ 2 ^ 20 }
        ensures value { result ≡ (at +ℤ (tenths *ℤ self.now.unit)) }
        ensures near { unsigned_abs result ≤ 2 ^ 60 }
    {
        at + self.tenths(tenths)
    }

    /// The place so many tenths of a millimetre of paper before another.
    pub fn before(&self, at: i64, tenths: i64) -> i64
        requires window { IsWindow self.now }
        requires at { unsigned_abs at ≤ 2 ^ 59 }
        requires tenths { unsigned_abs tenths ≤ 2 ^ 20 }
        ensures value { result ≡ (at -ℤ (tenths *ℤ self.now.unit)) }
        ensures near { unsigned_abs result ≤ 2 ^ 60 }
    {
        at - self.tenths(tenths)
    }

    /// A length of the picture, as it stands in a hole.
    #[tactic(auto, unfolding(svg_text::specs::Forms::hole_text))]
    pub fn length(&self, value: i64) -> Hole<'static>
        requires { IsWindow self.now }
        ensures text { hole_text result ≡ length_text self.now value }
        ensures hole { IsHole result }
    {
        Hole::Decimal {
            value,
            places: self.places,
        }
    }

    /// A length of so many tenths of a millimetre of paper, as it stands in a hole.
    pub fn width(&self, tenths: i64) -> Hole<'static>
        requires window { IsWindow self.now }
        requires tenths { unsigned_abs tenths ≤ 2 ^ 20 }
        ensures text { hole_text result ≡ width_text self.now tenths }
        ensures hole { IsHole result }
    {
        self.length(self.tenths(tenths))
    }
}
