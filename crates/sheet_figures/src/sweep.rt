//! What a box of the part sweeps.
ghost use Rattle.std.specs.Prelude.{◌≡◌, ℕ, ◌+◌, ◌*◌, ◌/◌, ◌^◌, ◌<◌, ◌≤◌, ◌++◌, nat_lt, pos, ◌*ℤ◌, unsigned_abs, OnOk};
ghost use Rattle.sheet_paper.specs.Windows.{IsWindow};
ghost use Rattle.sheet_views.specs.Near.{IsNearSwept};
ghost use Rattle.sheet_figures.specs.DrawnCovers.{IsDrawnCover};
ghost use Rattle.sheet_figures.specs.SweptShapes.{AreRadii, reach_of, far_point, turned, moved, wedge_of, wedge_line, ring_line, sector_lines, mirrored_lines, cover_lines, ghost_lines, third_of_turn, three_ghosts, culprit_line, struck_line, swept_lines, IsSweptText};

use crate::after::put_turned;
use crate::forms::{CULPRIT, GHOST, MIRRORED, RING, WEDGE};
use crate::parts::across_bed;
use crate::side::downwards;
use crate::tools::put_nose;
use brake_base::Half;
use sector_geom::{Sector, Sweep};
use sheet_paper::{Window, put_group_end, put_rectangle, put_shapes_end};
use sheet_views::{Struck, Swept};
use std::alloc::AllocError;
use svg_text::{Hole, put_line};

/// The greatest whole number whose square is at most this one.
fn root(square: u128) -> u64
    requires { square ≤ 2 ^ 61 }
    ensures low { result * result ≤ square }
    ensures high { square < (result + 1) * (result + 1) }
    ensures near { result ≤ 2 ^ 31 }
{
    square.isqrt() as u64
}

/// Whether the square of a number is below this one.
fn is_square_below(root: u64, square: u128) -> bool
    requires { root ≤ 2 ^ 31 }
    ensures { result ≡ nat_lt (root * root) square }
{
    u128::from(root * root) < square
}

/// The least whole number whose square is at least this one.
#[tactic(auto, using(crate::proofs::Sweeps::least_above, crate::proofs::Sweeps::least_same))]
fn root_up(square: u128) -> u64
    requires { square ≤ 2 ^ 61 }
    ensures high { square ≤ result * result }
    ensures least { (n : ℕ) → square ≤ n * n → result ≤ n }
    ensures near { result ≤ 2 ^ 32 }
{
    let low = root(square);
    if is_square_below(low, square) {
        low + 1
    } else {
        low
    }
}

/// How often a ray's point, which lies so far out, is taken to lie beyond a distance.
fn times_beyond(reach: u64, far: u64) -> u64
    requires some { 0 < reach }
    requires reach { reach ≤ 2 ^ 31 }
    requires far { far ≤ 2 ^ 34 }
    ensures value { result ≡ far / reach + 1 }
    ensures near { result * reach ≤ 2 ^ 40 }
{
    far / reach + 1
}

/// A coordinate of the ray's point, taken so often.
fn stretched(at: i64, reach: u64, times: u64) -> i64
    requires some { 0 < reach }
    requires at { unsigned_abs at ≤ reach }
    requires far { times * reach ≤ 2 ^ 40 }
    ensures value { result ≡ (pos times *ℤ at) }
    ensures near { unsigned_abs result ≤ 2 ^ 40 }
{
    times as i64 * at
}

/// How far the ray's point lies from the farther axis, at least 1.
fn reach_of(ray: (i64, i64)) -> u64
    requires y { unsigned_abs ray.0 ≤ 2 ^ 31 }
    requires z { unsigned_abs ray.1 ≤ 2 ^ 31 }
    ensures value { result ≡ reach_of ray }
    ensures some { 0 < result }
    ensures y { unsigned_abs ray.0 ≤ result }
    ensures z { unsigned_abs ray.1 ≤ result }
    ensures near { result ≤ 2 ^ 31 }
{
    ray.0.unsigned_abs().max(ray.1.unsigned_abs()).max(1)
}

/// A point on the ray through a point, beyond twice a distance.
fn far_point(ray: (i64, i64), far: u64) -> (i64, i64)
    requires y { unsigned_abs ray.0 ≤ 2 ^ 31 }
    requires z { unsigned_abs ray.1 ≤ 2 ^ 31 }
    requires far { far ≤ 2 ^ 32 }
    ensures value { result ≡ far_point ray far }
    ensures y { unsigned_abs result.0 ≤ 2 ^ 40 }
    ensures z { unsigned_abs result.1 ≤ 2 ^ 40 }
{
    let reach = reach_of(ray);
    let times = times_beyond(reach, 2 * far);
    (
        stretched(ray.0, reach, times),
        stretched(ray.1, reach, times),
    )
}

/// A point, turned by a quarter about the bend line.
fn turned(point: (i64, i64)) -> (i64, i64)
    requires y { unsigned_abs point.0 ≤ 2 ^ 40 }
    requires z { unsigned_abs point.1 ≤ 2 ^ 40 }
    ensures value { result ≡ turned point }
    ensures y { unsigned_abs result.0 ≤ 2 ^ 40 }
    ensures z { unsigned_abs result.1 ≤ 2 ^ 40 }
{
    (downwards(point.1), point.0)
}

/// A point, moved by another.
fn moved(point: (i64, i64), by: (i64, i64)) -> (i64, i64)
    requires y { unsigned_abs point.0 ≤ 2 ^ 40 }
    requires z { unsigned_abs point.1 ≤ 2 ^ 40 }
    requires by_y { unsigned_abs by.0 ≤ 2 ^ 40 }
    requires by_z { unsigned_abs by.1 ≤ 2 ^ 40 }
    ensures { result ≡ moved point by }
{
    (point.0 + by.0, point.1 + by.1)
}

/// The wedge between the two rays of a cover: from the origin to a point far out on the lower ray,
/// on to two corners outside the cover, and back over a point far out on the upper ray.
#[derive(Clone, Copy)]
struct Wedge {
    lower: (i64, i64),
    lower_corner: (i64, i64),
    upper_corner: (i64, i64),
    upper: (i64, i64),
}

/// The wedge of a cover, beyond twice a distance.
fn wedge_of(cover: &Sector, far: u64) -> Wedge
    requires cover { IsDrawnCover cover.now }
    requires far { far ≤ 2 ^ 32 }
    ensures { result ≡ wedge_of cover.now far }
{
    let lower = far_point(cover.lower, far);
    let upper = far_point(cover.upper, far);
    let outwards = turned(lower);
    Wedge {
        lower,
        lower_corner: moved(lower, outwards),
        upper_corner: moved(upper, outwards),
        upper,
    }
}

/// A wedge as a clip.
#[tactic(auto, using(sheet_paper::proofs::Texts::pieces))]
fn put_wedge(out: &mut Vec<u8>, window: &Window, wedge: &Wedge) -> Result<(), AllocError>
    requires { IsWindow window.now }
    ensures { OnOk result (out.new.items ≡ out.old.items ++ wedge_line window.now wedge.now) }
{
    let holes = [
        Hole::Number(window.number),
        window.length(wedge.lower.0),
        window.length(wedge.lower.1),
        window.length(wedge.lower_corner.0),
        window.length(wedge.lower_corner.1),
        window.length(wedge.upper_corner.0),
        window.length(wedge.upper_corner.1),
        window.length(wedge.upper.0),
        window.length(wedge.upper.1),
    ];
    put_line(out, WEDGE, &holes)
}

/// The radii of a cover's circles: that of the inner one rounded down, that of the outer one up.
#[derive(Clone, Copy)]
struct Radii {
    near: u64,
    far: u64,
}

/// The radii of a cover.
fn radii_of(cover: &Sector) -> Radii
    requires { IsDrawnCover cover.now }
    ensures value { AreRadii cover.now result }
    ensures near { result.near ≤ 2 ^ 32 }
    ensures far { result.far ≤ 2 ^ 32 }
{
    Radii {
        near: root(cover.near2.unsigned_abs()),
        far: root_up(cover.far2.unsigned_abs()),
    }
}

/// The ring between two circles, cut at the wedge.
#[tactic(auto, using(sheet_paper::proofs::Texts::pieces))]
fn put_ring(out: &mut Vec<u8>, window: &Window, near: i64, far: i64) -> Result<(), AllocError>
    requires window { IsWindow window.now }
    requires near { unsigned_abs near ≤ 2 ^ 40 }
    requires far { unsigned_abs far ≤ 2 ^ 40 }
    ensures { OnOk result (out.new.items ≡ out.old.items ++ ring_line window.now near far) }
{
    let minus_far = window.length(downwards(far));
    let minus_near = window.length(downwards(near));
    let far = window.length(far);
    let near = window.length(near);
    let holes = [
        window.width(2),
        Hole::Number(window.number),
        minus_far,
        far,
        far,
        far,
        far,
        far,
        minus_far,
        minus_near,
        near,
        near,
        near,
        near,
        near,
        minus_near,
    ];
    put_line(out, RING, &holes)
}

/// The cover of a swept box; that of the front half is mirrored.
#[tactic(auto, unfolding(crate::specs::SweptShapes::cover_lines))]
fn put_cover(
    out: &mut Vec<u8>,
    window: &Window,
    half: Half,
    cover: &Sector,
    radii: Radii,
) -> Result<(), AllocError>
    requires window { IsWindow window.now }
    requires cover { IsDrawnCover cover.now }
    requires near { radii.near ≤ 2 ^ 32 }
    requires far { radii.far ≤ 2 ^ 32 }
    ensures { OnOk result (out.new.items
        ≡ out.old.items ++ cover_lines half window.now cover.now radii) }
{
    match half {
        Half::Back => put_sector(out, window, cover, radii),
        Half::Front => put_mirrored(out, window, cover, radii),
    }
}

/// A cover, mirrored.
#[tactic(auto, using(sheet_paper::proofs::Texts::pieces), unfolding(crate::specs::SweptShapes::mirrored_lines))]
fn put_mirrored(
    out: &mut Vec<u8>,
    window: &Window,
    cover: &Sector,
    radii: Radii,
) -> Result<(), AllocError>
    requires window { IsWindow window.now }
    requires cover { IsDrawnCover cover.now }
    requires near { radii.near ≤ 2 ^ 32 }
    requires far { radii.far ≤ 2 ^ 32 }
    ensures { OnOk result (out.new.items
        ≡ out.old.items ++ mirrored_lines window.now cover.now radii) }
{
    put_line(out, MIRRORED, &[])?;
    put_sector(out, window, cover, radii)?;
    put_group_end(out)
}

/// A cover: its ring, cut at its wedge.
#[tactic(auto, using(sheet_paper::proofs::Texts::pieces), unfolding(crate::specs::SweptShapes::sector_lines))]
fn put_sector(
    out: &mut Vec<u8>,
    window: &Window,
    cover: &Sector,
    radii: Radii,
) -> Result<(), AllocError>
    requires window { IsWindow window.now }
    requires cover { IsDrawnCover cover.now }
    requires near { radii.near ≤ 2 ^ 32 }
    requires far { radii.far ≤ 2 ^ 32 }
    ensures { OnOk result (out.new.items
        ≡ out.old.items ++ sector_lines window.now cover.now radii) }
{
    put_wedge(out, window, &wedge_of(cover, radii.far))?;
    put_ring(out, window, radii.near as i64, radii.far as i64)
}

/// The swept box, turned by so many degrees.
#[tactic(auto, using(sheet_paper::proofs::Texts::pieces), unfolding(crate::specs::SweptShapes::ghost_lines))]
fn put_ghost(
    out: &mut Vec<u8>,
    window: &Window,
    swept: &Swept,
    degrees: i64,
) -> Result<(), AllocError>
    requires { IsWindow window.now }
    ensures { OnOk result (out.new.items
        ≡ out.old.items ++ ghost_lines window.now swept.now degrees) }
{
    put_turned(out, degrees)?;
    let area = across_bed(&swept.body);
    let holes = [
        window.width(2),
        window.width(10),
        window.width(6),
        window.length(area.x0),
        window.length(area.y0),
        window.length(area.x1),
        window.length(area.y1),
        window.length(area.x0),
    ];
    put_line(out, GHOST, &holes)?;
    put_group_end(out)
}

/// A third of a box's turn, in degrees: a half of the sheet turns by 45, one half against the other by
/// 90, and the front half the other way.
#[tactic(auto, unfolding(crate::specs::SweptShapes::third_of_turn))]
fn third_of_turn(sweep: Sweep, half: Half) -> i64
    ensures value { result ≡ third_of_turn sweep half }
    ensures near { unsigned_abs result ≤ 30 }
{
    match (sweep, half) {
        (Sweep::Fourth, Half::Back) => 30,
        (Sweep::Fourth, Half::Front) => -30,
        (Sweep::Eighth, Half::Back) => 15,
        (Sweep::Eighth, Half::Front) => -15,
    }
}

/// The swept box at three angles.
#[tactic(auto, using(sheet_paper::proofs::Texts::pieces), unfolding(crate::specs::SweptShapes::three_ghosts))]
fn put_ghosts(out: &mut Vec<u8>, window: &Window, swept: &Swept) -> Result<(), AllocError>
    requires { IsWindow window.now }
    ensures { OnOk result (out.new.items ≡ out.old.items ++ three_ghosts window.now swept.now) }
{
    let third = third_of_turn(swept.sweep, swept.half);
    put_ghost(out, window, swept, third)?;
    put_ghost(out, window, swept, 2 * third)?;
    put_ghost(out, window, swept, 3 * third)
}

/// The swept box as it lies.
#[tactic(auto, using(sheet_paper::proofs::Texts::pieces))]
fn put_culprit(out: &mut Vec<u8>, window: &Window, swept: &Swept) -> Result<(), AllocError>
    requires { IsWindow window.now }
    ensures { OnOk result (out.new.items ≡ out.old.items ++ culprit_line window.now swept.now) }
{
    let area = across_bed(&swept.body);
    let holes = [
        window.width(4),
        window.length(area.x0),
        window.length(area.y0),
        window.length(area.x1),
        window.length(area.y1),
        window.length(area.x0),
        Hole::Number(i64::from(swept.id)),
    ];
    put_line(out, CULPRIT, &holes)
}

/// What is struck.
#[tactic(auto, unfolding(crate::specs::SweptShapes::struck_line))]
fn put_struck(out: &mut Vec<u8>, window: &Window, struck: &Struck) -> Result<(), AllocError>
    requires { IsWindow window.now }
    ensures { OnOk result (out.new.items ≡ out.old.items ++ struck_line window.now struck.now) }
{
    match struck {
        Struck::Body(rect) => put_rectangle(out, window, b"hit", 4, &across_bed(rect)),
        Struck::Nose(nose) => put_nose(out, window, b"hit", 4, *nose),
    }
}

/// What is struck and what the box sweeps, by the radii of its cover.
#[tactic(auto, using(sheet_paper::proofs::Texts::pieces), unfolding(crate::specs::SweptShapes::swept_lines))]
fn put_with_radii(
    out: &mut Vec<u8>,
    window: &Window,
    swept: &Swept,
    radii: Radii,
) -> Result<(), AllocError>
    requires window { IsWindow window.now }
    requires cover { IsDrawnCover swept.now.cover }
    requires near { radii.near ≤ 2 ^ 32 }
    requires far { radii.far ≤ 2 ^ 32 }
    ensures { OnOk result (out.new.items ≡ out.old.items ++ swept_lines window.now swept.now radii) }
{
    put_struck(out, window, &swept.struck)?;
    put_cover(out, window, swept.half, &swept.cover, radii)?;
    put_ghosts(out, window, swept)?;
    put_culprit(out, window, swept)?;
    put_shapes_end(out)
}

/// A cover that can be drawn, by its radii.
fn drawn_radii(swept: &Swept) -> Radii
    requires { IsNearSwept swept.now }
    ensures value { AreRadii swept.now.cover result }
    ensures cover { IsDrawnCover swept.now.cover }
    ensures near { result.near ≤ 2 ^ 32 }
    ensures far { result.far ≤ 2 ^ 32 }
{
    radii_of(&swept.cover)
}

/// What is struck, and what the box sweeps.
pub(crate) fn put_swept(out: &mut Vec<u8>, window: &Window, swept: &Swept) -> Result<(), AllocError>
    requires window { IsWindow window.now }
    requires swept { IsNearSwept swept.now }
    ensures { OnOk result (IsSweptText window.now swept.now out.old.items out.new.items) }
{
    let radii = drawn_radii(swept);
    put_with_radii(out, window, swept, radii)?;
    Ok(())
}
