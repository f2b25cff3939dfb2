//! Sectors against the noses of punches.

ghost use Rattle.std.specs.Prelude.{◌↔◌, IsTrue, pos, ◌≤ℤ◌, ◌^◌};
ghost use Rattle.sector_geom.specs.declared.sector.Sweep.TheVariants.{Eighth};
ghost use Rattle.sector_geom.specs.Covers.{IsCoverBy};
ghost use Rattle.sector_geom.specs.Clear.{IsClearOfNose, IsApartFromNose, IsPastNose};
ghost use Rattle.sector_geom.specs.SpecialPoints.{IsRayInRange};

use crate::covers::squared_distance;
use crate::sector::Sector;

/// Whether the cover of an eighth of a turn is clear of a nose: the wedge of a right angle upwards from the punch's tip,
/// whose corners lie `nose` to both sides and `nose` up. Touching is clear.
pub fn clear_nose(s: &Sector, nose: i64) -> bool
    requires cover { IsCoverBy Eighth s.now }
    requires not_negative { pos 0 ≤ℤ nose }
    requires in_range { nose ≤ℤ pos (2 ^ 30) }
    ensures exact { IsTrue result ↔ IsClearOfNose s.now nose }
    ensures law { IsTrue result → IsApartFromNose s.now nose }
{
    s.near2 >= squared_distance((nose, nose)) || is_past_nose(s.lower)
}

/// Whether the ray points downwards, or lies past the nose's left diagonal.
fn is_past_nose(ray: (i64, i64)) -> bool
    requires ray { IsRayInRange ray }
    ensures exact { IsTrue result ↔ IsPastNose ray }
{
    let (y, z) = ray;
    z < 0 || (y < 0 && -y >= z)
}
