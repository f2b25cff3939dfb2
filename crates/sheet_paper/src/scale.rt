//! The scale of a picture.

ghost use Rattle.std.specs.Prelude.{◌↔◌, ◌^◌, ◌≤◌, ◌*ℤ◌, ◌≤ℤ◌, pos, unsigned_abs, IsTrue};
ghost use Rattle.sheet_paper.specs.Scales.{HasRoom, IsLeastScale};
ghost use Rattle.sheet_paper.specs.Windows.{IsScale};

/// The numbers of micrometres that a tenth of a millimetre of paper may show: each makes a round
/// scale, so that a ruler on the paper tells lengths.
const SCALES: [i64; 62] = [
    1, 2, 4, 5, 8, 10, 16, 20, 25, 40, 50, 80, 100, 125, 150, 200, 250, 300, 400, 500, 600, 800,
    1_000, 1_250, 1_500, 2_000, 2_500, 3_000, 4_000, 5_000, 6_000, 8_000, 10_000, 12_500, 15_000,
    20_000, 25_000, 30_000, 40_000, 50_000, 60_000, 80_000, 100_000, 125_000, 150_000, 200_000,
    250_000, 300_000, 400_000, 500_000, 600_000, 800_000, 1_000_000, 1_250_000, 1_500_000,
    2_000_000, 2_500_000, 3_000_000, 4_000_000, 5_000_000, 6_000_000, 8_000_000,
];

/// Whether a length has room in so many tenths of a millimetre of paper.
fn is_within(length: i64, tenths: i64, scale: i64) -> bool
    requires tenths { unsigned_abs tenths ≤ 2 ^ 30 }
    requires scale { unsigned_abs scale ≤ 2 ^ 23 }
    ensures { IsTrue result ↔ (length ≤ℤ (tenths *ℤ scale)) }
{
    length <= tenths * scale
}

/// Whether a width and a height have room.
fn has_room(width: i64, height: i64, across: i64, upright: i64, scale: i64) -> bool
    requires across { unsigned_abs across ≤ 2 ^ 30 }
    requires upright { unsigned_abs upright ≤ 2 ^ 30 }
    requires scale { unsigned_abs scale ≤ 2 ^ 23 }
    ensures { IsTrue result ↔ HasRoom width height across upright scale }
{
    is_within(width, across, scale) && is_within(height, upright, scale)
}

/// The first scale at which a width and a height have room in a window of these tenths of a
/// millimetre, or the last where there is none.
pub fn least_scale(width: i64, height: i64, across: i64, upright: i64) -> i64
    requires across { unsigned_abs across ≤ 2 ^ 30 }
    requires upright { unsigned_abs upright ≤ 2 ^ 30 }
    ensures least { IsLeastScale width height across upright result }
    ensures valid { IsScale result }
{
    for scale in &SCALES {
        if has_room(width, height, across, upright, *scale) {
            return *scale;
        }
    }
    SCALES[61]
}
