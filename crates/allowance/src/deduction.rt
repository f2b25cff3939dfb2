//! Half of the deduction of a right angle, by DIN 6935.
ghost use Rattle.std.specs.Prelude.{◌≡◌, pos, ◌≤ℤ◌, ◌<ℤ◌, ◌+ℤ◌, ◌-ℤ◌, ◌*ℤ◌};
ghost use Rattle.allowance.specs.Bounds.{greatest_half_deduction};
ghost use Rattle.allowance.specs.HalfDeduction.{half_arc, rounded, half_deduction_of, IsFactor, IsBendThickness, IsBend, IsNearest};

/// The thickness, weighted by the correction factor.
fn weighted(t: i64, k: i64) -> i64
    requires thickness { IsBendThickness t }
    requires factor { IsFactor k }
    ensures value { result ≡ k *ℤ t }
    ensures low { pos 0 ≤ℤ result }
    ensures high { result ≤ℤ pos 50000000 }
{
    k * t
}

/// Half of the neutral line's quarter circle, in parts of 1/904000 micrometre.
fn half_arc(r: i64, t: i64, k: i64) -> i64
    requires { IsBend r t k }
    ensures value { result ≡ half_arc r t k }
    ensures low { pos 0 ≤ℤ result }
    ensures high { result ≤ℤ pos 100000000000 }
{
    355 * (2000 * r + weighted(t, k))
}

/// That many parts of 1/904000, rounded to the nearest whole number.
fn rounded(n: i64) -> i64
    requires n { (pos 0 ≤ℤ n) × (n ≤ℤ pos 100000000000) }
    ensures value { result ≡ rounded n }
    ensures above { (pos 904000 *ℤ result) ≤ℤ (n +ℤ pos 452000) }
    ensures below { (n -ℤ pos 452000) <ℤ (pos 904000 *ℤ result) }
    ensures low { pos 0 ≤ℤ result }
    ensures high { result ≤ℤ pos 1000000 }
{
    (n + 452_000) / 904_000
}

/// Half of the deduction of a right-angle bend, in micrometres, for the inner radius `r`, the
/// thickness `t` and the correction factor `k` in thousandths: DIN 6935, with 355/113 for pi.
pub fn half_deduction(r: i64, t: i64, k: i64) -> i64
    requires { IsBend r t k }
    ensures value { result ≡ half_deduction_of r t k }
    ensures nearest { IsNearest r t k result }
    ensures high { result ≤ℤ greatest_half_deduction }
{
    r + t - rounded(half_arc(r, t, k))
}
