//! Ranges of integers.
ghost use Rattle.std.specs.Prelude.{◌≡◌, ◌↔◌, IsTrue};
ghost use Rattle.toml_fields.specs.Ranges.{IsWithin, IsRange, is_within, is_range};

/// Whether the number is at least the lower end and at most the upper one.
pub fn is_within(n: i64, low: i64, high: i64) -> bool
    ensures value { result ≡ is_within low high n }
    ensures is { IsTrue result ↔ IsWithin low high n }
{
    low <= n && n <= high
}

/// Whether a range isn't empty and lies within the two ends: `from` is at least the lower end,
/// `to` is above `from`, and at most the upper end.
pub fn is_range(from: i64, to: i64, low: i64, high: i64) -> bool
    ensures value { result ≡ is_range low high from to }
    ensures is { IsTrue result ↔ IsRange low high from to }
{
    from < to && low <= from && to <= high
}
