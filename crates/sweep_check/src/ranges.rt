//! Ranges along the bed.
ghost use Rattle.std.specs.Prelude.{◌≡◌};
ghost use Rattle.job_setup.specs.Places.{is_overlap};

/// Whether the two ranges share an interior point.
pub(crate) fn is_overlap(a: (i64, i64), b: (i64, i64)) -> bool
    ensures { result ≡ is_overlap a b }
{
    a.0.max(b.0) < a.1.min(b.1)
}
