//! The ends of the stations in the view from the front.
ghost use Rattle.std.specs.Prelude.{◌≡◌, ◌^◌, ◌*◌, ◌<◌, ◌≤◌, ◌++◌, pos, neg_ℤ, ◌+ℤ◌, ◌*ℤ◌, unsigned_abs, length, All, IfOk, OnOk};
ghost use Rattle.sheet_paper.specs.Windows.{IsWindow};
ghost use Rattle.sheet_paper.specs.FigureLines.{label_data, IsLabel};
ghost use Rattle.sheet_figures.specs.Beds.{foot_label, end_mark};
ghost use Rattle.sheet_figures.specs.Extending.{Extends};

use crate::numbers::range_of;
use crate::places::ascending;
use arrayvec::ArrayVec;
use job_setup::Job;
use sheet_paper::{Label, Places, Window, put_label_upright, put_leader, spread};
use sheet_words::mm;
use std::alloc::{AllocError, Global};

/// Both ends of each station.
fn both_ends(job: &Job) -> Places
    ensures some { 0 < length job.now.setup.stages }
    ensures few { length result.items ≡ 2 * length job.now.setup.stages }
    ensures near { All (λ end. unsigned_abs end ≤ 2 ^ 40) result.items }
{
    let mut ends: Places = ArrayVec::new();
    for stage in 0..job.stages() {
        let range = range_of(job, stage);
        ends.push(range.0);
        ends.push(range.1);
    }
    ends
}

/// The ends of the stations, each once, in ascending order.
pub(crate) fn ends_of(job: &Job) -> Places
    ensures stages { 0 < length job.now.setup.stages }
    ensures some { 0 < length result.items }
    ensures few { length result.items ≤ 16 }
    ensures near { All (λ end. unsigned_abs end ≤ 2 ^ 40) result.items }
{
    ascending(both_ends(job).as_slice())
}

/// The label of an end, below the window.
fn foot_label(at: i64, y: i64) -> Label
    requires at { unsigned_abs at ≤ 2 ^ 58 }
    requires y { unsigned_abs y ≤ 2 ^ 58 }
    ensures value { label_data result ≡ foot_label at y }
    ensures label { IsLabel (label_data result) }
{
    Label {
        at: (at, y),
        moved: (9, 0),
        size: 26,
        class: b"e",
    }
}

/// Where the labels of the ends stand on the paper.
fn labels_foot(window: &Window) -> i64
    requires { IsWindow window.now }
    ensures value { result ≡ (neg_ℤ window.now.y +ℤ (pos 48 *ℤ window.now.unit)) }
    ensures near { unsigned_abs result ≤ 2 ^ 58 }
{
    window.foot() + window.tenths(48)
}

/// An end of a station, below the window.
#[tactic(auto, using(sheet_paper::proofs::Texts::pieces), unfolding(crate::specs::Beds::end_mark))]
fn put_end(
    out: &mut Vec<u8>,
    window: &Window,
    end: i64,
    label: i64,
    die_foot: i64,
) -> Result<(), AllocError>
    requires window { IsWindow window.now }
    requires label { unsigned_abs label ≤ 2 ^ 58 }
    ensures { OnOk result (out.new.items
        ≡ out.old.items ++ end_mark window.now end label die_foot) }
{
    let foot = window.foot();
    let near = window.beyond(foot, 12);
    let far = window.beyond(foot, 36);
    let last = window.beyond(foot, 44);
    put_leader(
        out,
        window,
        (end, die_foot),
        (end, near),
        (label, far),
        (label, last),
    )?;
    let words = mm(*out.allocator(), end)?;
    let at = foot_label(label, labels_foot(window));
    put_label_upright(out, window, &at, words.as_slice())
}

/// The room that the numbers of ends need below the window, in millimetres of paper.
pub(crate) fn low_margin(alloc: Global, ends: &[i64]) -> Result<i64, AllocError>
    ensures { IfOk result (λ room. unsigned_abs room ≤ 2 ^ 9) }
{
    let mut most = 0;
    for end in ends {
        let words = mm(alloc, *end)?;
        most = most.max(words.len());
    }
    // A length of a job has at most 12 letters.
    let letters = most.min(32) as i64;
    Ok(7 + 16 * letters / 10)
}

/// The ends of the stations below the window.
pub(crate) fn put_ends(
    out: &mut Vec<u8>,
    window: &Window,
    ends: &[i64],
    die_foot: i64,
) -> Result<(), AllocError>
    requires window { IsWindow window.now }
    requires few { length ends.now ≤ 16 }
    requires near { All (λ end. unsigned_abs end ≤ 2 ^ 40) ends.now }
    ensures { OnOk result (Extends out.old.items out.new.items) }
{
    let labels = spread(ends, window.x, window.x1(), window.tenths(36));
    for (i, end) in ends.iter().enumerate() {
        put_end(out, window, *end, labels.as_slice()[i], die_foot)?;
    }
    Ok(())
}
