//! The marks of a stroke from above.
ghost use Rattle.std.specs.Prelude.{◌≡◌, ◌^◌, ◌≤◌, ◌++◌, unsigned_abs, length, All, OnOk};
ghost use Rattle.brake_base.specs.Boxes.{IsBoxWithin};
ghost use Rattle.sheet_paper.specs.Windows.{IsWindow};
ghost use Rattle.sheet_paper.specs.FigureLines.{label_data, IsLabel};
ghost use Rattle.sheet_views.specs.Near.{IsNearFingers};
ghost use Rattle.sheet_figures.specs.AboveMarks.{label_places, both_of, two_labels, upper_label, lower_label, finger_mark, end_mark, marks_of_two, finger_marks, end_marks};

use crate::side::downwards;
use brake_base::Box3;
use sheet_paper::{Dashes, Label, Places, Window, put_label, put_leader, put_line_between, spread};
use sheet_views::Fingers;
use sheet_words::mm;
use std::alloc::AllocError;

/// Where the labels of two places stand, moved apart.
fn label_places(window: &Window, first: i64, second: i64) -> Places
    requires window { IsWindow window.now }
    requires first { unsigned_abs first ≤ 2 ^ 40 }
    requires second { unsigned_abs second ≤ 2 ^ 40 }
    ensures value { result.items ≡ label_places window.now first second }
    ensures two { length result.items ≡ 2 }
    ensures near { All (λ place. unsigned_abs place ≤ 2 ^ 58) result.items }
{
    let low = window.beyond(window.x, 50);
    let high = window.before(window.x1(), 50);
    spread(&[first, second], low, high, window.tenths(130))
}

/// Both of two places.
fn both_of(places: &Places) -> (i64, i64)
    requires two { length places.now.items ≡ 2 }
    requires near { All (λ place. unsigned_abs place ≤ 2 ^ 58) places.now.items }
    ensures value { result ≡ both_of places.now.items }
    ensures first { unsigned_abs result.0 ≤ 2 ^ 58 }
    ensures second { unsigned_abs result.1 ≤ 2 ^ 58 }
{
    let places = places.as_slice();
    (places[0], places[1])
}

/// The labels of two places, moved apart.
fn two_labels(window: &Window, first: i64, second: i64) -> (i64, i64)
    requires window { IsWindow window.now }
    requires first { unsigned_abs first ≤ 2 ^ 40 }
    requires second { unsigned_abs second ≤ 2 ^ 40 }
    ensures value { result ≡ two_labels window.now first second }
    ensures first { unsigned_abs result.0 ≤ 2 ^ 58 }
    ensures second { unsigned_abs result.1 ≤ 2 ^ 58 }
{
    let places = label_places(window, first, second);
    both_of(&places)
}

/// A label above the window.
fn upper_label(window: &Window, at: i64) -> Label
    requires window { IsWindow window.now }
    requires at { unsigned_abs at ≤ 2 ^ 58 }
    ensures value { label_data result ≡ upper_label window.now at }
    ensures label { IsLabel (label_data result) }
{
    Label {
        at: (at, window.head()),
        moved: (0, 40),
        size: 28,
        class: b"big",
    }
}

/// A label below the window.
fn lower_label(window: &Window, at: i64) -> Label
    requires window { IsWindow window.now }
    requires at { unsigned_abs at ≤ 2 ^ 58 }
    ensures value { label_data result ≡ lower_label window.now at }
    ensures label { IsLabel (label_data result) }
{
    Label {
        at: (at, window.foot()),
        moved: (0, -58),
        size: 26,
        class: b"",
    }
}

/// Where a finger begins, above the window.
#[tactic(auto, using(sheet_paper::proofs::Texts::pieces), unfolding(crate::specs::AboveMarks::finger_mark))]
fn put_finger(
    out: &mut Vec<u8>,
    window: &Window,
    finger: &Box3,
    label: i64,
) -> Result<(), AllocError>
    requires window { IsWindow window.now }
    requires finger { IsBoxWithin (2 ^ 40) finger.now }
    requires label { unsigned_abs label ≤ 2 ^ 58 }
    ensures { OnOk result (out.new.items ≡ out.old.items ++ finger_mark window.now finger.now label) }
{
    let head = window.head();
    put_leader(
        out,
        window,
        (finger.lo.x, downwards(finger.hi.y)),
        (finger.lo.x, window.before(head, 4)),
        (label, window.before(head, 28)),
        (label, window.before(head, 34)),
    )?;
    let words = mm(*out.allocator(), finger.lo.x)?;
    put_label(out, window, &upper_label(window, label), words.as_slice())
}

/// An end of the bend line, below the window.
#[tactic(auto, using(sheet_paper::proofs::Texts::pieces), unfolding(crate::specs::AboveMarks::end_mark))]
fn put_end(out: &mut Vec<u8>, window: &Window, end: i64, label: i64) -> Result<(), AllocError>
    requires window { IsWindow window.now }
    requires label { unsigned_abs label ≤ 2 ^ 58 }
    ensures { OnOk result (out.new.items ≡ out.old.items ++ end_mark window.now end label) }
{
    let foot = window.foot();
    let pen: (&'static [u8], i64, Dashes) = (b"guide", 1, Dashes::Dashed(3, 5));
    put_line_between(out, window, pen, (end, 0), (end, foot))?;
    put_leader(
        out,
        window,
        (end, foot),
        (end, window.beyond(foot, 4)),
        (label, window.beyond(foot, 28)),
        (label, window.beyond(foot, 34)),
    )?;
    let words = mm(*out.allocator(), end)?;
    put_label(out, window, &lower_label(window, label), words.as_slice())
}

/// Where two fingers begin, the first to the left of the second.
#[tactic(auto, using(sheet_paper::proofs::Texts::pieces), unfolding(crate::specs::AboveMarks::marks_of_two))]
fn put_two_fingers(
    out: &mut Vec<u8>,
    window: &Window,
    first: &Box3,
    second: &Box3,
) -> Result<(), AllocError>
    requires window { IsWindow window.now }
    requires first { IsBoxWithin (2 ^ 40) first.now }
    requires second { IsBoxWithin (2 ^ 40) second.now }
    ensures { OnOk result (out.new.items
        ≡ out.old.items ++ marks_of_two window.now first.now second.now) }
{
    let (low, high) = two_labels(window, first.lo.x, second.lo.x);
    put_finger(out, window, first, low)?;
    put_finger(out, window, second, high)
}

/// Where the fingers begin.
#[tactic(auto, unfolding(crate::specs::AboveMarks::finger_marks))]
pub(crate) fn put_finger_marks(
    out: &mut Vec<u8>,
    window: &Window,
    fingers: &Fingers,
) -> Result<(), AllocError>
    requires window { IsWindow window.now }
    requires fingers { IsNearFingers fingers.now }
    ensures { OnOk result (out.new.items ≡ out.old.items ++ finger_marks window.now fingers.now) }
{
    if fingers.right.lo.x < fingers.left.lo.x {
        put_two_fingers(out, window, &fingers.right, &fingers.left)
    } else {
        put_two_fingers(out, window, &fingers.left, &fingers.right)
    }
}

/// The ends of the bend line.
#[tactic(auto, using(sheet_paper::proofs::Texts::pieces), unfolding(crate::specs::AboveMarks::end_marks))]
pub(crate) fn put_end_marks(
    out: &mut Vec<u8>,
    window: &Window,
    line: (i64, i64),
) -> Result<(), AllocError>
    requires window { IsWindow window.now }
    requires from { unsigned_abs line.0 ≤ 2 ^ 40 }
    requires to { unsigned_abs line.1 ≤ 2 ^ 40 }
    ensures { OnOk result (out.new.items ≡ out.old.items ++ end_marks window.now line) }
{
    let (low, high) = two_labels(window, line.0, line.1);
    put_end(out, window, line.0, low)?;
    put_end(out, window, line.1, high)
}
