//! The titles of the views of a stroke, and what they say to those who can't see them.

pub(crate) const BEFORE_STROKE: &[u8] = b"Before the stroke";

pub(crate) const BEFORE_SENTENCE: &[u8] =
    b"Side view along the bed, the operator at the left, the backgauge at the right: the stop fingers ";

pub(crate) const BEHIND_LINE: &[u8] = b" mm behind the bend line.";

pub(crate) const AFTER_STROKE: &[u8] = b"After the stroke";

pub(crate) const AT_TOOLS: &[u8] = b"After, at the tools";

pub(crate) const AFTER_SENTENCE: &[u8] =
    b"Side view along the bed: both halves of the sheet turned up by 45 degrees, the die risen.";

pub(crate) const FROM_ABOVE: &[u8] = b"From above";

pub(crate) const ABOVE_SENTENCE: &[u8] =
    b"The part on the die, the operator at the bottom. The left stop finger begins at x = ";

pub(crate) const RIGHT_ONE_AT: &[u8] = b", the right one at ";

pub(crate) const MILLIMETRES: &[u8] = b" mm.";

pub(crate) const PART_BEFORE: &[u8] = b"Part before";

pub(crate) const PART_BEFORE_SENTENCE: &[u8] =
    b"The part as it lies before the stroke, seen from the right, the front and above.";

pub(crate) const PART_AFTER: &[u8] = b"Part after";

pub(crate) const PART_AFTER_SENTENCE: &[u8] =
    b"The part after the stroke, seen in the same way; face 0 is held as before.";

pub(crate) const OPERATOR: &[u8] = b"operator";

pub(crate) const BACKGAUGE: &[u8] = b"backgauge";

pub(crate) const PARENT_AT_BACK: &[u8] = b", parent at the back, station ";

pub(crate) const FLANGE_AT_BACK: &[u8] = b", flange at the back, station ";

pub(crate) const BY_THE_TOOLS: &[u8] = b", at the tools";
