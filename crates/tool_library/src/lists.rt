//! The bodies and sections of a tool's table.
ghost use Rattle.std.specs.Prelude.{◌≡◌, ◌↔◌, ◌≤◌, pos, neg_ℤ, ◌≤ℤ◌, length, map, is_some, option_map, All, IsFalse, IsTrue, IfSome};
ghost use Rattle.std.specs.List.{list_all};
ghost use Rattle.toml.specs.View.{view, table_view};
ghost use Rattle.tool_library.specs.Tools.{IsBodyBox, IsSection};
ghost use Rattle.tool_library.specs.ToolsFile.{rect_of, rects_of, is_body_box, is_section, section_of, sections_of, sections_at, too_many};

use crate::bounds::{
    FARTHEST_ACROSS, GREATEST_COUNT, GREATEST_LENGTH, LEAST_COUNT, LEAST_HEIGHT, LEAST_LENGTH,
    MOST_BOXES, MOST_SECTIONS,
};
use arrayvec::ArrayVec;
use brake_base::Rect;
use toml::{Table, Value};
use toml_fields::{array_at, integers_of, is_range, is_within};

/// The box of an array of four integers.
fn rect_of(value: &Value) -> Option<Rect>
    ensures { result ≡ rect_of (view value.now) }
{
    let [y0, y1, z0, z1] = integers_of::<4>(value)?;
    Some(Rect { y0, y1, z0, z1 })
}

/// The boxes of a body.
pub fn rects_of(items: &[Value]) -> ArrayVec<Rect, MOST_BOXES>
    requires { length items.now ≤ MOST_BOXES }
    ensures value { result.items ≡ rects_of (map view items.now) }
    ensures few { length result.items ≤ MOST_BOXES }
{
    let mut rects = ArrayVec::new();
    for item in items {
        if let Some(rect) = rect_of(item) {
            rects.push(rect);
        }
    }
    rects
}

/// Whether the box has an interior, lies near the tool's middle, and between the two heights.
fn is_body_box(rect: &Rect, low: i64, high: i64) -> bool
    ensures { result ≡ is_body_box low high rect.now }
{
    is_range(rect.y0, rect.y1, -FARTHEST_ACROSS, FARTHEST_ACROSS)
        && is_range(rect.z0, rect.z1, low, high)
}

/// Whether each box is one of a body between the two heights.
fn are_body_boxes(rects: &[Rect], low: i64, high: i64) -> bool
    ensures { result ≡ list_all (is_body_box low high) rects.now }
{
    rects.iter().all(|rect| is_body_box(rect, low, high))
}

/// Whether each box of a punch of this height is in order and range.
pub fn is_punch_body(rects: &[Rect], height: i64) -> bool
    ensures value { result ≡ list_all (is_body_box (pos 0) height) rects.now }
    ensures exact { IsTrue result ↔ All (IsBodyBox (pos 0) height) rects.now }
{
    are_body_boxes(rects, 0, height)
}

/// Whether each box of a die of this height is in order and range.
pub fn is_die_body(rects: &[Rect], height: i64) -> bool
    requires { LEAST_HEIGHT ≤ℤ height }
    ensures value { result ≡ list_all (is_body_box (neg_ℤ height) (pos 0)) rects.now }
    ensures exact { IsTrue result ↔ All (IsBodyBox (neg_ℤ height) (pos 0)) rects.now }
{
    are_body_boxes(rects, -height, 0)
}

/// Whether a section's length and its count are in range.
fn is_section(length: i64, count: i64) -> bool
    ensures { result ≡ is_section length count }
{
    is_within(length, LEAST_LENGTH, GREATEST_LENGTH)
        && is_within(count, LEAST_COUNT, GREATEST_COUNT)
}

/// Whether each section's length and count are in range.
pub fn are_in_range(sections: &[(i64, u16)]) -> bool
    ensures { IsTrue result ↔ All IsSection sections.now }
{
    sections
        .iter()
        .all(|section| is_section(section.0, i64::from(section.1)))
}

/// The length and the count of a section.
fn section_of(value: &Value) -> Option<(i64, u16)>
    ensures value { result ≡ section_of (view value.now) }
    ensures fit { IfSome result IsSection }
{
    let [length, count] = integers_of::<2>(value)?;
    if is_section(length, count) {
        Some((length, count as u16))
    } else {
        None
    }
}

/// Whether each item is a section.
fn are_sections(items: &[Value]) -> bool
    ensures { result ≡ list_all (λ item. is_some (section_of (view item))) items.now }
{
    items.iter().all(|item| section_of(item).is_some())
}

/// The items of the array at a key, each a section.
#[tactic(auto, using(crate::proofs::Sizes::reading))]
pub fn sections_at<'a>(table: &'a Table, key: &str) -> Option<&'a [Value]>
    ensures { option_map (λ items. map view items.now) result
        ≡ sections_at key.now (table_view table.now) }
{
    let items = array_at(table, key)?;
    if are_sections(items) {
        Some(items)
    } else {
        None
    }
}

/// The sections of a tool.
pub fn sections_of(items: &[Value]) -> ArrayVec<(i64, u16), MOST_SECTIONS>
    requires { length items.now ≤ MOST_SECTIONS }
    ensures value { result.items ≡ sections_of (map view items.now) }
    ensures few { length result.items ≤ MOST_SECTIONS }
    ensures fit { All IsSection result.items }
{
    let mut sections = ArrayVec::new();
    for item in items {
        if let Some(section) = section_of(item) {
            sections.push(section);
        }
    }
    sections
}

/// Whether a body has too many boxes, or a tool too many sections.
#[tactic(auto, using(crate::proofs::Sizes::reading))]
pub fn are_too_many(body: &[Value], sections: &[Value]) -> bool
    ensures value { result ≡ too_many (map view body.now) (map view sections.now) }
    ensures few_boxes { IsFalse result → length body.now ≤ MOST_BOXES }
    ensures few_sections { IsFalse result → length sections.now ≤ MOST_SECTIONS }
{
    body.len() > MOST_BOXES || sections.len() > MOST_SECTIONS
}
