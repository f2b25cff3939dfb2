//! The forms of a page's lines outside its figures, each with its holes.

pub const DOCTYPE: &[u8] = b"<!DOCTYPE html>";

pub const HTML: &[u8] =
    b"<html lang=\"en\" xmlns=\"http://www.w3.org/1999/xhtml\"><head><meta charset=\"utf-8\"/><meta name=\"viewport\" content=\"width=device-width, initial-scale=1\"/>";

pub const PAGE_TITLE: &[u8] = b"<title>Setup sheet of ~, ~</title>";

pub const STYLE_BEGIN: &[u8] = b"<style>";

pub const STYLE_END: &[u8] = b"</style></head><body><main>";

pub const HEADING: &[u8] = b"<header><h1>Setup sheet <span class=\"way\">~</span></h1>";

pub const MATERIAL: &[u8] =
    b"<div class=\"lead\"><span>material <b>~</b></span><span>sheet <b>~ mm</b></span><span>inside radius <b>~ mm</b></span><span>deduction <b>~ mm</b> a bend</span></div>";

pub const VERDICT: &[u8] =
    b"<div class=\"lead\"><span><b>~</b></span><span>~</span><span>certificate of ~ bytes, checked</span></div></header>";

pub const PAGE_END: &[u8] = b"</main></body></html>";

pub const SECTION: &[u8] = b"<section~>";

/// The attribute of a section that may be broken.
pub const FLOW: &[u8] = b" class=\"flow\"";

/// The attribute of a section that begins a page.
pub const NEW_PAGE: &[u8] = b" class=\"newpage\"";

pub const SECTION_END: &[u8] = b"</section>";

pub const H2: &[u8] = b"<h2>~</h2>";

pub const H2_WITH: &[u8] = b"<h2>~ <span class=\"way\">~</span></h2>";

pub const H2_STROKE: &[u8] =
    b"<h2><span class=\"k\">~</span> ~ <span class=\"way\">~</span><span class=\"of\">stroke ~ of ~</span></h2>";

pub const H3: &[u8] = b"<h3>~</h3>";

pub const PARAGRAPH: &[u8] = b"<p>~</p>";

pub const WARNING: &[u8] =
    b"<p class=\"warn\"><b>Look out:</b> ~. The planner doesn&#39;t test this.</p>";

pub const LEGEND: &[u8] =
    b"<p class=\"legend\"><svg width=\"14mm\" height=\"4mm\" viewBox=\"0 0 140 40\" aria-hidden=\"true\"><path stroke-width=\"4\" stroke-dasharray=\"30 10\" d=\"M0 20H140\"/><circle class=\"up\" stroke-width=\"2\" cx=\"70\" cy=\"20\" r=\"18\"/></svg> bend up: the flange comes towards the reader &#160; <svg width=\"14mm\" height=\"4mm\" viewBox=\"0 0 140 40\" aria-hidden=\"true\"><path stroke-width=\"4\" stroke-dasharray=\"18 6 3 6\" d=\"M0 20H140\"/><circle class=\"down\" stroke-width=\"2\" cx=\"70\" cy=\"20\" r=\"18\"/></svg> bend down: it goes away &#160; <svg width=\"4mm\" height=\"4mm\" viewBox=\"0 0 40 40\" aria-hidden=\"true\"><path class=\"side-a\" stroke-width=\"3\" d=\"M3 37L37 37L3 3Z\"/></svg> the corner of face 0 on side A, the side that is seen here &#160; <svg width=\"4mm\" height=\"4mm\" viewBox=\"0 0 40 40\" aria-hidden=\"true\"><path class=\"side-b\" stroke-width=\"3\" d=\"M3 37L37 37L3 3Z\"/></svg> the same corner from side B &#160; Lengths in mm. Station 0 is stage 0 of the printed sheets.</p>";

pub const ROW: &[u8] = b"<div class=\"row\">";

pub const DIV_END: &[u8] = b"</div>";

pub const TABLE: &[u8] = b"<table>";

pub const CAPTION: &[u8] = b"<caption>~</caption>";

pub const ORDER_HEAD: &[u8] =
    b"<thead><tr><th scope=\"col\">Stroke</th><th scope=\"col\">Bend</th><th scope=\"col\">Flange</th><th scope=\"col\">Turn</th><th scope=\"col\">At the back</th><th scope=\"col\" class=\"n\">Station</th><th scope=\"col\" class=\"n\">Gauge</th><th scope=\"col\" class=\"n\">Left finger x</th><th scope=\"col\" class=\"n\">Right finger x</th><th scope=\"col\" class=\"n\">Time s</th></tr></thead><tbody>";

pub const ORDER_ROW: &[u8] =
    b"<tr><th scope=\"row\">~</th><td class=\"w\">~</td><td class=\"t\">~</td><td>~</td><td class=\"t\">~</td><td class=\"n\">~</td><td class=\"n\">~</td><td class=\"n\">~</td><td class=\"n\">~</td><td class=\"n\">~</td></tr>";

pub const ORDER_SUM: &[u8] =
    b"<tr><th scope=\"row\" colspan=\"9\">Sum</th><td class=\"n\">~</td></tr>";

pub const FACE_HEAD: &[u8] =
    b"<thead><tr><th scope=\"col\">Face</th><th scope=\"col\">Name</th><th scope=\"col\" class=\"n\">Outside size</th><th scope=\"col\" class=\"n\">x in the blank</th><th scope=\"col\" class=\"n\">y in the blank</th><th scope=\"col\">Bend</th><th scope=\"col\" class=\"n\">Line at</th><th scope=\"col\" class=\"n\">from, to</th></tr></thead><tbody>";

pub const FACE_ROW: &[u8] =
    b"<tr><th scope=\"row\">~</th><td class=\"t\">~</td><td class=\"n\">~ \xc3\x97 ~</td><td class=\"n\">~ to ~</td><td class=\"n\">~ to ~</td><td class=\"w\">~</td><td class=\"n\">~</td><td class=\"n\">~</td></tr>";

pub const REFUSAL_HEAD: &[u8] =
    b"<thead><tr><th scope=\"col\">Bend</th><th scope=\"col\">Flange</th><th scope=\"col\" class=\"how\">How</th><th scope=\"col\">Answer</th></tr></thead><tbody>";

pub const REFUSAL_ROW: &[u8] =
    b"<tr><th scope=\"row\">~</th><td class=\"t\">~</td><td>~</td><td class=\"t\">~</td></tr>";

pub const COUNT_HEAD: &[u8] =
    b"<thead><tr><th scope=\"col\">Bend</th><th scope=\"col\">Flange</th>";

pub const COUNT_KIND: &[u8] = b"<th scope=\"col\" class=\"n\">~</th>";

pub const COUNT_HEAD_END: &[u8] = b"</tr></thead><tbody>";

pub const COUNT_ROW: &[u8] = b"<tr><th scope=\"row\">~</th><td class=\"t\">~</td>";

pub const COUNT: &[u8] = b"<td class=\"n\">~</td>";

pub const COUNT_ROW_END: &[u8] = b"</tr>";

pub const CARD: &[u8] = b"<div class=\"card\">";

pub const CARD_ROW: &[u8] = b"<tr><th scope=\"row\">~</th><td class=\"t\">~</td></tr>";

pub const CARD_TABLE: &[u8] = b"<table><caption>Station ~</caption><tbody>";

pub const TABLE_END: &[u8] = b"</tbody></table>";

pub const FACTS: &[u8] = b"<dl class=\"facts\">";

pub const FACT_TURN: &[u8] = b"<div class=\"turn\"><dt>Turn</dt><dd>";

pub const ICON: &[u8] =
    b"<svg class=\"icon\" width=\"10mm\" height=\"10mm\" viewBox=\"0 0 100 104\" aria-hidden=\"true\">~<text class=\"s\" x=\"0\" y=\"100\">~</text><text class=\"e\" x=\"100\" y=\"100\">~</text></svg>";

pub const FACT_TURN_END: &[u8] = b"<span>~<small>side A ~</small></span></dd></div>";

pub const FACT_BACK: &[u8] = b"<div><dt>At the back</dt><dd>~</dd></div>";

pub const FACT_STATION: &[u8] = b"<div><dt>Station</dt><dd><b>~</b> ~</dd></div>";

pub const FACT_GAUGE: &[u8] = b"<div><dt>Backgauge</dt><dd><b>~</b> mm<small>~</small></dd></div>";

pub const FACT_FINGERS: &[u8] =
    b"<div><dt>Stop fingers at x</dt><dd><span class=\"b\">~</span> and <span class=\"b\">~</span><small>bend line ~ to ~</small></dd></div>";

pub const FACT_TIME: &[u8] =
    b"<div><dt>Time</dt><dd><span class=\"b\">~</span> s<small>~</small></dd></div></dl>";
