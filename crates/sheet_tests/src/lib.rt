//! Tests of the crates that draw a sheet: its text, words, paper, views, boxes as bodies and figures.
//! They stand above what they test, on public calls.
#![tactic(auto)]

#[cfg(test)]
mod asserts;
#[cfg(test)]
mod box_paint_tests;
#[cfg(test)]
mod first_stroke;
#[cfg(test)]
mod sheet_figures_tests;
#[cfg(test)]
mod sheet_paper_tests;
#[cfg(test)]
mod sheet_views_tests;
#[cfg(test)]
mod sheet_words_tests;
#[cfg(test)]
mod svg_text_tests;
#[cfg(test)]
mod worked;
