//! The stations of a page.
ghost use Rattle.std.specs.Prelude.{◌≡◌, ◌+◌, ◌^◌, ◌<◌, ◌++◌, codes, length, OnOk};
ghost use Rattle.job_setup.specs.Near.{IsNearStage};
ghost use Rattle.job_setup.specs.Setup.{stage_data};
ghost use Rattle.tool_library.specs.Tools.{punch_data, die_data};
ghost use Rattle.sheet_words.specs.Lists.{mm};
ghost use Rattle.sheet_page.specs.Stations.{card_row, punch_cell, die_cell, place_cell, added_piece, piece_words, sum_words, pieces_cell, limit_words, force_cell, force_row, use_rows, card_table, IsCard, HasCards, count_words, station_heading, HasBed, HasStations};

use crate::forms::{
    CARD, CARD_ROW, CARD_TABLE, DIV_END, H2_WITH, NEW_PAGE, SECTION, SECTION_END, TABLE_END,
};
use crate::holes::text;
use crate::job_parts::stage_at;
use brake_text::{put_number, put_word};
use job_setup::{Job, Stage};
use sheet_figures::{put_bed, put_card, put_front};
use sheet_words::{put_mm, put_plural};
use std::alloc::AllocError;
use svg_text::{Hole, put_line};
use tool_library::{Die, Punch};

/// The attribute of the section of the cards.
const CARDS: &[u8] = b" class=\"cards flow\"";

const TOOLS_BEAR: &[u8] = b", the tools bear ";

/// A row of a card.
#[tactic(auto, using(sheet_paper::proofs::Texts::pieces))]
fn put_row(out: &mut Vec<u8>, head: &'static [u8], words: &[u8]) -> Result<(), AllocError>
    ensures { OnOk result (out.new.items ≡ out.old.items ++ card_row head.now words.now) }
{
    put_line(out, CARD_ROW, &[text(head), text(words)])
}

/// A punch and its height.
#[tactic(auto, using(sheet_paper::proofs::Texts::pieces), unfolding(crate::specs::Stations::punch_cell))]
fn put_punch_words(out: &mut Vec<u8>, punch: &Punch) -> Result<(), AllocError>
    ensures { OnOk result (out.new.items ≡ out.old.items ++ punch_cell (punch_data punch.now)) }
{
    put_word(out, punch.name.as_bytes())?;
    put_word(out, b", ")?;
    put_mm(out, punch.height)?;
    put_word(out, b" mm high")
}

fn put_punch_row(out: &mut Vec<u8>, punch: &Punch) -> Result<(), AllocError>
    ensures { OnOk result (out.new.items
        ≡ out.old.items ++ card_row (codes "Punch") (punch_cell (punch_data punch.now))) }
{
    let mut words = Vec::new(*out.allocator());
    put_punch_words(&mut words, punch)?;
    put_row(out, b"Punch", words.as_slice())
}

/// A die, its opening and its height.
#[tactic(auto, using(sheet_paper::proofs::Texts::pieces), unfolding(crate::specs::Stations::die_cell))]
fn put_die_words(out: &mut Vec<u8>, die: &Die) -> Result<(), AllocError>
    ensures { OnOk result (out.new.items ≡ out.old.items ++ die_cell (die_data die.now)) }
{
    put_word(out, die.name.as_bytes())?;
    put_word(out, b", V ")?;
    put_mm(out, die.v)?;
    put_word(out, b" mm, ")?;
    put_mm(out, die.height)?;
    put_word(out, b" mm high")
}

fn put_die_row(out: &mut Vec<u8>, die: &Die) -> Result<(), AllocError>
    ensures { OnOk result (out.new.items
        ≡ out.old.items ++ card_row (codes "Die") (die_cell (die_data die.now))) }
{
    let mut words = Vec::new(*out.allocator());
    put_die_words(&mut words, die)?;
    put_row(out, b"Die", words.as_slice())
}

#[tactic(auto, using(sheet_paper::proofs::Texts::pieces))]
fn put_flange_row(out: &mut Vec<u8>, least: i64) -> Result<(), AllocError>
    ensures { OnOk result (out.new.items
        ≡ out.old.items ++ card_row (codes "Least flange") (mm least ++ codes " mm")) }
{
    let mut words = Vec::new(*out.allocator());
    put_mm(&mut words, least)?;
    put_word(&mut words, b" mm")?;
    put_row(out, b"Least flange", words.as_slice())
}

/// Where a stage stands on the bed.
#[tactic(auto, using(sheet_paper::proofs::Texts::pieces), unfolding(crate::specs::Stations::place_cell))]
fn put_place_words(out: &mut Vec<u8>, x0: i64, x1: i64) -> Result<(), AllocError>
    ensures { OnOk result (out.new.items ≡ out.old.items ++ place_cell x0 x1) }
{
    put_word(out, b"x = ")?;
    put_mm(out, x0)?;
    put_word(out, b" to ")?;
    put_mm(out, x1)?;
    put_word(out, b" mm")
}

fn put_place_row(out: &mut Vec<u8>, x0: i64, x1: i64) -> Result<(), AllocError>
    ensures { OnOk result (out.new.items
        ≡ out.old.items ++ card_row (codes "On the bed") (place_cell x0 x1)) }
{
    let mut words = Vec::new(*out.allocator());
    put_place_words(&mut words, x0, x1)?;
    put_row(out, b"On the bed", words.as_slice())
}

/// A piece at a place.
#[tactic(auto, using(sheet_paper::proofs::Texts::pieces), unfolding(crate::specs::Stations::plus_before, crate::specs::Stations::added_piece))]
fn put_piece(out: &mut Vec<u8>, at: usize, piece: i64) -> Result<(), AllocError>
    ensures { OnOk result (out.new.items ≡ out.old.items ++ added_piece at piece) }
{
    if at > 0 {
        put_word(out, b" + ")?;
    }
    put_mm(out, piece)
}

/// The last pieces, from a place on, added up.
#[tactic(auto, using(sheet_paper::proofs::Texts::pieces))]
fn put_last_pieces(out: &mut Vec<u8>, at: usize, pieces: &[i64]) -> Result<(), AllocError>
    requires { at + length pieces.now < 2 ^ 63 }
    ensures { OnOk result (out.new.items ≡ out.old.items ++ piece_words at pieces.now) }
{
    match pieces {
        [] => Ok(()),
        [piece, pieces @ ..] => {
            put_piece(out, at, *piece)?;
            put_last_pieces(out, at + 1, pieces)
        }
    }
}

/// How long so many pieces are together, where there are several.
#[tactic(auto, using(sheet_paper::proofs::Texts::pieces), unfolding(crate::specs::Stations::sum_words))]
fn put_sum(out: &mut Vec<u8>, count: usize, sum: i64) -> Result<(), AllocError>
    ensures { OnOk result (out.new.items ≡ out.old.items ++ sum_words count sum) }
{
    if count <= 1 {
        return Ok(());
    }
    put_word(out, b" = ")?;
    put_mm(out, sum)
}

/// The pieces of a stage that is so long.
#[tactic(auto, using(sheet_paper::proofs::Texts::pieces), unfolding(crate::specs::Stations::pieces_cell))]
fn put_pieces_words(out: &mut Vec<u8>, pieces: &[i64], sum: i64) -> Result<(), AllocError>
    ensures { OnOk result (out.new.items ≡ out.old.items ++ pieces_cell pieces.now sum) }
{
    put_last_pieces(out, 0, pieces)?;
    put_sum(out, pieces.len(), sum)?;
    put_word(out, b" mm")
}

fn put_pieces_row(out: &mut Vec<u8>, pieces: &[i64], sum: i64) -> Result<(), AllocError>
    ensures { OnOk result (out.new.items
        ≡ out.old.items ++ card_row (codes "Pieces") (pieces_cell pieces.now sum)) }
{
    let mut words = Vec::new(*out.allocator());
    put_pieces_words(&mut words, pieces, sum)?;
    put_row(out, b"Pieces", words.as_slice())
}

/// What the tools bear, where that is told.
#[tactic(auto, using(sheet_paper::proofs::Texts::pieces), unfolding(crate::specs::Stations::limit_words))]
fn put_limit(out: &mut Vec<u8>, limit: i64) -> Result<(), AllocError>
    ensures { OnOk result (out.new.items ≡ out.old.items ++ limit_words limit) }
{
    if limit == 0 {
        return Ok(());
    }
    put_word(out, TOOLS_BEAR)?;
    put_number(out, limit)?;
    put_word(out, b" N/mm")
}

/// The load, and what the tools bear.
#[tactic(auto, using(sheet_paper::proofs::Texts::pieces), unfolding(crate::specs::Stations::force_cell))]
fn put_force_words(out: &mut Vec<u8>, load: i64, limit: i64) -> Result<(), AllocError>
    ensures { OnOk result (out.new.items ≡ out.old.items ++ force_cell load limit) }
{
    put_number(out, load)?;
    put_word(out, b" N/mm")?;
    put_limit(out, limit)
}

/// The row of the force, where it is told.
#[tactic(auto, using(sheet_paper::proofs::Texts::pieces), unfolding(crate::specs::Stations::force_row))]
fn put_force_row(out: &mut Vec<u8>, load: i64, limit: i64) -> Result<(), AllocError>
    ensures { OnOk result (out.new.items ≡ out.old.items ++ force_row load limit) }
{
    if load == 0 {
        return Ok(());
    }
    let mut words = Vec::new(*out.allocator());
    put_force_words(&mut words, load, limit)?;
    put_row(out, b"Force", words.as_slice())
}

/// How a stage is used: where it stands, its pieces and its force.
#[tactic(auto, using(sheet_paper::proofs::Texts::pieces), unfolding(crate::specs::Stations::use_rows))]
fn put_use_rows(out: &mut Vec<u8>, stage: &Stage) -> Result<(), AllocError>
    requires { IsNearStage (stage_data stage.now) }
    ensures { OnOk result (out.new.items ≡ out.old.items ++ use_rows (stage_data stage.now)) }
{
    put_place_row(out, stage.x0, stage.x1)?;
    put_pieces_row(out, stage.pieces.as_slice(), stage.x1 - stage.x0)?;
    put_force_row(out, stage.load, stage.limit)
}

/// The table of a card.
#[tactic(auto, using(sheet_paper::proofs::Texts::pieces), unfolding(crate::specs::Stations::card_table))]
fn put_table(out: &mut Vec<u8>, number: u8, stage: &Stage) -> Result<(), AllocError>
    requires { IsNearStage (stage_data stage.now) }
    ensures { OnOk result (out.new.items
        ≡ out.old.items ++ card_table number (stage_data stage.now)) }
{
    put_line(out, CARD_TABLE, &[Hole::Number(i64::from(number))])?;
    put_punch_row(out, &stage.punch)?;
    put_die_row(out, &stage.die)?;
    put_flange_row(out, stage.die.least_flange)?;
    put_use_rows(out, stage)?;
    put_line(out, TABLE_END, &[])
}

/// The card of a station, with its figure.
fn put_station(out: &mut Vec<u8>, job: &Job, number: u8) -> Result<(), AllocError>
    requires { number < length job.now.setup.stages }
    ensures { OnOk result (IsCard job.now number out.old.items out.new.items) }
{
    put_line(out, CARD, &[])?;
    put_card(out, job, number, i64::from(number) + 4)?;
    put_table(out, number, stage_at(job, number))?;
    put_line(out, DIV_END, &[])
}

/// A card for each station.
#[tactic(auto, using(sheet_paper::proofs::Texts::pieces))]
fn put_cards(out: &mut Vec<u8>, job: &Job) -> Result<(), AllocError>
    ensures { OnOk result (HasCards job.now out.old.items out.new.items) }
{
    put_line(out, SECTION, &[Hole::Word(CARDS)])?;
    for number in 0..job.stages() {
        put_station(out, job, number)?;
    }
    put_line(out, SECTION_END, &[])
}

/// How many stations there are.
#[tactic(auto, using(sheet_paper::proofs::Texts::pieces), unfolding(crate::specs::Stations::count_words))]
fn put_count_words(out: &mut Vec<u8>, count: u8) -> Result<(), AllocError>
    ensures { OnOk result (out.new.items ≡ out.old.items ++ count_words count) }
{
    put_plural(out, usize::from(count), b"station")?;
    put_word(out, b" on the bed")
}

/// The heading of so many stations.
#[tactic(auto, using(sheet_paper::proofs::Texts::pieces))]
fn put_heading(out: &mut Vec<u8>, count: u8) -> Result<(), AllocError>
    ensures { OnOk result (out.new.items ≡ out.old.items ++ station_heading count) }
{
    let mut words = Vec::new(*out.allocator());
    put_count_words(&mut words, count)?;
    put_line(
        out,
        H2_WITH,
        &[Hole::Text(b"Stations"), Hole::Text(words.as_slice())],
    )
}

/// The bed and all stations from the front.
#[tactic(auto, using(sheet_paper::proofs::Texts::pieces))]
fn put_bed_section(out: &mut Vec<u8>, job: &Job) -> Result<(), AllocError>
    ensures { OnOk result (HasBed job.now out.old.items out.new.items) }
{
    put_line(out, SECTION, &[Hole::Word(NEW_PAGE)])?;
    put_heading(out, job.stages())?;
    put_bed(out, job, 2)?;
    put_front(out, job, 3)?;
    put_line(out, SECTION_END, &[])
}

/// The stations on the bed, and a card for each.
pub fn put_stations(out: &mut Vec<u8>, job: &Job) -> Result<(), AllocError>
    ensures { OnOk result (HasStations job.now out.old.items out.new.items) }
{
    put_bed_section(out, job)?;
    put_cards(out, job)
}
