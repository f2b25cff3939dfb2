//! The head of a page.
ghost use Rattle.std.specs.Prelude.{◌≡◌, ◌≤◌, ◌^◌, ◌++◌, [], flat_map, pos, ◌*ℤ◌, unsigned_abs, OnOk};
ghost use Rattle.part_file.specs.Part.{part_data};
ghost use Rattle.svg_text.specs.Forms.{line_of};
ghost use Rattle.sheet_page.specs.Head.{style_text, material_line, title_text, head_text};

use crate::forms::{DOCTYPE, HEADING, HTML, MATERIAL, PAGE_TITLE, STYLE_BEGIN, STYLE_END, VERDICT};
use crate::holes::length;
use crate::style::STYLE;
use job_setup::Job;
use part_file::Part;
use sheet_words::name_of;
use std::alloc::AllocError;
use svg_text::{Hole, put_line};

/// The lines of a style.
fn put_style_lines(out: &mut Vec<u8>, lines: &[&str]) -> Result<(), AllocError>
    ensures { OnOk result (out.new.items
        ≡ out.old.items ++ flat_map (λ line. line_of line.now []) lines.now) }
{
    for line in lines {
        put_line(out, line.as_bytes(), &[])?;
    }
    Ok(())
}

/// The style, which is the same on every page.
#[tactic(auto, using(sheet_paper::proofs::Texts::pieces), unfolding(crate::specs::Head::style_text))]
fn put_style(out: &mut Vec<u8>) -> Result<(), AllocError>
    ensures { OnOk result (out.new.items ≡ out.old.items ++ style_text) }
{
    put_line(out, STYLE_BEGIN, &[])?;
    put_style_lines(out, &STYLE)?;
    put_line(out, STYLE_END, &[])
}

/// What the outside sizes lose at a bend, of half of it.
#[tactic(auto, using(sheet_paper::proofs::Texts::pieces))]
fn deduction(q: i64) -> i64
    requires { unsigned_abs q ≤ 2 ^ 40 }
    ensures { result ≡ pos 2 *ℤ q }
{
    2 * q
}

/// The material, the thickness, the inside radius and the deduction.
#[tactic(auto, using(sheet_paper::proofs::Texts::pieces), unfolding(crate::specs::Head::material_line))]
fn put_material(out: &mut Vec<u8>, part: &Part, q: i64) -> Result<(), AllocError>
    requires { unsigned_abs q ≤ 2 ^ 40 }
    ensures { OnOk result (out.new.items ≡ out.old.items ++ material_line (part_data part.now) q) }
{
    let holes = [
        Hole::Text(part.material.as_bytes()),
        length(part.thickness),
        length(part.radius),
        length(deduction(q)),
    ];
    put_line(out, MATERIAL, &holes)
}

/// What comes before the material.
#[tactic(auto, using(sheet_paper::proofs::Texts::pieces), unfolding(crate::specs::Head::title_text))]
fn put_title(out: &mut Vec<u8>, job: &Job, verdict: &[u8]) -> Result<(), AllocError>
    ensures { OnOk result (out.new.items ≡ out.old.items ++ title_text job.now verdict.now) }
{
    let name = name_of(job, 0);
    put_line(out, DOCTYPE, &[])?;
    put_line(out, HTML, &[])?;
    put_line(out, PAGE_TITLE, &[Hole::Text(name), Hole::Text(verdict)])?;
    put_style(out)?;
    put_line(out, HEADING, &[Hole::Text(name)])
}

/// The head of a page: its title, style, the material, the verdict in two sentences, and how many
/// bytes the certificate has, by which paper and file are told apart.
#[tactic(auto, using(sheet_paper::proofs::Texts::pieces), unfolding(crate::specs::Head::head_text))]
pub fn put_head<'a>(
    out: &mut Vec<u8>,
    job: &Job,
    verdict: &'a [u8],
    detail: &'a [u8],
    size: i64,
) -> Result<(), AllocError>
    ensures { OnOk result (out.new.items
        ≡ out.old.items ++ head_text job.now verdict.now detail.now size) }
{
    put_title(out, job, verdict)?;
    put_material(out, job.part(), job.q())?;
    let holes = [Hole::Text(verdict), Hole::Text(detail), Hole::Number(size)];
    put_line(out, VERDICT, &holes)
}
