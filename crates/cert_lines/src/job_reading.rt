//! The job lines so far: which line may stand next, and what it adds.
ghost use Rattle.std.specs.Prelude.{◌≡◌, ◌<◌, ◌≤◌, length, true};
ghost use Rattle.part_file.specs.Part.{face_data};
ghost use Rattle.job_setup.specs.Setup.{stage_data, bend_count, stage_count};
ghost use Rattle.cert_lines.specs.declared.format.Format.TheVariants.{Version1};
ghost use Rattle.cert_lines.specs.Lines.{part_line, gang_line, fine_line, box_line, load_line};
ghost use Rattle.cert_lines.specs.JobLineReading.{cost_line_of, line_of};
ghost use Rattle.cert_lines.specs.JobLines.{job_lines_data, Takes, no_lines, job_of};
ghost use Rattle.cert_lines.specs.JobFold.{stands_behind, body_of, has_room, with_values, added, added_in, has_line, take, take_line, is_complete};

use crate::begun_values::{begun_die, begun_part, begun_punch, begun_setup, begun_stage};
use crate::format::Format;
use crate::job_line::{CostNumbers, JobLine};
use crate::job_section::JobSection;
use arrayvec::ArrayVec;
use brake_base::{Name, Rect};
use cert_words::{costs_of, fine_of, gang_of};
use job_setup::{Setup, Stage};
use machine_file::bounds::{MOST_BOXES, MOST_FRAMES, MOST_PIECES, MOST_STAGES};
use machine_file::{Costs, Fixed, GaugeRule};
use part_file::{Face, MOST_FACES, Part};
use std::mem;
use tool_library::bounds::MOST_BOXES as MOST_BODY_BOXES;

/// The job lines so far: their format, the section of the last one, the values that they give, the
/// stage that isn't complete yet, and whether no cost is negative, `gang` is 0 or 1, and `fine` is 1
/// to 12.
#[derive(Drop)]
pub struct JobLines {
    pub format: Format,
    pub section: JobSection,
    pub part: Part,
    pub q: i64,
    pub setup: Setup,
    pub stage: Stage,
    pub is_sound: bool,
}

#[tactic(auto, unfolding(crate::specs::JobFold::has_room, crate::specs::JobFold::with_values, crate::specs::JobFold::take, crate::specs::JobFold::take_line), using(crate::proofs::Texts::pieces))]
impl JobLines {
    /// No line but that of the format.
    pub fn new(format: Format) -> JobLines
        ensures { job_lines_data result ≡ no_lines format }
    {
        JobLines {
            format,
            section: JobSection::Start,
            part: begun_part(Name::new(), 0, 0),
            q: 0,
            setup: begun_setup((0, 0)),
            stage: begun_stage(0, 0),
            is_sound: true,
        }
    }

    /// Whether the values so far have room for what the line says.
    fn has_room(&self, line: &JobLine) -> bool
        ensures { result ≡ has_room (job_lines_data self.now) (line_of line.now) }
    {
        let faces = self.part.faces.len();
        let no_lower = self.setup.lower.len() == 0;
        match line {
            JobLine::Face(face) => faces < MOST_FACES && stands_behind(faces, face),
            JobLine::Bed(_) => 0 < faces,
            JobLine::Frame(_) => {
                self.setup.frames.len() < MOST_FRAMES && (self.setup.upper.len() == 0 && no_lower)
            }
            JobLine::Upper(_) => self.setup.upper.len() < MOST_BOXES && no_lower,
            JobLine::Lower(_) => self.setup.lower.len() < MOST_BOXES,
            JobLine::Box(_) => match self.section {
                JobSection::Punch => self.stage.punch.body.len() < MOST_BODY_BOXES,
                _ => self.stage.die.body.len() < MOST_BODY_BOXES,
            },
            JobLine::Stage(_) | JobLine::Pieces(_) | JobLine::Load(_) => {
                self.setup.stages.len() < MOST_STAGES
            }
            _ => true,
        }
    }

    /// The sheet of a part without faces, and the half deduction of its bends.
    fn set_part(&mut self, material: Name, thickness: i64, radius: i64, q: i64)
        ensures { job_lines_data self.new ≡ with_values (job_lines_data self.old)
            (part_line material.bytes thickness radius q) }
    {
        self.part = begun_part(material, thickness, radius);
        self.q = q;
    }

    /// The costs, which make no job where one is negative.
    fn set_costs(&mut self, numbers: CostNumbers)
        ensures { job_lines_data self.new
            ≡ with_values (job_lines_data self.old) (cost_line_of numbers) }
    {
        match costs_of(&numbers) {
            Some(cost) => self.setup.cost = cost,
            None => self.is_sound = false,
        }
    }

    /// Whether there are gangs, which makes no job where it is neither 0 nor 1.
    fn set_gang(&mut self, gang: i64)
        ensures { job_lines_data self.new ≡ with_values (job_lines_data self.old) (gang_line gang) }
    {
        match gang_of(gang) {
            Some(gang) => self.setup.gang = gang,
            None => self.is_sound = false,
        }
    }

    /// How often in a row a piece may be halved, which makes no job where it isn't 1 to 12.
    fn set_fine(&mut self, depth: i64)
        ensures { job_lines_data self.new
            ≡ with_values (job_lines_data self.old) (fine_line depth) }
    {
        match fine_of(depth) {
            Some(fine) => self.setup.fine = fine,
            None => self.is_sound = false,
        }
    }

    /// A box of the tool whose lines are read.
    fn add_box(&mut self, rect: Rect)
        requires { length (body_of self.old.section (stage_data self.old.stage)) < MOST_BODY_BOXES }
        ensures { job_lines_data self.new ≡ with_values (job_lines_data self.old) (box_line rect) }
    {
        match self.section {
            JobSection::Punch => self.stage.punch.body.push(rect),
            _ => self.stage.die.body.push(rect),
        }
    }

    /// The load and the limit of the stage, which is then complete.
    fn end_stage(&mut self, load: i64, limit: i64)
        requires { length self.old.setup.stages.items < MOST_STAGES }
        ensures { job_lines_data self.new
            ≡ with_values (job_lines_data self.old) (load_line load limit) }
    {
        let mut stage = mem::replace(&mut self.stage, begun_stage(0, 0));
        stage.load = load;
        stage.limit = limit;
        self.setup.stages.push(stage);
    }

    /// Adds what the line says.
    fn add(&mut self, line: JobLine)
        requires { has_room (job_lines_data self.old) (line_of line) ≡ true }
        ensures { job_lines_data self.new ≡ added (job_lines_data self.old) (line_of line) }
    {
        self.section = self.section.behind(&line);
        match line {
            JobLine::Part {
                material,
                thickness,
                radius,
                q,
            } => self.set_part(material, thickness, radius, q),
            JobLine::Face(face) => self.part.faces.push(face),
            JobLine::Bed(bed) => self.setup = begun_setup(bed),
            JobLine::Frame(frame) => self.setup.frames.push(frame),
            JobLine::Upper(fixed) => self.setup.upper.push(fixed),
            JobLine::Lower(fixed) => self.setup.lower.push(fixed),
            JobLine::Uncovered(uncovered) => self.setup.uncovered = uncovered,
            JobLine::Gauge(gauge) => self.setup.gauge = gauge,
            JobLine::Cost(costs) => self.set_costs(costs),
            JobLine::Gang(gang) => self.set_gang(gang),
            JobLine::Force(force) => self.setup.force = force,
            JobLine::Fine(depth) => self.set_fine(depth),
            JobLine::Stage(range) => self.stage = begun_stage(range.0, range.1),
            JobLine::Punch { name, height, nose } => {
                self.stage.punch = begun_punch(name, height, nose);
            }
            JobLine::Die {
                name,
                height,
                v,
                least_flange,
            } => self.stage.die = begun_die(name, height, v, least_flange),
            JobLine::Box(rect) => self.add_box(rect),
            JobLine::Pieces(pieces) => self.stage.pieces = pieces,
            JobLine::Load(load) => self.end_stage(load.0, load.1),
        }
    }

    /// Adds what the line says in version 1: of its costs it leaves out that there are no gangs and
    /// no force, and of its pieces that there is no load.
    fn add_old(&mut self, line: JobLine)
        requires { has_room (job_lines_data self.old) (line_of line) ≡ true }
        ensures { job_lines_data self.new
            ≡ added_in Version1 (job_lines_data self.old) (line_of line) }
    {
        match line {
            JobLine::Cost(_) => {
                self.add(line);
                self.add(JobLine::Gang(0));
                self.add(JobLine::Force(0));
            }
            JobLine::Pieces(_) => {
                self.add(line);
                self.add(JobLine::Load((0, 0)));
            }
            _ => self.add(line),
        }
    }

    /// Whether the format has the line: version 1 has neither gangs nor a force, a depth or loads.
    fn has_line(&self, line: &JobLine) -> bool
        ensures { result ≡ has_line self.now.format (line_of line.now) }
    {
        match line {
            JobLine::Gang(_) | JobLine::Force(_) | JobLine::Fine(_) | JobLine::Load(_) => {
                !matches!(self.format, Format::Version1)
            }
            _ => true,
        }
    }

    /// Takes a line, where the format has it, it may stand behind those so far and there is room.
    fn take(&mut self, line: JobLine) -> Option<()>
        ensures { Takes result self.old self.new (take (job_lines_data self.old) (line_of line)) }
    {
        if !self.has_line(&line) || !self.section.admits(&line) || !self.has_room(&line) {
            return None;
        }
        match self.format {
            Format::Version1 => self.add_old(line),
            _ => self.add(line),
        }
        Some(())
    }

    /// Takes a line, where it is a job line that may stand behind those so far. After another line
    /// the values are of no use.
    pub fn take_line(&mut self, text: &[u8]) -> Option<()>
        ensures { Takes result self.old self.new (take_line (job_lines_data self.old) text.now) }
    {
        let line = JobLine::read(text)?;
        self.take(line)
    }

    /// Whether the rules of the machine are complete, and no stage is begun.
    pub fn is_complete(&self) -> bool
        ensures { result ≡ is_complete self.now.section }
    {
        matches!(self.section, JobSection::Rules | JobSection::Stages)
    }

    /// How many bends there are: one for each face but face 0.
    pub fn bends(&self) -> u8
        ensures value { result ≡ bend_count (job_of (job_lines_data self.now)) }
        ensures few { result ≤ 12 }
    {
        (self.part.faces.len() as u8).saturating_sub(1)
    }

    /// How many stages there are.
    pub fn stages(&self) -> u8
        ensures value { result ≡ stage_count (job_of (job_lines_data self.now)) }
    {
        self.setup.stages.len() as u8
    }
}

/// Whether face 0 stands on none, and each other face, of which there are so many, on an earlier
/// one.
fn stands_behind(faces: usize, face: &Face) -> bool
    ensures { result ≡ stands_behind faces (face_data face.now).joint }
{
    match &face.joint {
        None => faces == 0,
        Some(joint) => usize::from(joint.on) < faces,
    }
}
