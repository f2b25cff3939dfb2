//! A window on a text that is read in pieces.
ghost use Rattle.std.specs.Prelude.{◌≡◌, ◌⊎◌, ◌↔◌, ◌+◌, ◌-◌, ◌^◌, ◌==◌, ◌<◌, ◌≤◌, ◌++◌, ℕ, List, [], None, length, drop, slice_range, vec_len, position, IfOk, IsTrue, IsFalse, OnOk, IsErrOf};
ghost use Rattle.std.specs.Io.KnownBytes.{Consumes};
ghost use Rattle.brake_io.specs.Rose.{raised, Rose};
ghost use Rattle.brake_io.specs.Meanings.{NoCountFalls, IsLonger, MayFailAt};
ghost use Rattle.brake_io.specs.declared.progress.Progress.TheVariants.{Reading, Ended, Failed, TooLong};
ghost use Rattle.brake_io.specs.Pieces.{WindowState, opened, IsOpened, IsOver, HasEnough, HasLine, HasMore, GoesOn, IsWhole, IsTooLong, IsReadSoFar, IsToldFailed, reads_within, reads_left};

use crate::buffer::{Buffer, CAPACITY};
use crate::progress::Progress;
use crate::reader::Reader;
use crate::shelf::{FetchFault, Shelf};
use std::alloc::{AllocError, Global};
use std::marker::Model;

/// How many bytes are at hand after `fill`, where so many are left.
const AT_HAND: usize = 8192;

/// A text that is read in pieces: what is at hand of it, and then what its reader has still to give,
/// is what is left of the text.
#[derive(Drop)]
pub struct Window<R: Reader + Drop> {
    from: R,
    buffer: Buffer,
    taken: u64,
    limit: u64,
    progress: Progress,
}

impl<R: Reader + Drop> Model for Window<R> {
    ghost Value = { WindowState };

    ghost view = { λ w. record {
      unread = slice_range w.buffer.bytes.items w.buffer.start w.buffer.end;
      taken = w.taken;
      limit = w.limit;
      left = R.left w.from;
      faults = R.faults w.from;
      progress = w.progress;
    } };

    ghost invariant = { λ w. (w.limit + 1 < 2 ^ 64)
        × IsReadSoFar w.progress w.taken w.limit (R.left w.from)
        × IsToldFailed w.progress (R.faults w.from) };
}

/// How far a text is read, and how many bytes of it.
#[derive(Clone, Copy)]
struct ReadSoFar {
    taken: u64,
    progress: Progress,
}

/// How many bytes to ask for where the text may have so many more: one more at most.
fn wanted(room: u64) -> usize
    ensures some { 0 < result }
    ensures few { result ≤ 262144 }
    ensures within { result ≤ room + 1 }
{
    if room < CAPACITY as u64 {
        room as usize + 1
    } else {
        CAPACITY
    }
}

/// Reads once, behind what the buffer holds, of a text of which so many bytes were read: at most
/// one byte more than its limit.
fn read_into<R: Reader>(buffer: &mut Buffer, from: &mut R, taken: u64, limit: u64) -> ReadSoFar
    requires room { length (slice_range buffer.old.bytes.items buffer.old.start buffer.old.end)
        < vec_len buffer.old.bytes }
    requires within { taken ≤ limit }
    requires limit { limit + 1 < 2 ^ 64 }
    requires no_fault { R.faults from.old ≡ 0 }
    ensures bytes { (piece : List ℕ) × (result.taken ≡ taken + length piece)
        × (slice_range buffer.new.bytes.items buffer.new.start buffer.new.end
        ≡ slice_range buffer.old.bytes.items buffer.old.start buffer.old.end ++ piece)
        × Consumes (R.left from.old) (R.left from.new) piece }
    ensures known { IsReadSoFar result.progress result.taken limit (R.left from.new) }
    ensures told { IsToldFailed result.progress (R.faults from.new) }
    ensures nearer { reads_within result.progress (limit - result.taken)
        < reads_within Reading (limit - taken) }
    ensures more { result.progress ≡ Reading → taken < result.taken }
{
    let came = buffer.append_from(from, wanted(limit - taken));
    let taken = taken + came.unwrap_or(0) as u64;
    let progress = match came {
        Some(0) => Progress::Ended,
        Some(_) if taken <= limit => Progress::Reading,
        Some(_) => Progress::TooLong,
        None => Progress::Failed,
    };
    ReadSoFar { taken, progress }
}

/// Where the first line feed stands.
fn first_line_feed(bytes: &[u8]) -> Option<usize>
    ensures { result ≡ position (λ byte. byte == 10) bytes.now }
{
    bytes.iter().position(|byte| *byte == b'\n')
}

impl<R: Reader + Drop> Window<R> {
    /// A window on all that the reader gives, of which nothing is read yet and no read has failed.
    /// The text may have so many bytes.
    pub fn open(alloc: Global, from: R, limit: u64) -> Result<Window<R>, AllocError>
        requires limit { limit + 1 < 2 ^ 64 }
        requires no_fault { R.faults from ≡ 0 }
        ensures { IfOk result (λ window. window ≡ opened limit (R.left from)) }
    {
        Ok(Window {
            from,
            buffer: Buffer::new(alloc)?,
            taken: 0,
            limit,
            progress: Progress::Reading,
        })
    }

    /// The bytes at hand.
    pub fn unread(&self) -> &[u8]
        ensures { result.now ≡ self.now.unread }
    {
        self.buffer.as_slice()
    }

    /// How far the text is read.
    pub fn progress(&self) -> Progress
        ensures value { result ≡ self.now.progress }
        ensures known { IsReadSoFar result self.now.taken self.now.limit self.now.left }
        ensures told { IsToldFailed result self.now.faults }
    {
        self.progress
    }

    /// Whether nothing more will come to hand.
    pub fn is_over(&self) -> bool
        ensures { IsTrue result ↔ IsOver self.now }
    {
        !matches!(self.progress(), Progress::Reading)
    }

    /// Whether fewer bytes are at hand than these, and more may come.
    fn wants_more(&self, count: usize) -> bool
        ensures reading { IsTrue result → self.now.progress ≡ Reading }
        ensures few { IsTrue result → length self.now.unread < count }
        ensures enough { IsFalse result → (count ≤ length self.now.unread) ⊎ IsOver self.now }
    {
        match self.progress() {
            Progress::Reading => self.unread().len() < count,
            _ => false,
        }
    }

    /// Passes the first of the bytes at hand.
    pub fn pass(&mut self, count: usize)
        requires { count ≤ length self.old.unread }
        ensures { self.new ≡ record self.old { unread = drop count self.old.unread } }
    {
        self.buffer.pass(count);
    }

    /// Passes all bytes at hand.
    fn pass_all(&mut self)
        ensures { self.new ≡ record self.old { unread = [] } }
    {
        self.buffer.clear();
    }

    /// Reads once, at most one byte more than the limit.
    fn read_once(&mut self)
        requires reading { self.old.progress ≡ Reading }
        requires room { length self.old.unread < 262144 }
        ensures goes_on { GoesOn self.old self.new }
        ensures nearer { reads_left self.new < reads_left self.old }
    {
        let so_far = read_into(&mut self.buffer, &mut self.from, self.taken, self.limit);
        self.taken = so_far.taken;
        self.progress = so_far.progress;
    }

    /// Reads once, at most one byte more than the limit, into more memory where the buffer is full.
    fn read_more(&mut self, alloc: Global) -> Result<(), AllocError>
        requires reading { self.old.progress ≡ Reading }
        ensures goes_on { GoesOn self.old self.new }
        ensures nearer { OnOk result (reads_left self.new < reads_left self.old) }
        ensures more { OnOk result (HasMore self.old self.new) }
    {
        self.buffer.make_room(alloc)?;
        let so_far = read_into(&mut self.buffer, &mut self.from, self.taken, self.limit);
        self.taken = so_far.taken;
        self.progress = so_far.progress;
        Ok(())
    }

    /// Reads on until enough of the text is at hand.
    pub fn fill(&mut self)
        ensures goes_on { GoesOn self.old self.new }
        ensures enough { HasEnough self.new }
    {
        while self.wants_more(AT_HAND) {
            self.read_once();
        }
    }

    /// Whether a line feed and a byte behind it are at hand, from a place on.
    fn is_line_at_hand(&self, from: usize) -> bool
        ensures { IsTrue result → HasLine self.now }
    {
        let unread = self.unread();
        let tail = &unread[from.min(unread.len())..];
        match first_line_feed(tail) {
            Some(at) => at + 1 < tail.len(),
            None => false,
        }
    }

    /// Whether no line feed with a byte behind it is at hand from a place on, and more may come.
    fn wants_line(&self, from: usize) -> bool
        ensures reading { IsTrue result → self.now.progress ≡ Reading }
        ensures line { IsFalse result → HasLine self.now }
    {
        match self.progress() {
            Progress::Reading => !self.is_line_at_hand(from),
            _ => false,
        }
    }

    /// Reads on until a whole line and a byte behind it are at hand, or all that comes. A line that is
    /// longer than the buffer takes more memory; each byte is looked at once.
    pub fn fill_line(&mut self, alloc: Global) -> Result<(), AllocError>
        ensures goes_on { GoesOn self.old self.new }
        ensures line { OnOk result (HasLine self.new) }
    {
        let mut from = 0;
        while self.wants_line(from) {
            from = self.unread().len().saturating_sub(1);
            self.read_more(alloc)?;
        }
        Ok(())
    }

    /// Reads on until more than twice as much is at hand as was, or all that comes. Where the buffer is
    /// full that takes more memory.
    pub fn fill_more(&mut self, alloc: Global) -> Result<(), AllocError>
        ensures goes_on { GoesOn self.old self.new }
        ensures more { OnOk result (HasMore self.old self.new) }
        ensures nearer { OnOk result (¬ IsOver self.old →
            reads_left self.new < reads_left self.old) }
    {
        let count = 2 * self.unread().len() + 1;
        while self.wants_more(count) {
            self.read_more(alloc)?;
        }
        Ok(())
    }

    /// Reads on to the end, and says whether the whole text is within its limit.
    pub fn finish(&mut self) -> Result<(), FetchFault>
        ensures whole { OnOk result (IsWhole self.old) }
        ensures failed { IsErrOf result FetchFault.Failed → self.old.left ≡ None }
        ensures longer { IsErrOf result FetchFault.TooLong → IsTooLong self.old }
        ensures no_memory { ¬ IsErrOf result FetchFault.NoMemory }
        ensures told_failed { IsErrOf result FetchFault.Failed → self.new.progress ≡ Failed }
        ensures told_longer { IsErrOf result FetchFault.TooLong → self.new.progress ≡ TooLong }
        ensures told_ended { OnOk result (self.new.progress ≡ Ended) }
        ensures no_fault { OnOk result (self.new.faults ≡ 0) }
    {
        loop {
            match self.progress() {
                Progress::Reading => {
                    self.pass_all();
                    self.read_once();
                }
                Progress::Ended => return Ok(()),
                Progress::Failed => return Err(FetchFault::Failed),
                Progress::TooLong => return Err(FetchFault::TooLong),
            }
        }
    }
}

/// A window on the bytes under `name`, which are read in pieces: what `fetch` gives, once it is
/// closed. A name that is not held is a fault.
pub fn open_window<H: Shelf>(
    alloc: Global,
    shelf: &mut H,
    name: &str,
    limit: u64,
) -> Result<Window<H::File>, FetchFault>
    requires { limit + 1 < 2 ^ 64 }
    ensures content { (H.state shelf.new).content ≡ (H.state shelf.old).content }
    ensures calls { (H.state shelf.new).calls ≡ raised (H.state shelf.old).calls }
    ensures window { IfOk result (IsOpened (H.state shelf.old) name.now limit) }
    ensures failed { IsErrOf result FetchFault.Failed →
        Rose (H.state shelf.old).faults (H.state shelf.new).faults }
    ensures cause { IsErrOf result FetchFault.Failed →
        MayFailAt name.now (H.state shelf.old) (H.state shelf.new) }
    ensures longer { IsErrOf result FetchFault.TooLong →
        IsLonger (H.state shelf.old) name.now limit }
    ensures too_long { IsErrOf result FetchFault.TooLong →
        (H.state shelf.new).longs ≡ raised (H.state shelf.old).longs }
    ensures never_falls { NoCountFalls (H.state shelf.old) (H.state shelf.new) }
    ensures faults { ¬ IsErrOf result FetchFault.Failed →
        (H.state shelf.new).faults ≡ (H.state shelf.old).faults }
    ensures longs { ¬ IsErrOf result FetchFault.TooLong →
        (H.state shelf.new).longs ≡ (H.state shelf.old).longs }
{
    let file = shelf.open(alloc, name, limit)?;
    Ok(Window::open(alloc, file, limit)?)
}

/// Reads a text to its end, and says whether it was read whole, without a read that failed, and is
/// within its limit. The outside may fail as long as it is read; a text that is told can't.
pub fn close_window<H: Shelf>(shelf: &mut H, window: &mut Window<H::File>) -> Result<(), FetchFault>
    ensures content { (H.state shelf.new).content ≡ (H.state shelf.old).content }
    ensures calls { (H.state shelf.new).calls ≡ (H.state shelf.old).calls }
    ensures whole { OnOk result (IsWhole window.old) }
    ensures failed { IsErrOf result FetchFault.Failed →
        Rose (H.state shelf.old).faults (H.state shelf.new).faults }
    ensures cause { IsErrOf result FetchFault.Failed → window.old.left ≡ None }
    ensures longer { IsErrOf result FetchFault.TooLong → IsTooLong window.old }
    ensures too_long { IsErrOf result FetchFault.TooLong →
        (H.state shelf.new).longs ≡ raised (H.state shelf.old).longs }
    ensures no_fault { OnOk result (window.new.faults ≡ 0) }
    ensures no_memory { ¬ IsErrOf result FetchFault.NoMemory }
    ensures never_falls { NoCountFalls (H.state shelf.old) (H.state shelf.new) }
    ensures faults { ¬ IsErrOf result FetchFault.Failed →
        (H.state shelf.new).faults ≡ (H.state shelf.old).faults }
    ensures longs { ¬ IsErrOf result FetchFault.TooLong →
        (H.state shelf.new).longs ≡ (H.state shelf.old).longs }
{
    let outcome = window.finish();
    if let Err(fault) = outcome {
        shelf.count_fault(fault);
    }
    outcome
}
