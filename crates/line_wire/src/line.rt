//! The lines of a source, read in bounded memory.
ghost use Rattle.std.specs.Prelude.{◌≡◌, ◌<◌, ◌≤◌, ◌^◌, ◌+◌, ◌-◌, ◌∷◌, ◌++◌, ◌⊎◌, ℕ, List, [], length, take, nat_lt, true, false, IfSome, IfNone, IfOk, OnOk, OnErr, MatchBool, Option, if◌then◌else◌, ◌==◌, ◌≢◌, ◌↔◌, IsTrue, vec_capacity};
ghost use Rattle.iv_types.specs.Faults.{CountsFault};
ghost use Rattle.iv_meaning.specs.Lines.{after_line, longest_line};
ghost use Rattle.line_wire.specs.Wire.{Gives, most_bytes};
ghost use Rattle.line_wire.specs.Reading.{most_kept, before_lf, DropsReturn, lines_left};
ghost use Rattle.line_wire.specs.Found.{Found, Filled, Took, Nearer, CountsReadFault};

use crate::Source;
use iv_types::{Failed, NoMemory};
use memchr::memchr;
use std::alloc::Global;
use std::marker::Model;
use thiserror::Error;

/// The most bytes of a line that is read.
pub const LONGEST_LINE: usize = 65536;

// The most bytes of a line that are kept: a CR may stand behind those of the longest line.
const MOST_KEPT: usize = 65537;

/// The most bytes that are taken from a source.
pub const MOST_BYTES: u64 = 1 << 40;

// How many bytes are asked of a source at once.
const CHUNK: usize = 65536;

/// What was read.
#[derive(Clone, Copy, Debug, PartialEq, Eq)]
pub enum Line {
    /// A line, which `LineBuffer::text` gives without its end: a LF, and a CR directly before it. The last line may lack
    /// its LF, and a CR at its end is its own then.
    Text,
    /// A line of more than `LONGEST_LINE` bytes without its end, which was skipped up to its end.
    TooLong,
    /// The end of the input.
    End,
}

/// Why no line was read.
#[derive(Clone, Copy, Debug, PartialEq, Eq, Error)]
pub enum LineFault {
    #[error("the source failed")]
    ReadFault,
    /// `MOST_BYTES` were taken from the source, and no whole line of them is left.
    #[error("the input is too long")]
    TooMuch,
}

/// The bytes that were taken from a source and not yet read, and the line that was read last. All its memory is taken
/// when it is made.
#[derive(Drop)]
pub struct LineBuffer {
    chunk: Vec<u8>,
    at: usize,
    end: usize,
    taken: u64,
    text: Vec<u8>,
}

impl Model for LineBuffer {
    ghost use Rattle.std.specs.Prelude.{take, drop, ◌≤◌, ◌≡◌, ◌^◌, length, vec_capacity};
    ghost use Rattle.line_wire.specs.Reading.{Reading};

    ghost Value = { Reading };

    ghost view = { λ b. record { held = drop b.at (take b.end b.chunk.items); taken = b.taken; text = b.text.items } };

    ghost use Rattle.line_wire.specs.Kept.{IsKept};

    ghost invariant = { IsKept };
}

// The place of the first LF.
fn line_end(held: &[u8]) -> Option<usize>
    ensures some { IfSome result (λ place. (held.now ≡ before_lf held.now ++ 10 ∷ after_line held.now) × (place ≡ length (before_lf held.now))) }
    ensures none { IfNone result (before_lf held.now ≡ held.now) }
{
    memchr(b'\n', held)
}

impl LineBuffer {
    /// A buffer for a source of which nothing was taken.
    pub fn new(alloc: Global) -> Result<Self, NoMemory>
        ensures held { IfOk result (λ buffer. buffer.held ≡ []) }
        ensures taken { IfOk result (λ buffer. buffer.taken ≡ 0) }
        ensures text { IfOk result (λ buffer. buffer.text ≡ []) }
    {
        Ok(LineBuffer {
            chunk: vec![in alloc; 0; CHUNK]?,
            at: 0,
            end: 0,
            taken: 0,
            text: Vec::with_capacity(alloc, MOST_KEPT)?,
        })
    }

    /// The line that was read last.
    pub fn text(&self) -> &[u8]
        ensures { result.now ≡ self.now.text }
    {
        &self.text
    }

    /// Whether the LF of the next line is held, so that it is read without asking the source.
    pub fn holds_line(&self) -> bool
        ensures { IsTrue result ↔ (before_lf self.now.held ≢ self.now.held) }
    {
        line_end(&self.chunk[self.at..self.end]).is_some()
    }

    // How many bytes were taken.
    fn taken(&self) -> u64
        ensures value { result ≡ self.now.taken }
        ensures most { result ≤ most_bytes }
    {
        self.taken
    }

    // Begins a line.
    fn begin(&mut self)
        ensures held { self.new.held ≡ self.old.held }
        ensures taken { self.new.taken ≡ self.old.taken }
        ensures most { self.new.taken ≤ most_bytes }
        ensures text { self.new.text ≡ [] }
    {
        self.text.clear();
    }

    // Moves what is held of a line to the text, and answers whether its LF was there.
    fn gather(&mut self, long: &mut bool) -> bool
        ensures end { MatchBool result (self.old.held ≡ before_lf self.old.held ++ 10 ∷ self.new.held) ((before_lf self.old.held ≡ self.old.held) × (self.new.held ≡ [])) }
        ensures text { long.new ≡ false → (long.old ≡ false) × (self.new.text ≡ self.old.text ++ before_lf self.old.held) }
        ensures long { long.new ≡ true → (long.old ≡ true) ⊎ (most_kept < length self.old.text + length (before_lf self.old.held)) }
        ensures short { length self.new.text ≤ most_kept }
        ensures grows { length self.new.text ≤ length self.old.text + length (before_lf self.old.held) }
        ensures taken { self.new.taken ≡ self.old.taken }
    {
        let held = &self.chunk[self.at..self.end];
        match line_end(held) {
            Some(place) => {
                *long = append(&mut self.text, &held[..place], *long);
                self.at += place + 1;
                true
            }
            None => {
                *long = append(&mut self.text, held, *long);
                self.at = self.end;
                false
            }
        }
    }

    // Ends a line of which the LF was read.
    fn finish(&mut self, long: bool) -> Line
        ensures line { result ≡ (if long then Line.TooLong else (if nat_lt longest_line (length self.new.text) then Line.TooLong else Line.Text)) }
        ensures text { DropsReturn self.old.text self.new.text }
        ensures held { self.new.held ≡ self.old.held }
        ensures taken { self.new.taken ≡ self.old.taken }
    {
        drop_return(&mut self.text);
        whole(&self.text, long)
    }

    // Takes bytes from the source where none is held, and answers how many: none at the end of the input.
    fn fill<S: Source>(&mut self, source: &mut S) -> Result<usize, Failed>
        requires used { self.old.held ≡ [] }
        requires room { self.old.taken < most_bytes }
        ensures filled { (bytes : List ℕ) → S.left source.old ≡ Some bytes → IfOk result (λ count. Filled bytes count self.old.taken self.new (S.left source.new)) }
        ensures nothing { (bytes : List ℕ) → S.left source.old ≡ Some bytes → OnErr result (S.left source.new ≡ Some bytes) }
        ensures taken { IfOk result (λ count. self.new.taken ≡ self.old.taken + count) }
        ensures held { IfOk result (λ count. length self.new.held ≡ count) }
        ensures most { self.new.taken ≤ most_bytes }
        ensures text { self.new.text ≡ self.old.text }
        ensures err { OnErr result ((self.new.held ≡ []) × (self.new.taken ≡ self.old.taken)) }
        ensures fault { CountsFault result (S.faults source.old) (S.faults source.new) }
    {
        let room = self.chunk.len().min((MOST_BYTES - self.taken) as usize);
        self.at = 0;
        self.end = 0;
        let count = take_front(source, &mut self.chunk, room)?;
        self.end = count;
        self.taken += count as u64;
        Ok(count)
    }
}

// Adds a piece of a line to its text unless more than that is kept then. Answers whether the line is too long.
fn append(text: &mut Vec<u8>, piece: &[u8], long: bool) -> bool
    requires short { length text.old.items ≤ most_kept }
    requires room { most_kept ≤ vec_capacity text.old }
    ensures text { result ≡ false → (long ≡ false) × (text.new.items ≡ text.old.items ++ piece.now) }
    ensures long { result ≡ true → (long ≡ true) ⊎ (most_kept < length text.old.items + length piece.now) }
    ensures short { length text.new.items ≤ most_kept }
    ensures grows { length text.new.items ≤ length text.old.items + length piece.now }
    ensures room { most_kept ≤ vec_capacity text.new }
{
    if long || piece.len() > MOST_KEPT - text.len() {
        return true;
    }
    text.extend_from_slice(piece).unwrap();
    false
}

// Takes at most so many bytes to the front of a chunk.
fn take_front<S: Source>(source: &mut S, chunk: &mut [u8], room: usize) -> Result<usize, Failed>
    requires within { room ≤ length chunk.old }
    requires some { 0 < room }
    ensures count { IfOk result (λ count. count ≤ room) }
    ensures bytes { (bytes : List ℕ) → S.left source.old ≡ Some bytes → IfOk result (λ count. Gives bytes count chunk.new (S.left source.new)) }
    ensures nothing { (bytes : List ℕ) → S.left source.old ≡ Some bytes → OnErr result (S.left source.new ≡ Some bytes) }
    ensures length { length chunk.new ≡ length chunk.old }
    ensures fault { CountsFault result (S.faults source.old) (S.faults source.new) }
{
    source.take(&mut chunk[..room])
}

// Whether the last byte is a CR.
fn ends_with_return(text: &[u8]) -> bool
    ensures { MatchBool result (text.now ≡ take (length text.now - 1) text.now ++ 13 ∷ []) ((front : List ℕ) → text.now ≢ front ++ 13 ∷ []) }
{
    let size = text.len();
    size > 0 && text[size - 1] == b'\r'
}

// Drops a CR at the end.
fn drop_return(text: &mut Vec<u8>)
    ensures text { DropsReturn text.old.items text.new.items }
    ensures room { vec_capacity text.new ≡ vec_capacity text.old }
{
    if ends_with_return(text) {
        let _ = text.pop();
    }
}

// Whether a line of which these bytes were kept, or of which more bytes came, is too long.
fn is_too_long(text: &[u8], long: bool) -> bool
    ensures { result ≡ (if long then true else nat_lt longest_line (length text.now)) }
{
    long || text.len() > LONGEST_LINE
}

// What a line is that was read to its LF.
fn whole(text: &[u8], long: bool) -> Line
    ensures { result ≡ (if long then Line.TooLong else (if nat_lt longest_line (length text.now) then Line.TooLong else Line.Text)) }
{
    if is_too_long(text, long) {
        return Line::TooLong;
    }
    Line::Text
}

// What stands at the end of the input.
fn last(text: &[u8], long: bool) -> Line
    ensures { result ≡ (if long then Line.TooLong else (if nat_lt longest_line (length text.now) then Line.TooLong else (if length text.now == 0 then Line.End else Line.Text))) }
{
    if is_too_long(text, long) {
        return Line::TooLong;
    }
    if text.is_empty() {
        Line::End
    } else {
        Line::Text
    }
}

/// Reads the next line of a source, of which the buffer holds what was taken already.
///
/// `ReadFault` comes only where the source failed, and what was begun of the line, in which no LF is, is lost then;
/// `TooMuch` exactly where all the bytes that may be taken were taken and no LF is left among them.
pub fn read_line<S: Source>(source: &mut S, kept: &mut LineBuffer) -> Result<Line, LineFault>
    // Where the source tells what is left, this is the first line of what is ahead.
    ensures found { (bytes : List ℕ) → S.left source.old ≡ Some bytes → Found result (kept.old.held ++ bytes) kept.old.taken (length bytes) kept.new (S.left source.new) }
    ensures took { Took result kept.new.taken }
    ensures nearer { Nearer result (lines_left kept.old) (lines_left kept.new) }
    ensures fault { CountsReadFault result (S.faults source.old) (S.faults source.new) }
{
    kept.begin();
    let mut long = false;
    loop {
        if kept.gather(&mut long) {
            return Ok(kept.finish(long));
        }
        if kept.taken() == MOST_BYTES {
            return Err(LineFault::TooMuch);
        }
        let Ok(count) = kept.fill(source) else {
            return Err(LineFault::ReadFault);
        };
        if count == 0 {
            return Ok(last(kept.text(), long));
        }
    }
}
