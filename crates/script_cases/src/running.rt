//! A script run on a source and a sink in memory.
use disk_io::Disk;
use iv_types::{CallList, Failed, Sequence};
use line_wire::{Line, LineBuffer, ListSink, ListSource, Source, read_line};
use outside::ListOutside;
use std::alloc::Global;
use view_server::{Status, run};

/// The greatest output of a script, in bytes.
pub const ROOM: u64 = 1 << 20;

fn calls(alloc: Global, number: u64) -> anyhow::Result<CallList> {
    let mut numbers = Vec::new(alloc);
    numbers.push(number)?;
    Ok(Sequence::from_vec(numbers))
}

// The words of a text, or none where it says so.
fn words(alloc: Global, texts: &str) -> anyhow::Result<Vec<String>> {
    let mut words = Vec::new(alloc);
    if texts == "no words" {
        return Ok(words);
    }
    for text in texts.split(' ') {
        words.push(String::from_str(alloc, text)?)?;
    }
    Ok(words)
}

fn source(alloc: Global, input: &[u8], failing: u64) -> anyhow::Result<ListSource> {
    let input = input.to_vec(alloc)?;
    Ok(ListSource::new(Sequence::from_vec(input), calls(alloc, failing)?))
}

// An outside without disks, of which this call fails, and this call of its disks.
fn outside(alloc: Global, disk_failing: u64, failing: u64) -> anyhow::Result<ListOutside> {
    Ok(ListOutside::new(
        alloc,
        ROOM,
        calls(alloc, disk_failing)?,
        calls(alloc, failing)?,
    ))
}

/// How a run ended, and what it wrote.
#[derive(Drop)]
pub struct Ended {
    pub status: Status,
    pub written: Vec<u8>,
}

// Runs the program with these words, and keeps what it wrote.
fn run_to_end(
    alloc: Global,
    texts: &str,
    mut source: ListSource,
    mut sink: ListSink,
) -> anyhow::Result<Ended> {
    let words = words(alloc, texts)?;
    let mut outside = outside(alloc, 0, 0)?;
    let status = run(alloc, &words, &mut outside, &mut source, &mut sink);
    let written = sink.written().to_vec(alloc)?;
    Ok(Ended { status, written })
}

/// Runs the program with these words on an input, where these calls of its source and its sink fail (0 for none).
///
/// # Errors
///
/// Where memory is wanting.
pub fn run_words(
    alloc: Global,
    texts: &str,
    input: &[u8],
    read: u64,
    write: u64,
) -> anyhow::Result<Ended> {
    let source = source(alloc, input, read)?;
    let sink = ListSink::new(alloc, ROOM, calls(alloc, write)?)?;
    run_to_end(alloc, texts, source, sink)
}

/// Runs a script of which so many bytes may come.
///
/// # Errors
///
/// Where memory is wanting.
pub fn run_script(alloc: Global, input: &[u8], room: u64) -> anyhow::Result<Ended> {
    let source = source(alloc, input, 0)?;
    let sink = ListSink::new(alloc, room, calls(alloc, 0)?)?;
    run_to_end(alloc, "script -", source, sink)
}

/// Which calls fail, counted from 1; 0 for none.
#[derive(Clone, Copy)]
pub struct Failing {
    pub outside: u64,
    pub disk: u64,
    pub write: u64,
}

/// What came of a new database: how the run ended, and how many bytes the disk of a name has, if one lies there.
#[derive(Drop)]
pub struct Initiated {
    pub ended: Ended,
    pub size: Option<u64>,
    pub faults: u64,
}

/// Runs the program with these words, where the source fails at its first call, and looks for a disk.
///
/// # Errors
///
/// Where memory is wanting.
pub fn run_init(
    alloc: Global,
    texts: &str,
    name: &str,
    failing: Failing,
) -> anyhow::Result<Initiated> {
    let words = words(alloc, texts)?;
    let mut source = source(alloc, b"1: HELLO\n", 1)?;
    let mut sink = ListSink::new(alloc, ROOM, calls(alloc, failing.write)?)?;
    let mut outside = outside(alloc, failing.disk, failing.outside)?;
    let status = run(alloc, &words, &mut outside, &mut source, &mut sink);
    let written = sink.written().to_vec(alloc)?;
    let size = outside.disk(name).map(|disk| disk.size());
    Ok(Initiated {
        ended: Ended { status, written },
        size,
        faults: outside.faults(),
    })
}

// A source that counts how often it is asked, and tells nothing.
#[derive(Drop)]
struct Counting {
    source: ListSource,
    asked: u64,
}

impl Source for Counting {
    ghost use Rattle.std.specs.Prelude.{None};

    ghost left = { λ _. None };

    ghost faults = { λ s. s.source.faults };

    fn take(&mut self, into: &mut [u8]) -> Result<usize, Failed> {
        self.asked = self.asked.saturating_add(1);
        self.source.take(into)
    }
}

/// How a script on this input ends where this call of its sink fails, and how often its source was asked.
///
/// # Errors
///
/// Where memory is wanting.
pub fn asked(alloc: Global, input: &[u8], write: u64) -> anyhow::Result<(Status, u64)> {
    let words = words(alloc, "script -")?;
    let mut source = Counting {
        source: source(alloc, input, 0)?,
        asked: 0,
    };
    let mut sink = ListSink::new(alloc, ROOM, calls(alloc, write)?)?;
    let mut outside = outside(alloc, 0, 0)?;
    let status = run(alloc, &words, &mut outside, &mut source, &mut sink);
    Ok((status, source.asked))
}

/// The first nine lines of an input, each with a bar behind it, and `!` for one that is too long.
///
/// # Errors
///
/// Where memory is wanting.
pub fn lines_read(alloc: Global, input: &[u8]) -> anyhow::Result<Vec<u8>> {
    let mut source = source(alloc, input, 0)?;
    let mut lines = LineBuffer::new(alloc)?;
    let mut read = Vec::new(alloc);
    for _ in 0..9 {
        match read_line(&mut source, &mut lines)? {
            Line::Text => read.extend_from_slice(lines.text())?,
            Line::TooLong => read.push(b'!')?,
            Line::End => return Ok(read),
        }
        read.push(b'|')?;
    }
    Ok(read)
}
