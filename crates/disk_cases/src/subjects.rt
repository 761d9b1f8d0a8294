//! What the rows of the tables call.
//!
//! What is left at the end is forgotten and not dropped: the program is short, and the drop is costly to prove.
use crate::entries::call_entries;
use crate::files::FileDisks;
use crate::images::Images;
use crate::logs::Logs;
use crate::memory::MemoryDisks;
use crate::pages::Pages;
use crate::plain::Plain;
use anyhow::bail;
use case_text::Cases;
use std::alloc::Global;

/// What the rows of a table call.
#[derive(Clone, Copy)]
enum Kind {
    Memory,
    Plain,
    File,
    Pages,
    Image,
    Log,
    Record,
}

fn kind_of(name: &str) -> anyhow::Result<Kind> {
    let Some((kind, _)) = name.split_once(": ") else {
        bail!("no kind of table")
    };
    match kind {
        "memory disk" => Ok(Kind::Memory),
        "plain disk" => Ok(Kind::Plain),
        "file disk" => Ok(Kind::File),
        "pages" => Ok(Kind::Pages),
        "image" => Ok(Kind::Image),
        "log" => Ok(Kind::Log),
        "record" => Ok(Kind::Record),
        _ => bail!("no such kind of table"),
    }
}

#[derive(Drop)]
pub struct Subjects<'a> {
    rt: &'a HostRuntime,
    kind: Kind,
    memory: MemoryDisks,
    plain: Plain,
    files: FileDisks,
    pages: Pages,
    images: Images,
    logs: Logs,
}

impl<'a> Subjects<'a> {
    pub fn new(rt: &'a HostRuntime) -> Subjects<'a> {
        Subjects {
            rt,
            kind: Kind::Record,
            memory: MemoryDisks::new(),
            plain: Plain::new(),
            files: FileDisks::new(),
            pages: Pages::new(),
            images: Images::new(),
            logs: Logs::new(),
        }
    }

    // Makes one call, and writes what it answers.
    fn call(&mut self, alloc: Global, out: &mut String, asked: &str) -> anyhow::Result<()> {
        match self.kind {
            Kind::Memory => self.memory.call(alloc, out, asked),
            Kind::Plain => self.plain.call(alloc, out, asked),
            Kind::File => self.files.call(self.rt, out, asked),
            Kind::Pages => self.pages.call(alloc, out, asked),
            Kind::Image => self.images.call(alloc, out, asked),
            Kind::Log => self.logs.call(alloc, out, asked),
            Kind::Record => call_entries(alloc, out, asked),
        }
    }
}

impl Cases for Subjects<'_> {
    fn begin(&mut self, _alloc: Global, name: &str) -> anyhow::Result<()> {
        self.kind = kind_of(name)?;
        Ok(())
    }

    fn give(&mut self, _alloc: Global, _text: &str) -> anyhow::Result<()> {
        bail!("nothing is given")
    }

    fn answer(&mut self, alloc: Global, asked: &str) -> anyhow::Result<String> {
        let mut out = String::new(alloc);
        let mut is_first = true;
        for call in asked.split("; ") {
            out.push_str(if is_first { "" } else { "; " })?;
            is_first = false;
            self.call(alloc, &mut out, call)?;
        }
        Ok(out)
    }
}
