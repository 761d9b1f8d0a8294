//! A disk in memory that keeps its bytes alone. `new BYTES` makes it, and it has the calls of any disk.
use crate::calls::call_disk;
use anyhow::bail;
use case_text::first_word;
use disk_io::PlainDisk;
use std::alloc::Global;
use std::mem::{forget, replace};

#[derive(Drop)]
pub struct Plain {
    disk: Option<PlainDisk>,
}

impl Plain {
    pub fn new() -> Plain {
        Plain { disk: None }
    }

    pub fn call(&mut self, alloc: Global, out: &mut String, asked: &str) -> anyhow::Result<()> {
        let (call, rest) = first_word(asked);
        if call == "new" {
            let disk = PlainDisk::new(alloc, rest.parse::<u64>()?)?;
            forget(replace(&mut self.disk, Some(disk)));
            out.push_str("made")?;
            return Ok(());
        }
        match &mut self.disk {
            Some(disk) => call_disk(alloc, out, disk, asked),
            None => bail!("no disk"),
        }
    }
}
