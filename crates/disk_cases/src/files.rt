//! A disk in a file, which stands in the folder in which the program runs.
//!
//! `create BYTES` and `open` make the disk, `shorten BYTES` cuts its file, and `remove` removes that. Beside these there are
//! `faults` and the calls of any disk.
use crate::calls::{call_disk, write_done};
use anyhow::bail;
use case_text::first_word;
use disk_io::FileDisk;
use iv_types::Failed;
use std::fmt::Write;
use std::fs;
use std::fs::OpenOptions;
use std::mem::{forget, replace};

const PATH: &str = "disk_cases_file";

#[derive(Drop)]
pub struct FileDisks {
    disk: Option<FileDisk>,
}

fn shorten(rt: &HostRuntime, bytes: u64) -> anyhow::Result<()> {
    let file = OpenOptions::new().write(true).open(rt, PATH)?;
    file.set_len(bytes)?;
    Ok(())
}

fn call_kept(
    rt: &HostRuntime,
    out: &mut String,
    disk: &mut Option<FileDisk>,
    asked: &str,
) -> anyhow::Result<()> {
    match disk {
        Some(disk) => {
            if asked == "faults" {
                let faults = disk.faults();
                write!(out, "{faults}")?;
                return Ok(());
            }
            call_disk(rt.alloc(), out, disk, asked)
        }
        None => bail!("no disk"),
    }
}

impl FileDisks {
    pub fn new() -> FileDisks {
        FileDisks { disk: None }
    }

    // Keeps a disk that was made, in place of the one before, which stays open.
    fn keep(&mut self, out: &mut String, made: Result<FileDisk, Failed>) -> anyhow::Result<()> {
        match made {
            Ok(disk) => {
                forget(replace(&mut self.disk, Some(disk)));
                write_done(out, true)
            }
            Err(Failed) => write_done(out, false),
        }
    }

    pub fn call(&mut self, rt: &HostRuntime, out: &mut String, asked: &str) -> anyhow::Result<()> {
        let (call, rest) = first_word(asked);
        match call {
            "create" => self.keep(out, FileDisk::create(rt, PATH, rest.parse::<u64>()?)),
            "open" => self.keep(out, FileDisk::open(rt, PATH)),
            "shorten" => {
                shorten(rt, rest.parse::<u64>()?)?;
                write_done(out, true)
            }
            "remove" => {
                fs::remove_file(rt, PATH)?;
                write_done(out, true)
            }
            _ => call_kept(rt, out, &mut self.disk, asked),
        }
    }
}
