//! The program `iv`: it makes the real outside, source and sink, and `view_server::run` does the rest.
#![tactic(auto)]

mod real;

use iv_types::NoMemory;
use line_wire::{StdSink, StdSource};
use real::RealOutside;
use std::env;
use std::io::ErrorKind;
use std::process::ExitCode;
use view_server::{Status, run};

// The words behind the program's name. Words that are no text count as none, and so are no command.
fn words(rt: &HostRuntime) -> Result<Vec<String>, NoMemory> {
    let mut words = Vec::new(rt.alloc());
    match env::args(rt) {
        Ok(all) => {
            for word in all.skip(1) {
                words.push(word)?;
            }
        }
        Err(error) => {
            if error.kind() == ErrorKind::OutOfMemory {
                return Err(NoMemory);
            }
        }
    }
    Ok(words)
}

fn main(rt: HostRuntime) -> ExitCode {
    let status = match words(&rt) {
        Ok(words) => {
            let mut outside = RealOutside::new(&rt);
            let mut source = StdSource::new(rt.stdin());
            let mut sink = StdSink::new(rt.stdout());
            run(rt.alloc(), &words, &mut outside, &mut source, &mut sink)
        }
        Err(NoMemory) => Status::NoMemory,
    };
    ExitCode::from(status.code())
}
