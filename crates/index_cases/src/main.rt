//! Runs calls of sorted maps over pages, and prints how many rows each table has and which of them answer something else.
//!
//! Each table begins with maps over 512 pages. A key or a value is a text between quotes, with escapes, or `#` and a
//! number, for the key of that INT. `pages COUNT` begins with maps over so many pages. `put INDEX KEY VALUE` sets the value
//! under a key, and `take INDEX KEY` takes an entry away. `get INDEX KEY` answers the value or `none`, `at INDEX KEY` and
//! `after INDEX KEY` the first entry there, `all INDEX` the first nine entries or `nothing`, `used` what all entries count,
//! and `room` how many bytes more they may count. `ints INDEX FIRST LAST BYTES` adds the INTs from the first to the last,
//! with values of so many bytes 7, and `evens INDEX FIRST LAST` takes away the even ones of them. `scattered INDEX COUNT`
//! adds the INTs (181,081 i) mod 524,288 for i below the count with values of 20 bytes, gets every key ten times and walks
//! over all entries; it answers how many were added, how many found, and how many the walk had in rising order. `full INDEX
//! BYTES` adds the INTs from 0 on with values of so many bytes while they are within the limit, and answers how many.
//! `stored INDEX` says that an index is stored, and `published` publishes maps over 512 pages to a new disk in memory and
//! answers for each of its stored pages the index and the number of entries, with `:` between, or `nothing`.
#![tactic(auto)]

mod calls;
mod many;
mod publishing;
mod quiet;

use anyhow::bail;
use calls::call_maps;
use case_text::{Cases, print_cases};
use ordered_index::PageMaps;
use std::alloc::Global;
use std::mem::{forget, replace};

/// How many pages the maps of a table have at first.
const PAGES: u32 = 512;

#[derive(Drop)]
struct Subject {
    maps: Option<PageMaps>,
}

impl Cases for Subject {
    fn begin(&mut self, alloc: Global, _name: &str) -> anyhow::Result<()> {
        forget(replace(&mut self.maps, Some(PageMaps::new(alloc, PAGES)?)));
        Ok(())
    }

    fn give(&mut self, _alloc: Global, _text: &str) -> anyhow::Result<()> {
        bail!("nothing is given")
    }

    fn answer(&mut self, alloc: Global, asked: &str) -> anyhow::Result<String> {
        let mut out = String::new(alloc);
        match &mut self.maps {
            Some(maps) => call_maps(alloc, &mut out, maps, asked)?,
            None => bail!("no maps"),
        }
        Ok(out)
    }
}

fn main(rt: HostRuntime) -> anyhow::Result<()> {
    let mut subject = Subject { maps: None };
    let told = print_cases(&rt, &mut subject);
    forget(subject);
    told
}
