//! Buffers for values of stored rows, made ahead.
ghost use Rattle.std.specs.Prelude.{◌≡◌, ◌+◌, ◌≤◌, [], length, IfOk, OnOk, vec_capacity};
ghost use Rattle.iv_types.specs.declared.limit.TheConstants.{SEATS, VIEW_ROW_BYTES};

use iv_types::{NoMemory, SEATS, VIEW_ROW_BYTES};
use std::alloc::Global;
use std::marker::Model;

/// Empty buffers, each with room for a stored row. Contracts see how many there are.
#[derive(Drop)]
pub struct Pool {
    buffers: Vec<Vec<u8>>,
}

impl Model for Pool {
    ghost use Rattle.std.specs.Prelude.{ℕ, length};
    ghost use Rattle.std.specs.List.{AllByRecursion};
    ghost use Rattle.ghost_rows.specs.Buffers.{IsBuffer};

    ghost Value = { ℕ };

    ghost view = { λ p. length p.buffers.items };

    ghost invariant = { λ p. AllByRecursion IsBuffer p.buffers.items };
}

impl Pool {
    /// No buffers, which take no memory.
    pub fn new(alloc: Global) -> Pool
        ensures { result ≡ 0 }
    {
        Pool {
            buffers: Vec::new(alloc),
        }
    }

    /// Makes buffers, so that there are at least so many.
    ///
    /// # Errors
    ///
    /// Where there is no memory for them. There are no fewer than before.
    pub fn fill(&mut self, alloc: Global, many: usize) -> Result<(), NoMemory>
        ensures filled { OnOk result (many ≤ self.new) }
        ensures more { self.old ≤ self.new }
    {
        while self.buffers.len() < many {
            let buffer = Vec::with_capacity(alloc, VIEW_ROW_BYTES)?;
            self.buffers.push(buffer)?;
        }
        Ok(())
    }

    /// Takes a buffer; there is one.
    pub fn take(&mut self) -> Vec<u8>
        requires { 1 ≤ self.old }
        ensures left { self.new + 1 ≡ self.old }
        ensures empty { result.items ≡ [] }
        ensures room { VIEW_ROW_BYTES ≤ vec_capacity result }
    {
        self.buffers.pop().unwrap()
    }
}

/// No buffers for any session.
///
/// # Errors
///
/// Where there is no memory for it.
pub fn no_buffers(alloc: Global) -> Result<Vec<Pool>, NoMemory>
    ensures { IfOk result (λ pools. length pools.items ≡ SEATS) }
{
    let mut pools = Vec::new(alloc);
    for _index in 0..SEATS {
        pools.push(Pool::new(alloc))?;
    }
    Ok(pools)
}
