//! How a session stands between two statements.
ghost use Rattle.std.specs.Prelude.{◌≡◌, [], ◌∷◌, drop, Some, OnOk, OnErr, ◌≤◌, ℕ, IfSome};
ghost use Rattle.std.specs.Str.{bytes_eq};
ghost use Rattle.iv_meaning.specs.Objects.{schema_of};
ghost use Rattle.script_law.specs.Programs.{outside_with};
ghost use Rattle.txn_sessions.specs.Kept.{StandsWithin};
ghost use Rattle.txn_sessions.specs.Standings.{marks_of, standing_of, IsFound};

use iv_types::{Bytes, Catalog, Mode, NoMemory};
use std::alloc::Global;
use std::collections::VecDeque;

/// A live savepoint, and how many steps its transaction kept then.
#[derive(Drop)]
pub struct Savepoint {
    pub name: Bytes,
    pub kept: u64,
}

/// Live savepoints, the latest first.
pub type SavepointList = VecDeque<Savepoint>;

/// How a session stands between two statements.
#[derive(Drop)]
pub struct Standing {
    /// The mode of its open transaction, if it has one.
    pub mode: Option<Mode>,
    pub saved: SavepointList,
    /// How many steps its transaction keeps.
    pub kept: u64,
    /// Its copy of the definitions.
    pub catalog: Catalog,
}

fn is_named(savepoint: &Savepoint, name: &Bytes) -> bool
    ensures { result ≡ bytes_eq name.now savepoint.now.name }
{
    name.as_slice() == savepoint.name.as_slice()
}

// The latest savepoint goes.
fn drop_first(saved: &mut SavepointList)
    ensures { saved.new.items ≡ drop 1 saved.old.items }
{
    let _ = saved.pop_front();
}

// So many of the latest savepoints go.
fn drop_some(saved: &mut SavepointList, count: usize)
    ensures { saved.new.items ≡ drop count saved.old.items }
{
    for _ in 0..count {
        drop_first(saved);
    }
}

impl Standing {
    /// No transaction is open, and nothing is known to be defined.
    pub fn new(alloc: Global) -> Standing
        ensures standing { standing_of result ≡ outside_with [] }
        ensures within { StandsWithin 0 result }
    {
        Standing {
            mode: None,
            saved: SavepointList::new(alloc),
            kept: 0,
            catalog: Catalog::new(alloc),
        }
    }

    /// Its transaction has ended.
    pub fn leave(&mut self)
        ensures standing { standing_of self.new ≡ outside_with (schema_of self.old.catalog) }
        ensures within { (n : ℕ) → StandsWithin n self.new }
    {
        self.mode = None;
        self.saved.clear();
        self.kept = 0;
    }

    /// A transaction is open, which keeps no step yet.
    pub fn enter(&mut self, mode: Mode)
        ensures standing { standing_of self.new ≡ record (outside_with (schema_of self.old.catalog)) { mode = Some mode } }
        ensures within { (n : ℕ) → StandsWithin n self.new }
    {
        self.mode = Some(mode);
        self.saved.clear();
        self.kept = 0;
    }

    /// Another copy of the definitions.
    pub fn learn(&mut self, catalog: Catalog)
        ensures standing { self.new ≡ record self.old { catalog = catalog } }
        ensures within { (n : ℕ) → StandsWithin n self.old → StandsWithin n self.new }
    {
        self.catalog = catalog;
    }

    /// Saves the transaction as it is under a name.
    ///
    /// # Errors
    ///
    /// Where there is no memory for it.
    pub fn save(&mut self, name: Bytes) -> Result<(), NoMemory>
        ensures ok { OnOk result (standing_of self.new ≡ record (standing_of self.old) { saved = (name, self.old.kept) ∷ marks_of self.old.saved.items }) }
        ensures err { OnErr result (standing_of self.new ≡ standing_of self.old) }
        ensures within { (n : ℕ) → StandsWithin n self.old → StandsWithin n self.new }
    {
        let kept = self.kept;
        self.saved.push_front(Savepoint { name, kept })?;
        Ok(())
    }

    /// Back to a savepoint: later ones, so many, go, and so many steps are kept.
    #[tactic(auto, using(crate::proofs::Saved::marks_drop))]
    pub fn return_to(&mut self, later: usize, kept: u64)
        ensures standing { standing_of self.new ≡ record (standing_of self.old) { saved = drop later (marks_of self.old.saved.items); kept = kept } }
        ensures within { (n : ℕ) → StandsWithin n self.old → kept ≤ n → StandsWithin n self.new }
    {
        drop_some(&mut self.saved, later);
        self.kept = kept;
    }

    /// The place of the latest savepoint of a name, and how many steps were kept then.
    pub fn find(&self, name: &Bytes) -> Option<(usize, u64)>
        ensures found { IsFound name.now (marks_of self.now.saved.items) result }
        ensures within { (n : ℕ) → StandsWithin n self.now → IfSome result (λ x. x.1 ≤ n) }
    {
        for place in 0..self.saved.len() {
            let savepoint = &self.saved[place];
            if is_named(savepoint, name) {
                return Some((place, savepoint.kept));
            }
        }
        None
    }
}
