//! The rows that a view showed at a commit number.
ghost use Rattle.std.specs.Prelude.{◌≡◌, ◌≤◌, ◌++◌, ◌∷◌, ℕ, suc, List, Some, None, IsSome, IfOk, OnOk};
ghost use Rattle.std.specs.Option.{option_map};
ghost use Rattle.std.specs.FinMap.{get};
ghost use Rattle.iv_types.specs.Maps.{Entry};
ghost use Rattle.iv_meaning.specs.Database as meaning;
ghost use Rattle.iv_meaning.specs.Schema as schema;
ghost use Rattle.txn_machine.specs.Stored as machine;
ghost use Rattle.ghost_rows.specs.Numbers.{numbers_bytes};
ghost use Rattle.ghost_rows.specs.Kept.{Pays};
ghost use Rattle.ghost_rows.specs.State.{AreKept};
ghost use Rattle.data_store.specs.Contents.{Contents};
ghost use Rattle.data_store.specs.Reading.{CanBeRead};
ghost use Rattle.data_store.specs.Shown.{IsGroupRow, Shows};
ghost use Rattle.data_store.specs.ViewPast as specs;
ghost use Rattle.data_store.specs.ViewPast.{WereViewRows, past_value, past_entries, CanShowAt, CanPeekView};

use crate::shown::{add_shown, is_before};
use crate::store::DataStore;
use ghost_rows::numbers::bytes_of;
use iv_types::{
    Bytes, Catalog, Definition, Interval, Kind, NoMemory, RowList, SortedMaps, ViewDef,
};
use object_kinds::group_kinds;

// The view of an object number that is a view's.
fn view_of(catalog: &Catalog, number: u32) -> &ViewDef
    requires { IsSome (specs.view_of catalog.now number) }
    ensures view { specs.view_of catalog.now number ≡ Some result.now }
    ensures number { result.now.number ≡ number }
{
    match catalog.get(number) {
        Some(Definition::View(view)) => view,
        _ => unreachable!(),
    }
}

impl<M: SortedMaps> DataStore<M> {
    ghost use Rattle.std.specs.FinMap.{entries};
    ghost use Rattle.table_store.specs.Stored.{between};

    // The value of a stored row of a view at a commit number.
    fn view_value_at(&self, number: u64, view: u32, group: &[u8]) -> Result<Option<Bytes>, NoMemory>
        requires kept { self.now.delta_versions.pruned ≤ number }
        requires pays { (many : ℕ) × (pays : Pays) × AreKept self.now.views (M.maps self.now.tables) (view, group.now) (suc many) pays }
        ensures { IfOk result (λ found. (past : machine.ViewRows) → WereViewRows number self.now.delta_versions.versions self.now.views (M.maps self.now.tables) view past
            → found ≡ option_map numbers_bytes (get past (view, group.now))) }
    {
        let maps = self.tables.maps();
        let Some(numbers) = self.views.committed(maps, view, group)? else {
            return Ok(None);
        };
        let now = bytes_of(self.alloc, numbers.as_slice())?;
        self.delta_versions
            .at(self.alloc, number, view, group, Some(now.as_slice()))
    }

    // Adds the row that a view showed at a commit number under the key of an entry, if it did.
    fn add_shown_at(
        &self,
        number: u64,
        view: u32,
        rows: &mut RowList,
        kinds: &[Kind],
        key: &[u8],
    ) -> Result<(), NoMemory>
        requires kept { self.now.delta_versions.pruned ≤ number }
        requires pays { (many : ℕ) × (pays : Pays) × AreKept self.now.views (M.maps self.now.tables) (view, key.now) (suc many) pays }
        requires past { (past : machine.ViewRows) × WereViewRows number self.now.delta_versions.versions self.now.views (M.maps self.now.tables) view past × IsGroupRow kinds.now key.now (past_value past (view, key.now))
            × (get past (view, key.now) ≡ None → ⊥) }
        ensures { OnOk result ((past : machine.ViewRows) → WereViewRows number self.now.delta_versions.versions self.now.views (M.maps self.now.tables) view past → (es : List Entry) (rest : List meaning.Row) → Shows kinds.now es rest
            → (all : List meaning.Row) × (rows.old ++ all ≡ rows.new ++ rest) × Shows kinds.now ((key.now, past_value past (view, key.now)) ∷ es) all) }
    {
        match self.view_value_at(number, view, key)? {
            Some(value) => add_shown(self.alloc, rows, kinds, key, value.as_slice()),
            None => unreachable!(),
        }
    }

    // The rows that a view showed in an interval, where these are the kinds of its group's columns.
    fn rows_shown_at(
        &self,
        number: u64,
        view: u32,
        kinds: &[Kind],
        interval: &Interval,
    ) -> Result<RowList, NoMemory>
        requires kept { self.now.delta_versions.pruned ≤ number }
        requires past { (past : machine.ViewRows) × CanShowAt number self.now.delta_versions.versions self.now.views (M.maps self.now.tables) view kinds.now past }
        ensures { IfOk result (λ rows. (past : machine.ViewRows) → WereViewRows number self.now.delta_versions.versions self.now.views (M.maps self.now.tables) view past
            → Shows kinds.now (past_entries past view (between interval.now (entries (M.maps self.now.tables view)))) rows) }
    {
        let maps = self.tables.maps();
        let mut rows = RowList::new(self.alloc);
        let mut next = maps.first_at(view, interval.low.as_slice());
        while let Some((key, _)) = next {
            if !is_before(key, &interval.high) {
                break;
            }
            self.add_shown_at(number, view, &mut rows, kinds, key)?;
            next = maps.first_after(view, key);
        }
        Ok(rows)
    }

    /// The rows that a view showed in an interval at a commit number, in the order of their groups: those of its stored rows
    /// whose committed count, less what was committed above the number, is not 0. The number is not below what was pruned.
    ///
    /// # Errors
    ///
    /// Where there is no memory for them.
    pub fn shown_at(&self, number: u64, view: u32, interval: &Interval) -> Result<RowList, NoMemory>
        requires kept { self.now.delta_versions.pruned ≤ number }
        requires view { CanPeekView number self.now.delta_versions.versions self.now.catalog (M.maps self.now.tables) self.now.views view }
        ensures { IfOk result (λ rows. (c : Contents) (past : machine.ViewRows) (v : schema.ViewTree) → CanBeRead self.now.catalog (M.maps self.now.tables) self.now.views c
            → WereViewRows number self.now.delta_versions.versions self.now.views (M.maps self.now.tables) view past → machine.AreStored c.objects past
            → schema.numbered c.objects view ≡ Some (schema.view v) → machine.Lists c.objects v interval.now past rows) }
    {
        let definition = view_of(&self.catalog, view);
        let kinds = group_kinds(self.alloc, &self.catalog, definition)?;
        self.rows_shown_at(number, view, kinds.as_slice(), interval)
    }
}
