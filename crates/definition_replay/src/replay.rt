//! The record of a definition.
ghost use Rattle.std.specs.Prelude.{◌≡◌, true, false, None, IfOk};
ghost use Rattle.iv_meaning.specs.Objects.{schema_of};
ghost use Rattle.ghost_rows.specs.Rows.{no_rows};
ghost use Rattle.data_store.specs.Contents.{Contents};
ghost use Rattle.image_catalog.specs.Texts.{AreMade};
ghost use Rattle.definition_replay.specs.Replaying.{CanReplay, IsReplayed, IsNoneAccepted};

use crate::entering::begin;
use data_store::DataStore;
use image_catalog::defined;
use iv_types::{NoMemory, SortedMaps};

/// Defines the object that a text makes, a CREATE statement beside the definitions of a store, and enters what the object begins
/// with: the entries of an index, the rows of a view. Answers whether the text makes one that is accepted beside the rows that
/// stand there. No transaction is open.
///
/// # Errors
///
/// Where there is no memory for it. The store is good for nothing then.
pub fn replay_definition<M: SortedMaps>(
    store: &mut DataStore<M>,
    text: &[u8],
) -> Result<bool, NoMemory>
    requires made { AreMade (schema_of store.old.catalog) }
    requires stands { (c : Contents) × CanReplay store.old.catalog (M.maps store.old.tables) store.old.views c }
    requires closed { store.old.views.rows ≡ no_rows }
    requires limit { M.limit store.old.tables ≡ None }
    ensures defines { IfOk result (λ defines. defines ≡ true → IsReplayed store.old.catalog store.new.catalog (M.maps store.old.tables) (M.maps store.new.tables) store.old.views text.now) }
    ensures other { IfOk result (λ defines. defines ≡ false → IsNoneAccepted store.old.catalog (M.maps store.old.tables) store.old.views text.now) }
    ensures untouched { IfOk result (λ defines. defines ≡ false → store.new ≡ store.old) }
    ensures made { IfOk result (λ _. AreMade (schema_of store.new.catalog)) }
    ensures limit { M.limit store.new.tables ≡ M.limit store.old.tables }
    ensures rest { store.new ≡ record store.old { catalog = store.new.catalog; tables = store.new.tables } }
{
    match defined(store.alloc, &store.catalog, text) {
        Ok(Some(definition)) => begin(store, definition),
        Ok(None) => Ok(false),
        Err(NoMemory) => Err(NoMemory),
    }
}
