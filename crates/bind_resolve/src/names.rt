//! Names of objects, and names that are taken.
ghost use Rattle.std.specs.Prelude.{◌≡◌, ◌∷◌, [], ◌++◌, OnOk};
ghost use Rattle.std.specs.Str.{bytes_eq};
ghost use Rattle.iv_meaning.specs.Objects.{schema_of, object_of};
ghost use Rattle.iv_meaning.specs.Resolving as meant;
ghost use Rattle.bind_resolve.specs.Meant.{IsMeant};
ghost use Rattle.bind_resolve.specs.Seen.{names_in, Alike};

use iv_types::{Bytes, Catalog, Definition, NoMemory, Refusal};
use std::alloc::Global;
use std::collections::BTreeSet;

/// Names that are taken, in the order of their bytes.
pub type Names<'a> = BTreeSet<&'a [u8]>;

/// Whether two names are the same.
pub fn same_name(name: &Bytes, other: &Bytes) -> bool
    ensures { result ≡ bytes_eq name.now other.now }
{
    name.as_slice() == other.as_slice()
}

/// The object of a name, or the refusal of a name that has none.
#[tactic(auto, using(crate::proofs::Objects::is_known, crate::proofs::Objects::is_unknown))]
pub fn known<'a>(
    alloc: Global,
    catalog: &'a Catalog,
    name: &Bytes,
) -> Result<&'a Definition, Refusal>
    ensures { IsMeant (λ d. object_of d.now) result (meant.known (schema_of catalog.now) name.now) }
{
    match catalog.find(name.as_slice()) {
        Some(definition) => Ok(definition),
        None => Err(Refusal::UnknownName(name.copied(alloc)?)),
    }
}

/// The refusal of a new object's name, if there is an object of it.
#[tactic(auto, using(crate::proofs::Objects::is_object))]
pub fn new_object(alloc: Global, catalog: &Catalog, name: &Bytes) -> Result<(), Refusal>
    ensures { IsMeant (λ free. name.now) result (meant.new_object (schema_of catalog.now) name.now) }
{
    if catalog.find(name.as_slice()).is_some() {
        return Err(Refusal::NameTaken(name.copied(alloc)?));
    }
    Ok(())
}

// Whether a name is one of some others.
fn is_among(names: &Names<'_>, name: &Bytes) -> bool
    ensures { result ≡ meant.is_among (names_in names.now.keys) name.now }
{
    names.contains(name.as_slice())
}

/// A new name joins some others, or is refused where it is one of them.
pub fn new_name<'a>(alloc: Global, others: &mut Names<'a>, name: &'a Bytes) -> Result<(), Refusal>
    ensures free { IsMeant (λ free. free) result (meant.fresh (names_in others.old.keys) (name.now ∷ [])) }
    ensures joined { OnOk result (Alike (names_in others.new.keys) (name.now ∷ names_in others.old.keys)) }
{
    if is_among(others, name) {
        return Err(Refusal::NameTaken(name.copied(alloc)?));
    }
    others.insert(name.as_slice())?;
    Ok(())
}

/// New names join some others, or the first that is taken is refused.
pub fn fresh<'a>(alloc: Global, others: &mut Names<'a>, names: &[&'a Bytes]) -> Result<(), Refusal>
    ensures free { IsMeant (λ free. free) result (meant.fresh (names_in others.old.keys) (names_in names.now)) }
    ensures joined { OnOk result (Alike (names_in others.new.keys) (names_in names.now ++ names_in others.old.keys)) }
{
    for index in 0..names.len() {
        new_name(alloc, others, names[index])?;
    }
    Ok(())
}

/// The refusal of the first of some names that stands among those before it.
pub fn all_new(alloc: Global, names: &[&Bytes]) -> Result<(), Refusal>
    ensures { IsMeant (λ free. free) result (meant.fresh [] (names_in names.now)) }
{
    fresh(alloc, &mut Names::new(alloc), names)
}
