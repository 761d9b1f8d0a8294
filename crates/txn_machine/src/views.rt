//! Laws of views as they are defined. Each function is there for its contract.
ghost use Rattle.txn_machine.specs.Laws.{CreatesSound, FreshLaw, KeysTell, RangeLaw, ReadableLaw, ViewsLaw};

/// What a change owes is what it changes, of views of one table and of two; a group of no combinations adds up to zeros; what
/// is owed depends on what is looked up alone; and a new view leaves those that were there.
pub fn views_law()
    ensures { ViewsLaw }
{}

/// The numbers of a view by encoded groups are the shares of its groups in its meaning.
pub fn fresh_law()
    ensures { FreshLaw }
{}

/// Values that fit are told by their keys.
pub fn keys_law()
    ensures { KeysTell }
{}

/// What a CREATE statement makes of a sound database is sound: a view of two tables joins each column of the second's key once,
/// and has an index to find its rows by.
pub fn create_law()
    ensures { CreatesSound }
{}

/// A view can be read only where its numbers are in range.
pub fn range_law()
    ensures { RangeLaw }
{}

/// No view's query is refused where its numbers are in range.
pub fn readable_law()
    ensures { ReadableLaw }
{}
