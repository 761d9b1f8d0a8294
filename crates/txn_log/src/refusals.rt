//! Laws of the images that are refused. Each function is there for its contract.
ghost use Rattle.txn_log.specs.Room.{WithinAlwaysLaw, WithinLaw};
ghost use Rattle.txn_log.specs.Reversals.{ReversalLaw, UndoLaw};
ghost use Rattle.txn_log.specs.Refused.{EitherLaw, NeverBothLaw, NotRefusedLaw, OneRefusalLaw, WrongViewLaw};

/// An image of which no rule fails and whose views are as evaluated afresh is not refused.
pub fn never_both_law()
    ensures { NeverBothLaw }
{}

/// An image is refused for one cause, at one place.
pub fn one_refusal_law()
    ensures { OneRefusalLaw }
{}

/// Where no rule fails first, none fails.
pub fn either_law()
    ensures { EitherLaw }
{}

/// An image of which no rule fails and with a view's row that is not as evaluated afresh is refused by BadView.
pub fn wrong_view_law()
    ensures { WrongViewLaw }
{}

/// What a crash may leave is not refused, where record numbers are at most 2^62 and the bytes of data have no limit.
pub fn not_refused_law()
    ensures { NotRefusedLaw }
{}

/// A last reversal that fails is told where the record stands whose reversal is the first to fail, the latest first.
pub fn reversal_law()
    ensures { ReversalLaw }
{}

/// An Undo that can't reverse is told where the record stands that it names.
pub fn undo_law()
    ensures { UndoLaw }
{}

/// Where an engine was opened with its data within the limit, an image of all records between two steps is not refused.
pub fn within_law()
    ensures { WithinLaw }
{}

/// And no image that a crash may leave at any moment, also without the latest of the waiting records.
pub fn within_always_law()
    ensures { WithinAlwaysLaw }
{}
