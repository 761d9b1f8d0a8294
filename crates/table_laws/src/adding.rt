//! Laws of sums over the numbers from 1 to some n, as over the sessions.
ghost use Rattle.table_laws.specs.Laws.{PlusSumLaw, SameSumLaw, SetSumLaw, SumAtMostLaw, SumOfSumsLaw, ZeroSumLaw};

/// Numbers that agree have one sum.
pub fn same_sum_law()
    ensures { SameSumLaw }
{}

/// To set one of the numbers changes the sum by what it changes the number.
pub fn set_sum_law()
    ensures { SetSumLaw }
{}

/// The sum of zeros is 0.
pub fn zero_sum_law()
    ensures { ZeroSumLaw }
{}

/// The sum of pairwise sums is the sum of the two sums.
pub fn plus_sum_law()
    ensures { PlusSumLaw }
{}

/// A sum of sums may be taken in either order.
pub fn sum_of_sums_law()
    ensures { SumOfSumsLaw }
{}

/// Numbers that are at most others have at most their sum.
pub fn sum_at_most_law()
    ensures { SumAtMostLaw }
{}
