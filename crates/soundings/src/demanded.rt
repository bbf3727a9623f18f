// The demands and the soundings, each claimed by a function whose promise is the claim itself: without its proof this program is not built.
ghost use Rattle.demands.specs.Bounding.{Bounding};
ghost use Rattle.demands.specs.Certified.{Certified};
ghost use Rattle.demands.specs.Demand1.{Demand1};
ghost use Rattle.demands.specs.Demand2.{Demand2};
ghost use Rattle.demands.specs.Demand3.{Demand3};
ghost use Rattle.demands.specs.OnTime.{OnTime};
ghost use Rattle.demands.specs.RoundTrip.{RoundTrip};
ghost use Rattle.demands.specs.Sounded.{Sounded};
ghost use Rattle.boundary.specs.Sounded.{ToldSounded};

// Any bytes and any buffer lengths get an answer or a numbered refusal.
pub(crate) fn asked_anything()
    ensures { Demand1 }
{}

// The checker passes what meets the equations, and the analysis leaves the tightest table that passes; so is the table of each block that may stay.
pub(crate) fn says_most()
    ensures { Demand2 }
{}

// What a class calls a hit hits, what it calls a miss misses, of what it calls kept one touch of a block misses at most, and the cost lies between
// the totals.
pub(crate) fn says_so()
    ensures { Demand3 }
{}

// A deadline that is met is kept by the cost of every walk within the bounds, as a figure.
pub(crate) fn kept_in_time()
    ensures { OnTime }
{}

// Any certificate gets a bound or a numbered refusal.
pub(crate) fn bounds_anything()
    ensures { Bounding }
{}

// No walk that keeps the facts costs more than the high bound, or less than the low one; and floors and ceilings, as facts, have the totals for
// bounds.
pub(crate) fn kept_within_bounds()
    ensures { Certified }
{}

// What was written reads back, and what was read is written again.
pub(crate) fn comes_back()
    ensures { RoundTrip }
{}

// The definitions give what the soundings want.
pub(crate) fn sounded()
    ensures { Sounded }
{}

// What callers in other languages are told, and what is left to them, is what the soundings of that want.
pub(crate) fn told()
    ensures { ToldSounded }
{}
