// Potentials beside what visits are left with (rules 18.4 to 18.6). Callers keep that potentials are in their range, and what they are compared with is
// no more than small sums can be.
ghost use Rattle.std.specs.Prelude.{◌≡◌, ◌+◌, ◌-◌, ◌/◌, ◌<◌, ◌≤◌};
ghost use Rattle.facts.specs.Certificate.{most_denominator};
ghost use Rattle.facts.specs.Inner.{SmallLeft, PlaceIn, start_by, arrow_by, higher_by};

use crate::parts::Parts;

// Whether the potential of node n is no less than what its visit is left with.
pub fn start_holds(left: Parts, potentials: &[i64], n: usize) -> bool
    requires small_left { SmallLeft left }
    requires place_in { PlaceIn potentials.now n }
    ensures { result ≡ start_by left potentials.now n }
{
    let here = Parts::from(potentials[n]);
    left.above + here.below <= here.above + left.below
}

// Whether the potential of t is no less than that of n and what a visit of t is left with.
pub fn arrow_holds(left: Parts, potentials: &[i64], n: usize, t: usize) -> bool
    requires small_left { SmallLeft left }
    requires place_in { PlaceIn potentials.now n }
    requires place_in_2 { PlaceIn potentials.now t }
    ensures { result ≡ arrow_by left potentials.now n t }
{
    let from = Parts::from(potentials[n]);
    let to = Parts::from(potentials[t]);
    from.above + left.above + to.below <= to.above + from.below + left.below
}

// Whether the potential of n is above that of another node.
pub fn is_higher(potentials: &[i64], n: usize, other: usize) -> bool
    requires place_in { PlaceIn potentials.now n }
    requires place_in_2 { PlaceIn potentials.now other }
    ensures { result ≡ higher_by potentials.now n other }
{
    let here = Parts::from(potentials[n]);
    let there = Parts::from(potentials[other]);
    there.above + here.below < here.above + there.below
}

// Z / D rounded down, or 0 where Z is below 0.
pub fn most_of(top: Parts, denominator: u64) -> u64
    requires { 0 < denominator }
    ensures { result ≡ (top.above - top.below) / denominator }
{
    top.above.saturating_sub(top.below) / denominator
}

// -Z / D rounded up, or 0 where Z is above 0.
pub fn least_of(top: Parts, denominator: u64) -> u64
    requires small_left { SmallLeft top }
    requires denominator_nonzero { (0 < denominator) × (denominator ≤ most_denominator) }
    ensures { result ≡ (top.below - top.above + (denominator - 1)) / denominator }
{
    top.below.saturating_sub(top.above).div_ceil(denominator)
}
