// Finds the largest potential of a marked node, and adds multipliers times limits to it (rule 18.5). Callers keep that lists are long enough and numbers in
// their ranges. Nothing is refused here.
ghost use Rattle.std.specs.Prelude.{◌≡◌, ◌<◌, length};
ghost use Rattle.facts.specs.Inner.{SmallLeft, Weighable, PlaceIn};
ghost use Rattle.certificate.specs.Inner.{MarksLaid, higher_node, peak_by, top_by};

use facts::Parts;

// The node with the higher potential of two: n where it is marked and its potential is above the other's, and else the other.
fn higher_of(marks: &[u8], potentials: &[i64], n: usize, other: usize) -> usize
    requires n_in_bounds { n < length marks.now }
    requires place_in { PlaceIn potentials.now n }
    requires place_in_2 { PlaceIn potentials.now other }
    ensures { result ≡ higher_node marks.now potentials.now n other }
{
    let higher = facts::is_higher(potentials, n, other);
    if (marks[n] != 0) & higher {
        return n;
    }
    other
}

// The marked node with the largest potential, of several the first, and the entry before all.
pub(crate) fn peak_of(marks: &[u8], potentials: &[i64], nodes: usize, entry: usize) -> usize
    requires marks_laid { MarksLaid marks.now potentials.now nodes }
    requires lt_nodes { entry < nodes }
    ensures value { result ≡ peak_by marks.now potentials.now entry nodes }
    ensures upper_bound { result < nodes }
{
    let mut peak = entry;
    for n in 0..nodes {
        peak = higher_of(marks, potentials, n, peak);
    }
    peak
}

// The potential of a node with multipliers times limits.
pub(crate) fn top_at(multipliers: &[i64], limits: &[i64], potentials: &[i64], at: usize) -> Parts
    requires weighable { Weighable multipliers.now limits.now 1 0 }
    requires place_in { PlaceIn potentials.now at }
    ensures value { result ≡ top_by multipliers.now limits.now potentials.now at }
    ensures small_left { SmallLeft result }
{
    let weights = facts::weigh(multipliers, limits, 1, 0);
    let potential = Parts::from(potentials[at]);
    Parts {
        above: potential.above + weights.above,
        below: potential.below + weights.below,
    }
}
