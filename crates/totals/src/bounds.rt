// Finds the first node at which floors and ceilings are refused (rules 11.16 and 11.17); the answer is `None` where there is none. Callers keep that there
// is one of each for every node.
ghost use Rattle.std.specs.Prelude.{◌≡◌, ◌≤◌, length};
ghost use Rattle.lists.specs.Choice.{first, found};
ghost use Rattle.totals.specs.Totals.{crossed_at, floor_at_unmarked};

// The first node whose floor is above its ceiling.
pub(crate) fn first_crossed(floors: &[u16], ceilings: &[u16], nodes: usize) -> Option<usize>
    requires { (nodes ≤ length floors.now) × (nodes ≤ length ceilings.now) }
    ensures { result ≡ found nodes (first nodes (crossed_at floors.now ceilings.now)) }
{
    for n in 0..nodes {
        if ceilings[n] < floors[n] {
            return Some(n);
        }
    }
    None
}

// The first node that is not marked and has a floor above 0.
pub(crate) fn first_floor_at_unmarked(marks: &[u8], floors: &[u16], nodes: usize) -> Option<usize>
    requires { (nodes ≤ length marks.now) × (nodes ≤ length floors.now) }
    ensures { result ≡ found nodes (first nodes (floor_at_unmarked marks.now floors.now)) }
{
    for n in 0..nodes {
        if (marks[n] == 0) & (0 < floors[n]) {
            return Some(n);
        }
    }
    None
}
