// A plan in two flat lists, which the functions on tables are handed: `columns` has what they need of each block, `plan` the rest. The functions
// answer what `plan` says of the whole and of a node, whatever numbers stand there. None refuses: callers keep that the list reaches as far.
#![tactic(auto)]

ghost use Rattle.std.specs.Prelude.{◌≡◌, ◌+◌, ◌≤◌, ◌<◌, length};
ghost use Rattle.plan.specs.Listed.{nodes_in, blocks_in, entry_in, empty_in, planned_of, node_place, node_in, Drawn};

use chart::{Geometry, Node, Targets};

// The length of `columns`: a key, a must limit and a may limit for each block of the most that there can be, in three runs.
pub const COLUMNS: usize = 3 * Geometry::BLOCKS;

// Where the runs of must and of may limits begin; the keys come first.
pub const MUST_LIMITS: usize = Geometry::BLOCKS;

pub const MAY_LIMITS: usize = 2 * Geometry::BLOCKS;

// The length of `plan`: N, B, the entry and 1 for an empty start, then what each node does.
pub const LENGTH: usize = HEAD + NODE * Geometry::NODES;

// How many numbers stand before the first node, and how many each node has: what it does and how many arrows it has, and its two targets.
pub const HEAD: usize = 4;

pub const NODE: usize = 3;

// A reference by the columns of its lower and its upper block; they are one column where it is within one line.
#[derive(Clone, Copy)]
pub struct ColumnTouches {
    pub lower: usize,
    pub upper: usize,
    pub write: bool,
}

// How many nodes there are: the first number.
pub fn nodes_in(plan: &[u16]) -> usize
    requires { 0 < length plan.now }
    ensures { result ≡ nodes_in plan.now }
{
    usize::from(plan[0])
}

// How many blocks there are: the second number.
pub fn blocks_in(plan: &[u16]) -> usize
    requires { 1 < length plan.now }
    ensures { result ≡ blocks_in plan.now }
{
    usize::from(plan[1])
}

// The entry: the third number.
pub fn entry_in(plan: &[u16]) -> usize
    requires { 2 < length plan.now }
    ensures { result ≡ entry_in plan.now }
{
    usize::from(plan[2])
}

// Whether the start is empty: the fourth number is not 0.
pub fn empty_in(plan: &[u16]) -> bool
    requires { 3 < length plan.now }
    ensures { result ≡ empty_in plan.now }
{
    plan[3] != 0
}

// What a node of this kind does to these two columns (rule 2.2); a kind that there is not reads.
fn planned_of(kind: usize, lower: usize, upper: usize) -> Option<ColumnTouches>
    ensures { result ≡ planned_of kind lower upper }
{
    if kind == 0 {
        return None;
    }
    Some(ColumnTouches {
        lower: lower,
        upper: upper,
        write: kind == 2,
    })
}

// What node n does and where its arrows lead, out of its three numbers.
pub fn node_in(plan: &[u16], n: usize) -> Node<ColumnTouches>
    requires { node_place n + 3 ≤ length plan.now }
    ensures { result ≡ node_in plan.now n }
{
    let place = HEAD + NODE * n;
    let deed = usize::from(plan[place]);
    let both = deed / 16;
    let planned = planned_of(deed % 4, both % Geometry::BLOCKS, both / Geometry::BLOCKS);
    let targets = Targets {
        outs: deed / 4 % 4,
        first: usize::from(plan[place + 1]),
        second: usize::from(plan[place + 2]),
    };
    Node {
        what: planned,
        targets: targets,
    }
}

// A plan in two lists, drawn: sound, and no larger than a chart's.
#[derive(Clone, Copy)]
pub struct DrawnPlan<'a> {
    pub columns: &'a [u8],
    pub numbers: &'a [u16],
    pub ghost drawn: { Drawn columns.now numbers.now },
}

impl<'a> DrawnPlan<'a> {
    // How many nodes there are.
    pub fn nodes(self) -> usize
        ensures { result ≡ nodes_in self.entry.numbers.now }
    {
        nodes_in(self.numbers)
    }

    // How many blocks there are.
    pub fn blocks(self) -> usize
        ensures { result ≡ blocks_in self.entry.numbers.now }
    {
        blocks_in(self.numbers)
    }

    // The entry.
    pub fn entry(self) -> usize
        ensures { result ≡ entry_in self.entry.numbers.now }
    {
        entry_in(self.numbers)
    }

    // Whether the start is empty.
    pub fn starts_empty(self) -> bool
        ensures { result ≡ empty_in self.entry.numbers.now }
    {
        empty_in(self.numbers)
    }

    // What node n does and where its arrows lead.
    pub fn node(self, n: usize) -> Node<ColumnTouches>
        requires { n < nodes_in self.numbers.now }
        ensures { result ≡ node_in self.entry.numbers.now n }
    {
        node_in(self.numbers, n)
    }
}
