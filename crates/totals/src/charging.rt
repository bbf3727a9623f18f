// Counts the blocks for which the difference between a miss and a hit is charged once (rule 10.4), by the classes of all nodes. Callers keep that there are
// classes and a ceiling for each node. Nothing is refused here.
ghost use Rattle.std.specs.Prelude.{◌≡◌, ◌*◌, ◌≤◌, ◌<◌, eqb, length, get_or};
ghost use Rattle.lists.specs.Lists.{sum_of};
ghost use Rattle.chart.specs.Geometry.{most_blocks, most_touches};
ghost use Rattle.classes.specs.Class.{kept};
ghost use Rattle.plan.specs.Listed.{nodes_in, RecordIn};
ghost use Rattle.totals.specs.Charged.{set_if, charged_by, charged_blocks};

use chart::Geometry;
use plan::{ColumnTouches, DrawnPlan};

// Marks a column if a touch of it has the class kept.
fn mark_kept(charged: &mut [u8], column: usize, class: u8)
    requires { column < length charged.old }
    ensures { charged.new ≡ set_if (eqb class kept) column charged.old }
{
    if class == classing::KEPT {
        charged[column] = 1;
    }
}

// Marks the columns of which a touch of a node has the class kept, where its ceiling is above 0.
fn charge_node(
    charged: &mut [u8],
    planned: Option<ColumnTouches>,
    first: u8,
    second: u8,
    ceiling: u16,
)
    requires { RecordIn (length charged.old) planned }
    ensures { charged.new ≡ charged_by planned first second ceiling charged.old }
{
    if ceiling == 0 {
        return;
    }
    let Some(reference) = planned else {
        return;
    };
    let lower = reference.lower;
    let upper = reference.upper;
    mark_kept(charged, lower, first);
    mark_kept(charged, upper, second);
}

// The sum of the first `count` marks.
fn sum_marks(charged: &[u8], count: usize) -> usize
    requires { (count ≤ length charged.now) × (count ≤ most_blocks) }
    ensures { result ≡ sum_of count (λ column. get_or charged.now column 0) }
{
    let mut sum = 0;
    for mark in &charged[..count] {
        sum += usize::from(*mark);
    }
    sum
}

// How many blocks have a touch with the class kept at a node whose ceiling is above 0.
pub fn charged_blocks(plan: DrawnPlan, classes: &[u8], ceilings: &[u16]) -> usize
    requires { (most_touches * nodes_in plan.numbers.now ≤ length classes.now) × (nodes_in plan.numbers.now ≤ length ceilings.now) }
    ensures { result ≡ charged_blocks plan.entry.numbers.now classes.now ceilings.now }
{
    let nodes = plan.nodes();
    let blocks = plan.blocks();
    let mut charged = [0u8; Geometry::BLOCKS];
    for n in 0..nodes {
        let node = plan.node(n);
        let planned = node.what;
        let first = classes[Geometry::TOUCHES * n];
        let second = classes[Geometry::TOUCHES * n + 1];
        charge_node(&mut charged, planned, first, second, ceilings[n]);
    }
    sum_marks(&charged, blocks)
}
