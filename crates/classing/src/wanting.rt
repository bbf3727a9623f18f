// Which blocks' sets are to be worked out: those of the touches that are unsure by their ages, a bit for each column. Callers keep that the list
// holds a plan. Nothing is refused here.
ghost use Rattle.std.specs.Prelude.{◌≡◌, ◌+◌, ◌*◌, ◌≤◌, ◌<◌, length};
ghost use Rattle.chart.specs.Geometry.{most_blocks, most_touches};
ghost use Rattle.plan.specs.Listed.{nodes_in, node_place, node_in, RecordIn};
ghost use Rattle.keeping.specs.Columns.{RecordsRead};
ghost use Rattle.classing.specs.Both.{unsure_bit, wanted_by, wanted_to};

use crate::UNSURE;
use chart::Geometry;
use plan::ColumnTouches;

// The bit of a column whose touch has this class, where that is unsure; else none.
fn unsure_bit(class: u8, column: usize) -> u64
    requires { column < most_blocks }
    ensures { result ≡ unsure_bit class column }
{
    if class == UNSURE {
        return 1 << column;
    }
    0
}

// A bit for each touch of node n that is unsure, where these are its classes. Most nodes have none such: then their record is not read.
fn wanted_at(plan: &[u16], n: usize, first: u8, second: u8) -> u64
    requires n_in_bounds { node_place n + 3 ≤ length plan.now }
    requires record_in { RecordIn most_blocks (node_in plan.now n).what }
    ensures { result ≡ wanted_by (node_in plan.now n).what first second }
{
    if first != UNSURE {
        if second != UNSURE {
            return 0;
        }
    }
    let node = plan::node_in(plan, n);
    let planned = node.what;
    let Some(reference) = planned else {
        return 0;
    };
    unsure_bit(first, reference.lower) | unsure_bit(second, reference.upper)
}

// A bit for each column that some touch with an unsure class has.
pub(crate) fn wanted_columns(plan: &[u16], classes: &[u8]) -> u64
    requires records_read { RecordsRead plan.now }
    requires plan_in_bounds { most_touches * nodes_in plan.now ≤ length classes.now }
    ensures { result ≡ wanted_to plan.now classes.now (nodes_in plan.now) }
{
    let nodes = plan::nodes_in(plan);
    let mut wanted = 0;
    for n in 0..nodes {
        let first = Geometry::TOUCHES * n;
        wanted = wanted | wanted_at(plan, n, classes[first], classes[first + 1]);
    }
    wanted
}
