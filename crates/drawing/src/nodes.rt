// Works out what each node does, a block known by its place in the list of blocks, and stores it in a plan. Callers keep that the records are
// there and end within 32 bits, that the blocks ascend and all that are touched are among them, and that there is room. Nothing is refused here.
ghost use Rattle.std.specs.Prelude.{◌≡◌, ◌+◌, ◌^◌, ◌≤◌, ◌<◌, length, get_or, take};
ghost use Rattle.lists.specs.Loops.{patch};
ghost use Rattle.blocks.specs.Listing.{Ascending};
ghost use Rattle.chart.specs.Layout.{chart_length};
ghost use Rattle.chart.specs.Geometry.{most_blocks};
ghost use Rattle.chart.specs.Record.{Ends};
ghost use Rattle.chart.specs.Chart.{records_in, node_at};
ghost use Rattle.chart.specs.Inner.{AllEnd};
ghost use Rattle.plan.specs.Listed.{node_place};
ghost use Rattle.drawing.specs.Nodes.{kind_number, columns_number, node_numbers, Narrow, ColumnsNarrow, planned_by, node_by, AllNarrow, NodesDrawn};

use blocks::place_in;
use chart::{Geometry, Header, Node, Reference};
use plan::ColumnTouches;

// The number of a kind (rule 2.2).
fn kind_number(planned: Option<ColumnTouches>) -> u16
    ensures { (result ≡ kind_number planned) × (result ≤ 2) }
{
    let Some(reference) = planned else {
        return 0;
    };
    let write = reference.write;
    if write { 2 } else { 1 }
}

// Both columns of a reference in one number, 0 for a bare step.
fn columns_number(planned: Option<ColumnTouches>) -> u16
    requires { ColumnsNarrow planned }
    ensures { (result ≡ columns_number planned) × (result < 2 ^ 12) }
{
    let Some(reference) = planned else {
        return 0;
    };
    reference.lower as u16 + Geometry::BLOCKS as u16 * reference.upper as u16
}

// Stores the three numbers of node n, and nothing elsewhere.
fn put_node(plan: &mut [u16], n: usize, node: Node<ColumnTouches>)
    requires n_in_bounds { node_place n + 3 ≤ length plan.old }
    requires narrow { Narrow node }
    ensures { plan.new ≡ patch plan.old (node_place n) 3 (λ k. get_or (node_numbers node) k 0) }
{
    let planned = node.what;
    let targets = node.targets;
    let kind = kind_number(planned);
    let columns = columns_number(planned);
    let place = plan::HEAD + plan::NODE * n;
    plan[place] = kind + 4 * targets.outs as u16 + 16 * columns;
    plan[place + 1] = targets.first as u16;
    plan[place + 2] = targets.second as u16;
}

// What a record does to the columns of the first `count` blocks. The upper block is looked for only where it is another than the lower.
fn planned_of(
    geometry: Geometry,
    blocks: &[u32],
    count: usize,
    what: Option<Reference>,
) -> Option<ColumnTouches>
    requires count_in_bounds { count ≤ length blocks.now }
    requires ascending { Ascending count blocks.now }
    requires ends { Ends what }
    ensures { result ≡ planned_by geometry (take count blocks.now) what }
{
    let Some(reference) = what else {
        return None;
    };
    let lower_block = geometry.block_of(reference.address);
    let upper_block = geometry.block_of(reference.last as u32);
    let lower = place_in(blocks, count, lower_block);
    let upper = if lower_block == upper_block {
        lower
    } else {
        place_in(blocks, count, upper_block)
    };
    Some(ColumnTouches {
        lower: lower,
        upper: upper,
        write: reference.write,
    })
}

// Stores what every node of a chart with these blocks does; the head of the plan stays as it is.
pub(crate) fn draw_nodes(
    plan: &mut [u16],
    chart: &[u8],
    header: Header,
    blocks: &[u32],
    count: usize,
)
    requires chart_len { (length chart.now ≡ chart_length header.nodes) × (node_place header.nodes ≤ length plan.old) }
    requires count_le_most_blocks { (count ≤ most_blocks) × (count ≤ length blocks.now) }
    requires ascending { Ascending count blocks.now }
    requires all_end { AllEnd (records_in chart.now) header.nodes }
    requires all_narrow { AllNarrow header.geometry (take count blocks.now) chart.now header.nodes }
    ensures { NodesDrawn header.nodes (λ n. node_by header.geometry (take count blocks.now) (node_at chart.now n)) plan.old plan.new }
{
    let geometry = header.geometry;
    let nodes = header.nodes;
    for n in 0..nodes {
        let node = chart::node_at(chart, n);
        let what = node.what;
        let targets = node.targets;
        let planned = planned_of(geometry, blocks, count, what);
        put_node(
            plan,
            n,
            Node {
                what: planned,
                targets: targets,
            },
        );
    }
}
