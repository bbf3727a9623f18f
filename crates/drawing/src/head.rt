// Stores the head of a plan. Callers keep that there is room, and that the header and the blocks are within the limits of a chart. Nothing is
// refused here.
ghost use Rattle.std.specs.Prelude.{◌≡◌, ◌≤◌, ◌<◌, length, get_or};
ghost use Rattle.lists.specs.Loops.{patch};
ghost use Rattle.chart.specs.Geometry.{most_nodes, most_blocks};
ghost use Rattle.drawing.specs.Nodes.{head_numbers};

use chart::Header;

// Stores N, B, the entry and the start's code in the first four places, and nothing elsewhere.
pub(crate) fn put_head(plan: &mut [u16], header: Header, count: usize)
    requires in_bounds { 4 ≤ length plan.old }
    requires nodes_le_most_nodes { (header.nodes ≤ most_nodes) × ((header.entry < header.nodes) × (count ≤ most_blocks)) }
    ensures { plan.new ≡ patch plan.old 0 4 (λ k. get_or (head_numbers header count) k 0) }
{
    let start = header.start;
    plan[0] = header.nodes as u16;
    plan[1] = count as u16;
    plan[2] = header.entry as u16;
    plan[3] = start.code();
}
