// Tells whether the lent buffers have room (rule 11.11), clears a table and begins it (rule 9.1). Callers keep that there is room for what is
// written; nothing beyond the used parts changes. Nothing is refused here.
ghost use Rattle.std.specs.Prelude.{◌≡◌, ◌≤◌, ◌<◌, length};
ghost use Rattle.chart.specs.Geometry.{most_nodes, most_blocks};
ghost use Rattle.flow.specs.Pass.{before};
ghost use Rattle.ages.specs.Plan.{plan_flow};
ghost use Rattle.plan.specs.Listed.{nodes_in, blocks_in};
ghost use Rattle.plan.specs.AsPlan.{drawn_as};
ghost use Rattle.tables.specs.Lent.{over};
ghost use Rattle.tables.specs.Contract.{entry_table, exit_table, RoomFor};
ghost use Rattle.analysis.specs.Analysis.{buffers_short, entry_buffers};
ghost use Rattle.analysis.specs.Inner.{sized, blank_over};

use chart::Geometry;
use plan::DrawnPlan;
use rows::Row;

// Whether one of the buffers has fewer places than a plan uses.
pub(crate) fn short_for(
    plan: &[u16],
    blocks: &[u32],
    must: &[u8],
    may: &[u8],
    marks: &[u8],
    classes: &[u8],
) -> bool
    requires in_bounds { 1 < length plan.now }
    requires plan_bound { (nodes_in plan.now ≤ most_nodes) × (blocks_in plan.now ≤ most_blocks) }
    ensures { result ≡ buffers_short (sized plan.now) (entry_buffers blocks.now must.now may.now marks.now classes.now) }
{
    let nodes = plan::nodes_in(plan);
    let count = plan::blocks_in(plan);
    let used = nodes * count;
    let table = (must.len() < used) | ((may.len() < used) | (marks.len() < nodes));
    (blocks.len() < count) | (table | (classes.len() < Geometry::TOUCHES * nodes))
}

// Writes zeros in every used place of a table.
pub(crate) fn clear(plan: &[u16], must: &mut [u8], may: &mut [u8], marks: &mut [u8])
    requires in_bounds { 1 < length plan.now }
    requires room_for { RoomFor plan.now must.old may.old marks.old }
    ensures { exit_table must.new may.new marks.new ≡ blank_over (sized plan.now) (entry_table must.old may.old marks.old) }
{
    let nodes = plan::nodes_in(plan);
    let used = nodes * plan::blocks_in(plan);
    tables::fill(must, 0, used, 0);
    tables::fill(may, 0, used, 0);
    tables::fill(marks, 0, nodes, 0);
}

// Leaves the table before the first pass (rule 9.1): the start, met into a table without a mark, is taken as it is.
pub(crate) fn start_table(plan: DrawnPlan, must: &mut [u8], may: &mut [u8], marks: &mut [u8])
    requires room_for { RoomFor plan.numbers.now must.old may.old marks.old }
    ensures { exit_table must.new may.new marks.new ≡ over (drawn_as plan.entry) (before (plan_flow (drawn_as plan.entry))) (entry_table must.old may.old marks.old) }
{
    let blocks = plan.blocks();
    let entry = plan.entry();
    let empty = plan.starts_empty();
    let start = Row::start(plan.columns, empty);
    let musts = start.must;
    let mays = start.may;
    clear(plan.numbers, must, may, marks);
    tables::meet_row(must, may, marks, blocks, entry, &musts, &mays);
}
