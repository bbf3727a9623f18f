// Takes one node of a pass (rule 9.3). Callers keep that the buffers hold a table of the plan as it is when the turn of the node comes, that the node is
// due, and that arrows lead to nodes. Nothing is written
// but the rows and marks of targets, and which nodes are due. Nothing is refused here.
ghost use Rattle.std.specs.Prelude.{true, ◌≡◌, ◌≤◌, ◌<◌, length};
ghost use Rattle.bits.specs.Bits.{is_member};
ghost use Rattle.chart.specs.Record.{arrows_of, Leads};
ghost use Rattle.plan.specs.Listed.{nodes_in};
ghost use Rattle.plan.specs.AsPlan.{drawn_as};
ghost use Rattle.tables.specs.Inner.{Roomy};
ghost use Rattle.rows.specs.Rows.{entry_ages};
ghost use Rattle.tables.specs.Contract.{RoomFor};
ghost use Rattle.settling.specs.Inner.{sent_to, sent_all, StandsIn, TakenIn, SetFor, entry_due, exit_due};

use chart::{Geometry, Targets};
use plan::DrawnPlan;

// Meets ages into the row of node t. Where that changes anything, t is due. Answers true if `changed` was, or if there was a change.
fn send_to<'a>(
    must: &mut [u8],
    may: &mut [u8],
    marks: &mut [u8],
    due: &mut [u64],
    nodes: usize,
    blocks: usize,
    t: usize,
    musts: &'a [u8],
    mays: &'a [u8],
    changed: bool,
) -> bool
    requires blocks_in_bounds { (blocks ≤ length musts.now) × (blocks ≤ length mays.now) }
    requires roomy { Roomy nodes blocks must.old may.old marks.old }
    requires t_lt_nodes { (t < nodes) × SetFor nodes due.old }
    ensures { exit_due must.new may.new marks.new due.new result ≡ sent_to blocks (entry_ages musts.now mays.now) t (entry_due must.old may.old marks.old due.old changed) }
{
    let met = tables::meet_row(must, may, marks, blocks, t, musts, mays);
    if met {
        bits::put(due, t);
        return true;
    }
    changed
}

// Meets ages into the first target of a node and then into the second. Answers true if `changed` was, or if there was a change.
fn send_row<'a>(
    must: &mut [u8],
    may: &mut [u8],
    marks: &mut [u8],
    due: &mut [u64],
    nodes: usize,
    blocks: usize,
    targets: Targets,
    musts: &'a [u8],
    mays: &'a [u8],
    changed: bool,
) -> bool
    requires blocks_in_bounds { (blocks ≤ length musts.now) × (blocks ≤ length mays.now) }
    requires roomy { Roomy nodes blocks must.old may.old marks.old }
    requires leads { Leads nodes targets × SetFor nodes due.old }
    ensures { exit_due must.new may.new marks.new due.new result ≡ sent_all blocks (entry_ages musts.now mays.now) (arrows_of targets) (entry_due must.old may.old marks.old due.old changed) }
{
    let outs = targets.outs;
    let first = targets.first;
    let second = targets.second;
    if outs == 0 {
        return changed;
    }
    let sent = send_to(
        must, may, marks, due, nodes, blocks, first, musts, mays, changed,
    );
    if outs == 1 {
        return sent;
    }
    send_to(
        must, may, marks, due, nodes, blocks, second, musts, mays, sent,
    )
}

// Takes node n, which is due: its state after its record is worked out once and met into its targets. It is no longer due before it sends: where an
// arrow leads back to it and brings a change, it is due again. Answers true if `changed` was, or if there was a change.
pub(crate) fn take_node(
    plan: DrawnPlan,
    must: &mut [u8],
    may: &mut [u8],
    marks: &mut [u8],
    due: &mut [u64],
    n: usize,
    changed: bool,
) -> bool
    requires room_for { RoomFor plan.numbers.now must.old may.old marks.old × SetFor (nodes_in plan.numbers.now) due.old }
    requires stands_in { StandsIn (drawn_as plan) n must.old may.old marks.old due.old }
    requires n_bound { (n < nodes_in plan.numbers.now) × (is_member due.old n ≡ true) }
    ensures { TakenIn (drawn_as plan.entry) n (entry_due must.old may.old marks.old due.old changed) (exit_due must.new may.new marks.new due.new result) }
{
    bits::take_out(due, n);
    let nodes = plan.nodes();
    let blocks = plan.blocks();
    let node = plan.node(n);
    let planned = node.what;
    let targets = node.targets;
    let mut musts = [0u8; Geometry::BLOCKS];
    let mut mays = [0u8; Geometry::BLOCKS];
    tables::row_after(
        must,
        may,
        plan.columns,
        blocks,
        n,
        planned,
        &mut musts,
        &mut mays,
    );
    send_row(
        must, may, marks, due, nodes, blocks, targets, &musts, &mays, changed,
    )
}
