// From any bytes to the plan of their chart, in two flat lists that the caller lends. The answer is the reader's, refusals 1 to 10 too; after a
// refusal nothing is said of the lists. Callers lend room for the largest plan.
#![tactic(auto)]

mod columns;
mod head;
mod nodes;

ghost use Rattle.std.specs.Prelude.{◌≡◌, ◌*◌, ◌≤◌, length};
ghost use Rattle.chart.specs.Geometry.{most_nodes, most_blocks};
ghost use Rattle.chart.specs.Reading.{reading};
ghost use Rattle.chart.specs.Inner.{AcceptedAs};
ghost use Rattle.plan.specs.Listed.{node_place};
ghost use Rattle.drawing.specs.Drawing.{Draws};

use crate::columns::{put_columns, sets_of};
use crate::head::put_head;
use crate::nodes::draw_nodes;
use chart::{Header, Reading};

// Leaves the plan of an accepted chart in the two lists, by what the reader has found.
fn draw_chart(
    chart: &[u8],
    header: Header,
    blocks: &[u32],
    count: usize,
    columns: &mut [u8],
    plan: &mut [u16],
)
    requires accepted_as { AcceptedAs chart.now header count blocks.now }
    requires most_blocks_in_bounds { (3 * most_blocks ≤ length columns.old) × (node_place most_nodes ≤ length plan.old) }
    ensures { Draws chart.now columns.new plan.new }
{
    let geometry = header.geometry;
    let sets = sets_of(geometry, blocks, count);
    put_columns(columns, &sets, count, geometry.ways);
    put_head(plan, header, count);
    draw_nodes(plan, chart, header, blocks, count);
}

// Answers what `chart::read` does, and leaves the plan of an accepted chart in the two lists. After a refusal nothing is said of them.
pub fn draw(chart: &[u8], columns: &mut [u8], plan: &mut [u16]) -> Reading
    requires { (3 * most_blocks ≤ length columns.old) × (node_place most_nodes ≤ length plan.old) }
    ensures value { result ≡ reading chart.now }
    ensures draws { Draws chart.now columns.new plan.new }
{
    let read = chart::read(chart);
    let verdict = read.verdict;
    let Ok(accepted) = verdict else {
        return read;
    };
    let header = accepted.header;
    let count = accepted.blocks;
    draw_chart(chart, header, &read.blocks, count, columns, plan);
    read
}
