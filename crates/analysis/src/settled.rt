// The analysis as a whole. It answers its pass count and B, and leaves the table that settled, with classes; or it refuses, with nothing lent changed
// by 1 to 11, and zeros beside the block list by 12.
ghost use Rattle.std.specs.Prelude.{◌≡◌, ◌*◌, ◌≤◌, length};
ghost use Rattle.chart.specs.Geometry.{most_touches};
ghost use Rattle.plan.specs.Listed.{nodes_in};
ghost use Rattle.plan.specs.AsPlan.{drawn_as};
ghost use Rattle.tables.specs.Contract.{entry_table, exit_table, RoomFor};
ghost use Rattle.analysis.specs.Analysis.{entry_buffers, exit_left, analysed, analysed_says, analyse_says};
ghost use Rattle.analysis.specs.Inner.{Finishes};

use crate::buffers::{clear, short_for, start_table};
use crate::{SettledAfter, Unanalysed};
use blocks::write_blocks;
use chart::Geometry;
use plan::DrawnPlan;
use refusals::Refusal;
use tables::{PlanTable, Table};

// Settles the table of a plan in buffers that have room, and writes classes; or leaves zeros, where the passes allowed were not enough.
fn settle_table(
    plan: DrawnPlan,
    allowance: usize,
    must: &mut [u8],
    may: &mut [u8],
    marks: &mut [u8],
    classes: &mut [u8],
) -> Result<SettledAfter, Unanalysed>
    requires room_for { RoomFor plan.numbers.now must.old may.old marks.old }
    requires plan_in_bounds { most_touches * nodes_in plan.numbers.now ≤ length classes.old }
    ensures { Finishes (drawn_as plan.entry) allowance (entry_table must.old may.old marks.old) classes.old result (exit_table must.new may.new marks.new) classes.new }
{
    let nodes = plan.nodes();
    let blocks = plan.blocks();
    start_table(plan, must, may, marks);
    let settling = settling::settle(plan, must, may, marks, allowance);
    match settling {
        Some(passes) => {
            let lent = Table {
                must: must,
                may: may,
                marks: marks,
            };
            let table = PlanTable {
                plan: plan,
                table: lent,
            };
            classing::write_classes(table, classes);
            Ok(SettledAfter {
                passes: passes,
                blocks: blocks,
            })
        }
        None => {
            clear(plan.numbers, must, may, marks);
            tables::fill(classes, 0, Geometry::TOUCHES * nodes, 0);
            Err(Unanalysed::Unsettled {
                allowance: allowance,
                blocks: blocks,
            })
        }
    }
}

// Answers for any bytes, any allowance and any lent buffers: settled after so many passes, or the first of refusals 1 to 12 that applies. What it
// leaves in the buffers rules 12.2 and 12.3 say.
pub fn analyse(
    chart: &[u8],
    allowance: usize,
    blocks: &mut [u32],
    must: &mut [u8],
    may: &mut [u8],
    marks: &mut [u8],
    classes: &mut [u8],
) -> Result<SettledAfter, Unanalysed>
    ensures result_value { exit_left blocks.new must.new may.new marks.new classes.new result ≡ analysed chart.now allowance (entry_buffers blocks.old must.old may.old marks.old classes.old) }
    ensures result_value_2 { analysed_says result ≡ analyse_says chart.now allowance (entry_buffers blocks.old must.old may.old marks.old classes.old) }
{
    let mut columns = [0u8; plan::COLUMNS];
    let mut plan = [0u16; plan::LENGTH];
    let reading = drawing::draw(chart, &mut columns, &mut plan);
    let accepted = reading.verdict?;
    if short_for(&plan, blocks, must, may, marks, classes) {
        return Err(Unanalysed::Refused(Refusal::ShortBuffer));
    }
    write_blocks(&reading.blocks, accepted.blocks, blocks);
    let drawn = DrawnPlan {
        columns: &columns,
        numbers: &plan,
    };
    settle_table(drawn, allowance, must, may, marks, classes)
}
