// Makes a pass, and passes until one changes nothing or the allowance is used up. Callers keep that the buffers hold a table of the plan: for one pass
// one that passes have come to, with the nodes that are due; for passes until the end the one before the first (rule 9.1). Nothing is refused here.
ghost use Rattle.plan.specs.Listed.{nodes_in};
ghost use Rattle.plan.specs.AsPlan.{drawn_as};
ghost use Rattle.tables.specs.Contract.{entry_table, exit_table, RoomFor};
ghost use Rattle.settling.specs.Inner.{BegunIn, StandsIn, PassedIn, SettledIn, SetFor, exit_due};

use crate::taking::take_node;
use chart::Geometry;
use plan::DrawnPlan;

// How many words a set of the most nodes has.
const WORDS: usize = (Geometry::NODES + bits::WIDTH - 1) / bits::WIDTH;

// Makes one pass (rule 9.2) and answers whether there was a change (rule 9.4). Only nodes that are due are taken: the turn of any other changes nothing.
// A node at or before the one at hand that becomes due waits for the next pass.
pub fn pass(
    plan: DrawnPlan,
    must: &mut [u8],
    may: &mut [u8],
    marks: &mut [u8],
    due: &mut [u64],
) -> bool
    requires room_for { RoomFor plan.numbers.now must.old may.old marks.old × SetFor (nodes_in plan.numbers.now) due.old }
    requires stands_in { StandsIn (drawn_as plan) 0 must.old may.old marks.old due.old }
    ensures { PassedIn (drawn_as plan.entry) (entry_table must.old may.old marks.old) (exit_due must.new may.new marks.new due.new result) }
{
    let nodes = plan.nodes();
    let mut changed = false;
    let mut n = bits::first_from(due, 0, nodes);
    while n < nodes {
        changed = take_node(plan, must, may, marks, due, n, changed);
        n = bits::first_from(due, n + 1, nodes);
    }
    changed
}

// Makes passes until one changes nothing, and answers how many (rule 9.5); or none after `allowance` of them, if all changed something.
// Before the first the entry is due.
pub fn settle(
    plan: DrawnPlan,
    must: &mut [u8],
    may: &mut [u8],
    marks: &mut [u8],
    allowance: usize,
) -> Option<usize>
    requires room_for { RoomFor plan.numbers.now must.old may.old marks.old }
    requires begun_in { BegunIn (drawn_as plan) must.old may.old marks.old }
    ensures { SettledIn (drawn_as plan.entry) allowance (entry_table must.old may.old marks.old) result (exit_table must.new may.new marks.new) }
{
    let mut due = [0u64; WORDS];
    bits::put(&mut due, plan.entry());
    for made in 1..=allowance {
        if !pass(plan, must, may, marks, &mut due) {
            return Some(made);
        }
    }
    None
}
