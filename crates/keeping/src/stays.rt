// Tells of the touches whose blocks are wanted whether they would be kept, one block of each cache set at a time. Callers keep that the lists hold a
// plan and that there is room for two places a node. Nothing is refused here.
ghost use Rattle.std.specs.Prelude.{◌≡◌, ◌*◌, ◌≤◌, ◌<◌, length};
ghost use Rattle.chart.specs.Geometry.{most_touches, most_blocks};
ghost use Rattle.plan.specs.Listed.{nodes_in, blocks_in, DrawnIn, plan_at};
ghost use Rattle.keeping.specs.Starting.{ReachedIn};
ghost use Rattle.keeping.specs.Telling.{NextWanted, ToldIn};
ghost use Rattle.keeping.specs.Choosing.{SetsListed};
ghost use Rattle.keeping.specs.Told.{StaysTold};

use crate::choosing::{choose, list_sets};
use crate::putting::Work;
use crate::words::Group;

// The first block from `from` on that is wanted and below `blocks`; `blocks` where there is none.
fn next_wanted(wanted: u64, from: usize, blocks: usize) -> usize
    requires { blocks ≤ most_blocks }
    ensures { NextWanted wanted from blocks result }
{
    let words = [wanted];
    bits::first_from(&words, from, blocks)
}

// Tells of the blocks from `from` on that are left, where all others that are wanted are told of and the nodes that can be reached are marked.
fn tell_others(
    columns: &[u8],
    plan: &[u16],
    sets: &[u64; Group::KEYS],
    wanted: u64,
    rest: u64,
    from: usize,
    work: &mut Work,
    stays: &mut [u8],
)
    requires drawn_in { DrawnIn columns plan }
    requires plan_in_bounds { most_touches * nodes_in plan.now ≤ length stays.old }
    requires sets_listed { SetsListed columns.now (blocks_in plan.now) sets.now }
    requires reached_in { ReachedIn columns.now plan.now work.old.marks × ToldIn columns.now plan.now wanted rest from stays.old }
    ensures { StaysTold (plan_at columns plan) wanted stays.new }
{
    let nodes = plan::nodes_in(plan);
    let blocks = plan::blocks_in(plan);
    let mut left = rest;
    let mut block = next_wanted(left, from, blocks);
    while block < blocks {
        let group = Group {
            columns: columns,
            sets: sets,
            chosen: choose(columns, sets, left, block, blocks),
        };
        work.flood_again(&group, plan);
        group.tell_chosen(plan, &work.words, stays, nodes);
        left = group.left_after(left, blocks);
        block = next_wanted(left, block + 1, blocks);
    }
}

// Tells of the wanted blocks, of which this is the first.
fn tell_all(
    columns: &[u8],
    plan: &[u16],
    sets: &[u64; Group::KEYS],
    wanted: u64,
    first: usize,
    stays: &mut [u8],
)
    requires drawn_in { DrawnIn columns plan }
    requires plan_in_bounds { most_touches * nodes_in plan.now ≤ length stays.old }
    requires sets_listed { SetsListed columns.now (blocks_in plan.now) sets.now }
    requires first_bound { (first < blocks_in plan.now) × ToldIn columns.now plan.now wanted wanted first stays.old }
    ensures { StaysTold (plan_at columns plan) wanted stays.new }
{
    let nodes = plan::nodes_in(plan);
    let blocks = plan::blocks_in(plan);
    let group = Group {
        columns: columns,
        sets: sets,
        chosen: choose(columns, sets, wanted, first, blocks),
    };
    let mut work = Work::new();
    work.reach(&group, plan);
    group.tell_chosen(plan, &work.words, stays, nodes);
    let left = group.left_after(wanted, blocks);
    tell_others(
        columns,
        plan,
        sets,
        wanted,
        left,
        first + 1,
        &mut work,
        stays,
    );
}

// Tells of each touch whose column is wanted whether few enough blocks are in its block's set just before it (rules 8.1 and 8.2): 1 where it would be
// kept, 0 where not, two places for each node. `wanted` has a bit for each column; what is told of other touches is free.
pub fn write_stays(columns: &[u8], plan: &[u16], wanted: u64, stays: &mut [u8])
    requires drawn_in { DrawnIn columns plan }
    requires plan_in_bounds { most_touches * nodes_in plan.now ≤ length stays.old }
    ensures { StaysTold (plan_at columns plan) wanted stays.new }
{
    let blocks = plan::blocks_in(plan);
    let first = next_wanted(wanted, 0, blocks);
    if first == blocks {
        return;
    }
    let sets = list_sets(columns, blocks);
    tell_all(columns, plan, &sets, wanted, first, stays);
}
