// Works out what a plan has for each block, the key of its set and its limits, and stores it. Callers keep that there are no more blocks than a
// chart may have, and room for them. Nothing is refused here.
ghost use Rattle.std.specs.Prelude.{◌≡◌, ◌*◌, ◌≤◌, ◌<◌, length, get_or, replicate};
ghost use Rattle.lists.specs.Loops.{patch};
ghost use Rattle.chart.specs.Geometry.{most_blocks, set_of};
ghost use Rattle.drawing.specs.Columns.{first_alike, ColumnsDrawn};

use chart::Geometry;

// The sets of the first `count` blocks (rule 3.2), zeros after them.
pub(crate) fn sets_of(geometry: Geometry, blocks: &[u32], count: usize) -> [u32; Geometry::BLOCKS]
    requires { (count ≤ most_blocks) × (count ≤ length blocks.now) }
    ensures { result ≡ patch (replicate most_blocks 0) 0 count (λ k. set_of geometry (get_or blocks.now k 0)) }
{
    let mut sets = [0u32; Geometry::BLOCKS];
    for (k, set) in sets[..count].iter_mut().enumerate() {
        *set = geometry.set_of(blocks[k]);
    }
    sets
}

// The first column of the same set as this one; this one, where none before it is.
fn first_alike(sets: &[u32], column: usize) -> usize
    requires { column < length sets.now }
    ensures { result ≡ first_alike sets.now column }
{
    let set = sets[column];
    sets[..column]
        .iter()
        .position(|earlier| *earlier == set)
        .unwrap_or(column)
}

// Stores the key and the limits of the first `count` columns, from the set of each. What stands elsewhere is not said.
pub(crate) fn put_columns(columns: &mut [u8], sets: &[u32], count: usize, limit: u8)
    requires count_le_most_blocks { (count ≤ most_blocks) × (count ≤ length sets.now) }
    requires most_blocks_in_bounds { 3 * most_blocks ≤ length columns.old }
    ensures { ColumnsDrawn sets.now limit count columns.new }
{
    for k in 0..count {
        columns[k] = first_alike(sets, k) as u8;
        columns[plan::MUST_LIMITS + k] = limit;
        columns[plan::MAY_LIMITS + k] = limit;
    }
}
