// Rows of a table in lent buffers: told as they are after a record (rules 3.3 and 6.3 to 6.5), filled, or met into what is there (rules 6.6 and 9.4).
// None of the functions refuses: callers keep that the places lie within the buffers. Nothing is written into a table but the places that are named, and
// the mark of a row that is met into.
#![tactic(auto)]

mod lent;

ghost use Rattle.std.specs.Prelude.{false, ◌≡◌, ◌+◌, ◌*◌, ◌≤◌, ◌<◌, max, min, length};
ghost use Rattle.lists.specs.Loops.{patch};
ghost use Rattle.chart.specs.Geometry.{most_blocks};
ghost use Rattle.cache.specs.Ages.{age_of, touch_ages};
ghost use Rattle.layout.specs.Joins.{RowJoined};
ghost use Rattle.plan.specs.Listed.{RecordIn};
ghost use Rattle.rows.specs.Rows.{columns_by, entry_ages, exit_ages, age_from, Begins};
ghost use Rattle.tables.specs.Inner.{Loads, AgesAgree, ages_from, row_after, grows, falls, met_into};
ghost use Rattle.tables.specs.Contract.{entry_run, exit_run};

use chart::Geometry;
pub use lent::{PlanTable, Table};
use plan::ColumnTouches;

// A quarter and a half of the most places that a row can have.
const QUARTER: usize = Geometry::BLOCKS / 4;

const HALF: usize = Geometry::BLOCKS / 2;

// How many places are worked out of a row of so many blocks: a quarter, a half or all of the most, so that they come sixteen at a time.
fn rounded(blocks: usize) -> usize
    requires { blocks ≤ most_blocks }
    ensures { (blocks ≤ result) × (result ≤ most_blocks) }
{
    if blocks <= QUARTER {
        return QUARTER;
    }
    if blocks <= HALF {
        return HALF;
    }
    Geometry::BLOCKS
}

// The same where there is room for so many; else no more than there are blocks.
fn width_of(blocks: usize, room: usize) -> usize
    requires { (blocks ≤ most_blocks) × (blocks ≤ room) }
    ensures { (blocks ≤ result) × ((result ≤ most_blocks) × (result ≤ room)) }
{
    let width = rounded(blocks);
    if width <= room { width } else { blocks }
}

// Makes a list begin with the ages that stand from `base` on.
fn take_ages(ages: &[u8], base: usize, blocks: usize, taken: &mut [u8])
    requires { (base + blocks ≤ length ages.now) × (blocks ≤ length taken.old) }
    ensures { Begins blocks taken.new (age_from base ages.now) }
{
    for j in 0..blocks {
        taken[j] = ages[base + j];
    }
}

// Makes two lists begin with the ages of the row that begins at `base`, after a touch of the block in column m.
fn touch_row(
    must: &[u8],
    may: &[u8],
    base: usize,
    blocks: usize,
    columns: &[u8],
    m: usize,
    musts: &mut [u8],
    mays: &mut [u8],
)
    requires m_lt_blocks { (m < blocks) × (blocks ≤ most_blocks) }
    requires blocks_in_bounds { (base + blocks ≤ length must.now) × (base + blocks ≤ length may.now) }
    requires most_blocks_in_bounds { (3 * most_blocks ≤ length columns.now) × ((length musts.old ≡ most_blocks) × (length mays.old ≡ most_blocks)) }
    ensures { AgesAgree blocks (exit_ages musts.new mays.new) (touch_ages (columns_by columns.now most_blocks) m (ages_from blocks base must.now may.now)) }
{
    let width = width_of(blocks, must.len().min(may.len()) - base);
    rows::touch(must, may, base, width, columns, m, musts, mays);
}

// Makes two lists begin with the ages of row n after a record, touch by touch; after a bare step they are those of the row (rule 6.5). What stands in the
// lists past the blocks is free. Put in place where it is called, at each node: called, it takes some of its twelve words out of memory.
#[inline(always)]
pub fn row_after(
    must: &[u8],
    may: &[u8],
    columns: &[u8],
    blocks: usize,
    n: usize,
    planned: Option<ColumnTouches>,
    musts: &mut [u8],
    mays: &mut [u8],
)
    requires loads { Loads columns.now must.now may.now blocks n }
    requires musts_len { (length musts.old ≡ most_blocks) × (length mays.old ≡ most_blocks) }
    requires record_in { RecordIn blocks planned }
    ensures { AgesAgree blocks (exit_ages musts.new mays.new) (row_after columns.now must.now may.now blocks n planned) }
{
    let base = n * blocks;
    let Some(reference) = planned else {
        take_ages(must, base, blocks, musts);
        take_ages(may, base, blocks, mays);
        return;
    };
    let lower = reference.lower;
    let upper = reference.upper;
    touch_row(must, may, base, blocks, columns, lower, musts, mays);
    if lower != upper {
        let mut first_musts = [0u8; Geometry::BLOCKS];
        let mut first_mays = [0u8; Geometry::BLOCKS];
        take_ages(musts, 0, Geometry::BLOCKS, &mut first_musts);
        take_ages(mays, 0, Geometry::BLOCKS, &mut first_mays);
        touch_row(
            &first_musts,
            &first_mays,
            0,
            blocks,
            columns,
            upper,
            musts,
            mays,
        );
    }
}

// Stores one value in so many places from `base` on.
pub fn fill(buffer: &mut [u8], base: usize, count: usize, value: u8)
    requires { base + count ≤ length buffer.old }
    ensures { buffer.new ≡ patch buffer.old base count (λ j. value) }
{
    buffer[base..base + count].fill(value);
}

// Stores the ages in the places from `base` on, as they are.
fn put_ages(buffer: &mut [u8], base: usize, blocks: usize, ages: &[u8])
    requires { (blocks ≤ length ages.now) × (base + blocks ≤ length buffer.old) }
    ensures { buffer.new ≡ patch buffer.old base blocks (age_of ages.now) }
{
    for j in 0..blocks {
        buffer[base + j] = ages[j];
    }
}

// Stores the larger of each age and what stands there. Answers true if `changed` was, or if anything grew.
fn put_larger(buffer: &mut [u8], base: usize, blocks: usize, ages: &[u8], changed: bool) -> bool
    requires { (blocks ≤ length ages.now) × (base + blocks ≤ length buffer.old) }
    ensures { RowJoined max grows base blocks (age_of ages.now) changed buffer.old buffer.new result }
{
    let mut any = changed;
    for j in 0..blocks {
        let old = buffer[base + j];
        let new = ages[j];
        buffer[base + j] = old.max(new);
        any = any | (old < new);
    }
    any
}

// Stores the smaller of each age and what stands there. Answers true if `changed` was, or if anything fell.
fn put_smaller(buffer: &mut [u8], base: usize, blocks: usize, ages: &[u8], changed: bool) -> bool
    requires { (blocks ≤ length ages.now) × (base + blocks ≤ length buffer.old) }
    ensures { RowJoined min falls base blocks (age_of ages.now) changed buffer.old buffer.new result }
{
    let mut any = changed;
    for j in 0..blocks {
        let old = buffer[base + j];
        let new = ages[j];
        buffer[base + j] = old.min(new);
        any = any | (new < old);
    }
    any
}

// Meets ages into row n: it keeps the larger must ages and the smaller may ages; without a mark it takes the ages as they are, and the mark.
// Answers whether anything is a change by rule 9.4.
pub fn meet_row(
    must: &mut [u8],
    may: &mut [u8],
    marks: &mut [u8],
    blocks: usize,
    n: usize,
    musts: &[u8],
    mays: &[u8],
) -> bool
    requires blocks_in_bounds { (blocks ≤ length musts.now) × ((blocks ≤ length mays.now) × (n < length marks.old)) }
    requires blocks_in_bounds_2 { (n * blocks + blocks ≤ length must.old) × (n * blocks + blocks ≤ length may.old) }
    ensures { exit_run must.new may.new marks.new result ≡ met_into blocks n (entry_ages musts.now mays.now) (entry_run must.old may.old marks.old false) }
{
    let base = n * blocks;
    if marks[n] == 0 {
        put_ages(must, base, blocks, musts);
        put_ages(may, base, blocks, mays);
        marks[n] = 1;
        return true;
    }
    let grown = put_larger(must, base, blocks, musts, false);
    put_smaller(may, base, blocks, mays, grown)
}
