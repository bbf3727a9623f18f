// Ages: answers a row of the start's (rule 6.2), tells those of a row after a touch (rules 6.3 and 6.4), and answers one age after a touch. As many
// places are worked out as the caller says, also those without a block. None of the functions refuses: callers keep that the columns are there, and
// that what is touched is one of them.
#![tactic(auto)]

ghost use Rattle.std.specs.Prelude.{◌≡◌, ◌+◌, ◌*◌, ◌≤◌, ◌<◌, cond, length};
ghost use Rattle.chart.specs.Geometry.{most_blocks};
ghost use Rattle.cache.specs.Ages.{must_grown, may_grown, start_ages};
ghost use Rattle.rows.specs.Rows.{columns_by, as_row, entry_ages, exit_ages, TouchedFrom};

use chart::Geometry;

// The must and may ages of a chart's blocks, in the list's order; no answer depends on the places past them.
#[derive(Clone, Copy)]
pub struct Row {
    pub must: [u8; Geometry::BLOCKS],
    pub may: [u8; Geometry::BLOCKS],
}

// The must age of another block after a touch of a block of age `h` (rule 6.3); `same`: they are of one set.
#[tactic(auto, unfolding(cache::specs::Ages::must_grown))]
pub fn must_age(same: bool, h: u8, age: u8) -> u8
    ensures { result ≡ cond same (must_grown h age) age }
{
    if same && age < h { age + 1 } else { age }
}

// The may age of another block after a touch of a block of age `h` (rule 6.4); `same`: they are of one set. What it may grow to is worked out in
// any case, so that nothing is read in one case alone: two instructions for sixteen ages.
#[tactic(auto, unfolding(cache::specs::Ages::may_grown))]
pub fn may_age(limit: u8, same: bool, h: u8, age: u8) -> u8
    ensures { result ≡ cond same (may_grown limit h age) age }
{
    let grown = limit.min(age.saturating_add(1));
    if same & (age <= h) { grown } else { age }
}

// The age of a block after a touch: 0 for the touched one, and else what it is among the others.
fn touched(own: bool, age: u8) -> u8
    ensures { result ≡ cond own 0 age }
{
    if own { 0 } else { age }
}

// A column as a byte. The remainder is the column itself; it keeps a comparison of two such bytes one of bytes, sixteen at once.
fn byte_of(column: usize) -> u8
    requires { column < 256 }
    ensures { result ≡ column }
{
    (column % 256) as u8
}

// Makes two lists begin with the ages of a row that begins at `base`, after a touch of the block in column m. `width` places are worked out, all
// alike and in one loop: no store behind it stands between the loop and what reads the lists next. The loop goes by the place's number: it is compared
// with m too, and of the six lists that it goes along three begin elsewhere.
pub fn touch(
    must: &[u8],
    may: &[u8],
    base: usize,
    width: usize,
    columns: &[u8],
    m: usize,
    musts: &mut [u8],
    mays: &mut [u8],
)
    requires m_lt_width { (m < width) × (width ≤ most_blocks) }
    requires width_in_bounds { (base + width ≤ length must.now) × (base + width ≤ length may.now) }
    requires most_blocks_in_bounds { (3 * most_blocks ≤ length columns.now) × ((width ≤ length musts.old) × (width ≤ length mays.old)) }
    ensures { TouchedFrom width columns.now m base (entry_ages must.now may.now) (exit_ages musts.new mays.new) }
{
    let h = must[base + m];
    let g = may[base + m];
    let key = columns[m];
    let touched_place = byte_of(m);
    for j in 0..width {
        let same = columns[j] == key;
        let limit = columns[plan::MAY_LIMITS + j];
        let own = byte_of(j) == touched_place;
        musts[j] = touched(own, must_age(same, h, must[base + j]));
        mays[j] = touched(own, may_age(limit, same, g, may[base + j]));
    }
}

impl Row {
    // Answers the start's ages (rule 6.2): each must age is its limit; each may age is its limit where the start is empty, else 0.
    pub fn start(columns: &[u8], empty: bool) -> Row
        requires { 3 * most_blocks ≤ length columns.now }
        ensures { result ≡ as_row (start_ages (columns_by columns.now most_blocks) empty) }
    {
        let mut must = [0; Geometry::BLOCKS];
        let mut may = [0; Geometry::BLOCKS];
        must.copy_from_slice(&columns[plan::MUST_LIMITS..plan::MUST_LIMITS + Geometry::BLOCKS]);
        if empty {
            may.copy_from_slice(&columns[plan::MAY_LIMITS..plan::MAY_LIMITS + Geometry::BLOCKS]);
        }
        Row { must, may }
    }
}
