// Chooses the blocks that share words, one of each cache set. Callers keep that the lists have room. Nothing is refused here.
ghost use Rattle.std.specs.Prelude.{◌≡◌, cond, ◌^◌, ◌≤◌, ◌<◌, eqb, length, replicate};
ghost use Rattle.chart.specs.Geometry.{most_blocks};
ghost use Rattle.bits.specs.Bits.{without};
ghost use Rattle.keeping.specs.Choosing.{SetsListed, picked, picked_all, TakenOut};

use crate::words::Group;
use chart::Geometry;

// Answers the columns of each cache set as bits, by set key.
pub(crate) fn list_sets(columns: &[u8], blocks: usize) -> [u64; Group::KEYS]
    requires { (blocks ≤ most_blocks) × (blocks ≤ length columns.now) }
    ensures { SetsListed columns.now blocks result }
{
    let mut sets = [0u64; Group::KEYS];
    for m in 0..blocks {
        let key = usize::from(columns[m]);
        sets[key] |= 1 << m;
    }
    sets
}

// One column of a cache set: this block, or the lowest that is left, or the lowest.
fn pick(members: u64, left: u64, block: usize) -> usize
    requires { block < most_blocks }
    ensures { (result ≡ picked members left block) × (result ≤ most_blocks) }
{
    if (members >> block) % 2 == 1 {
        return block;
    }
    let both = left & members;
    if both == 0 {
        return u64::trailing_zeros(members) as usize;
    }
    u64::trailing_zeros(both) as usize
}

// Answers for each column the block of its cache set that is chosen: this block, and of other cache sets the lowest left, so that soon none is.
pub(crate) fn choose(
    columns: &[u8],
    sets: &[u64; Group::KEYS],
    left: u64,
    block: usize,
    blocks: usize,
) -> [u8; Geometry::BLOCKS]
    requires { (block < most_blocks) × ((blocks ≤ most_blocks) × (blocks ≤ length columns.now)) }
    ensures { result ≡ picked_all columns.now sets.now left block blocks (replicate most_blocks 0) }
{
    let mut chosen = [0u8; Geometry::BLOCKS];
    for m in 0..blocks {
        let key = usize::from(columns[m]);
        chosen[m] = pick(sets[key], left, block) as u8;
    }
    chosen
}

// What is left without column m, if that is the one that is chosen.
fn left_without(rest: u64, m: usize, picked: usize) -> u64
    requires { m < most_blocks }
    ensures { result ≡ cond (eqb picked m) (without rest (2 ^ m)) rest }
{
    if picked == m {
        return rest ^ (rest & (1 << m));
    }
    rest
}

impl Group<'_> {
    // What is left without the blocks that are chosen; none else is taken out.
    pub(crate) fn left_after(&self, left: u64, blocks: usize) -> u64
        requires { blocks ≤ most_blocks }
        ensures { TakenOut self.now.chosen blocks left result }
    {
        let mut rest = left;
        for m in 0..blocks {
            rest = left_without(rest, m, usize::from(self.chosen[m]));
        }
        rest
    }
}
