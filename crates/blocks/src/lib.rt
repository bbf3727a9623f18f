// Ascending lists of blocks, in arrays that the caller lends: the place of a block, how many there are when one is put in (rule 3.4), and a list
// written into a buffer that has room for it.
// Nothing is refused here: callers keep lists that ascend, and look whether there are more blocks than they have places for.
#![tactic(auto)]

ghost use Rattle.std.specs.Prelude.{cond, ◌≡◌, ◌∷◌, ◌+◌, ◌-◌, ◌≤◌, ◌<◌, length, take, drop, get_or, ltb, IfNone};
ghost use Rattle.std.proofs.Math.Seq.{paste};
ghost use Rattle.lists.specs.Loops.{patch};
ghost use Rattle.blocks.specs.Blocks.{place_in, insert};
ghost use Rattle.blocks.specs.Listing.{Ascending, Listing, Laid};

use std::mem::replace;

// So many blocks are counted in one go; a longer list is halved first.
const STRETCH: usize = 16;

// 32 ones where `one` is below `other`, else 0: what is borrowed for their difference. Where the search chooses by a comparison which half
// to pass, the compiler makes a jump of it, and nobody can guess where a search goes.
fn below_mask(one: u32, other: u32) -> usize
    ensures { result ≡ cond (ltb one other) 4294967295 0 }
{
    (one as usize).wrapping_sub(other as usize) >> 32
}

// The place of a block among the first `place + left` of an ascending list, where it is known to be at least `place`, and `left` to be a
// stretch at most: how many of the last `left` are below it is counted, and in a block's width, because that is vector code.
fn place_by_count(blocks: &[u32], place: usize, left: usize, block: u32) -> usize
    requires left_bound { (left ≤ 16) × (place + left ≤ length blocks.now) }
    requires ascending { Ascending (place + left) blocks.now }
    requires place_bound { place ≤ place_in (take (place + left) blocks.now) block }
    ensures { result ≡ place_in (take (place + left) blocks.now) block }
{
    let mut below = 0u32;
    for other in &blocks[place..place + left] {
        below += u32::from(*other < block);
    }
    place + below as usize
}

// The place of a block among the first `count` of an ascending list, by halves: it is at least `place` and at most `place + left`. Each turn
// looks at the last block of the larger half of the `left`, passes that half if it is below, and leaves as many as the smaller half has.
// So `left` is halved whatever is found: 64 blocks have 7 halvings, and two of them lead to a stretch.
fn place_by_halves(blocks: &[u32], count: usize, block: u32) -> usize
    requires count_in_bounds { count ≤ length blocks.now }
    requires ascending { Ascending count blocks.now }
    ensures { result ≡ place_in (take count blocks.now) block }
{
    let mut place = 0;
    let mut left = count;
    while STRETCH < left {
        let rest = left >> 1;
        let half = left - rest;
        place += half & below_mask(blocks[place + half - 1], block);
        left = rest;
    }
    place_by_count(blocks, place, left, block)
}

// The place of a block among the first `count` of an ascending list: the first that is not below it, or `count`. So many are below it.
// A block past the last is told at once, since blocks often come in ascending order. A list of one stretch is counted by a call of its own,
// so that the compiler can keep it in registers.
pub fn place_in(blocks: &[u32], count: usize, block: u32) -> usize
    requires count_in_bounds { count ≤ length blocks.now }
    requires ascending { Ascending count blocks.now }
    ensures { result ≡ place_in (take count blocks.now) block }
{
    if 0 < count && blocks[count - 1] < block {
        return count;
    }
    if count <= STRETCH {
        return place_by_count(blocks, 0, count, block);
    }
    place_by_halves(blocks, count, block)
}

// Stores `block` at `place`; what stands from there up to `count` moves up by one. With `copy_within` and a store a chart is read more slowly by a
// tenth: that is too long to be put in place, and is called for each block.
fn shift_in(blocks: &mut [u32], place: usize, count: usize, block: u32)
    requires { (place ≤ count) × (count < length blocks.old) }
    ensures { blocks.new ≡ paste blocks.old place (block ∷ drop place blocks.old) (count - place + 1) }
{
    let mut carried = block;
    let part = &mut blocks[place..=count];
    for slot in part.iter_mut() {
        carried = replace(slot, carried);
    }
}

// Puts a block into the first `count` of an array of `most`, where it is not there yet, and answers how many there are then, or `None` where
// that is one too many: what the array holds then is not said.
pub fn put_block(blocks: &mut [u32], most: usize, count: usize, block: u32) -> Option<usize>
    requires { Listing most count blocks.old }
    ensures laid { Laid most (insert block (take count blocks.old)) result blocks.new }
    ensures one_over { IfNone result (length (insert block (take count blocks.old)) ≡ most + 1) }
{
    let place = place_in(blocks, count, block);
    if place < count && blocks[place] == block {
        return Some(count);
    }
    if most <= count {
        return None;
    }
    shift_in(blocks, place, count, block);
    Some(count + 1)
}

// Writes the first `count` blocks of the list over the start of a lent buffer, which keeps the rest (rules 12.2 and 15.2).
pub fn write_blocks(list: &[u32], count: usize, blocks: &mut [u32])
    requires { (count ≤ length list.now) × (count ≤ length blocks.old) }
    ensures { blocks.new ≡ patch blocks.old 0 count (λ k. get_or list.now k 0) }
{
    blocks[..count].copy_from_slice(&list[..count]);
}
