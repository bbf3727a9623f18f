// Sets of small numbers as bits, 64 to a word: one is put in, one is taken out, and the first from a place on is found. Callers keep that the words
// reach as far. Nothing is refused here.
#![tactic(auto)]

ghost use Rattle.std.specs.Prelude.{true, ◌≡◌, ◌*◌, ◌^◌, ◌≤◌, ◌<◌, length};
ghost use Rattle.bits.specs.Bits.{is_member, with_member, without_member, FirstFrom};

// How many bits a word has.
pub const WIDTH: usize = 64;

// Puts a number into a set.
#[tactic(auto, using(lists::proofs::Shifts::one_shifted), unfolding(crate::specs::Bits::with_member))]
pub fn put(set: &mut [u64], n: usize)
    requires { n < 64 * length set.old }
    ensures { set.new ≡ with_member n set.old }
{
    set[n / WIDTH] |= 1 << (n % WIDTH);
}

// Takes a member out of a set.
#[tactic(auto, using(lists::proofs::Shifts::one_shifted), unfolding(crate::specs::Bits::without_member))]
pub fn take_out(set: &mut [u64], n: usize)
    requires { (n < 64 * length set.old) × (is_member set.old n ≡ true) }
    ensures { set.new ≡ without_member n set.old }
{
    set[n / WIDTH] ^= 1 << (n % WIDTH);
}

// The first member below `count` in the words from number `first` on; `count` where there is none.
fn first_in_words(set: &[u64], first: usize, count: usize) -> usize
    requires { (count ≤ 2 ^ 32) × (count ≤ 64 * length set.now) }
    ensures { FirstFrom set.now (64 * first) count result }
{
    for word in first..count.div_ceil(WIDTH) {
        let bits = set[word];
        if bits != 0 {
            return (WIDTH * word + bits.trailing_zeros() as usize).min(count);
        }
    }
    count
}

// The first member from `from` on and below `count`; `count` where there is none. That it is `from` itself is looked at first: then no place of a bit
// has to be waited for.
pub fn first_from(set: &[u64], from: usize, count: usize) -> usize
    requires { (count ≤ 2 ^ 32) × (count ≤ 64 * length set.now) }
    ensures { FirstFrom set.now from count result }
{
    if count <= from {
        return count;
    }
    let word = from / WIDTH;
    let rest = set[word] >> (from % WIDTH);
    if rest % 2 == 1 {
        return from;
    }
    if rest != 0 {
        return (from + rest.trailing_zeros() as usize).min(count);
    }
    first_in_words(set, word + 1, count)
}
