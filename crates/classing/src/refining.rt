// Tells of touches that are unsure by their ages whether they are kept. Callers keep that there is room. Nothing is refused here.
ghost use Rattle.std.specs.Prelude.{◌≡◌, ◌≤◌, length, get_or};
ghost use Rattle.lists.specs.Loops.{patch};
ghost use Rattle.classing.specs.Both.{refined};

use crate::{KEPT, UNSURE};

// A class by the ages alone, or kept: where it is unsure, and `stays` is not 0.
fn refine(class: u8, stays: u8) -> u8
    ensures { result ≡ refined class stays }
{
    if (class == UNSURE) & (stays != 0) {
        KEPT
    } else {
        class
    }
}

// Refines the first `count` classes, where it is told of each touch whose class is unsure whether few blocks are in the set of its block.
pub(crate) fn refine_all(stays: &[u8], classes: &mut [u8], count: usize)
    requires { (count ≤ length stays.now) × (count ≤ length classes.old) }
    ensures { classes.new ≡ patch classes.old 0 count (λ i. refined (get_or classes.old i 0) (get_or stays.now i 0)) }
{
    for (i, class) in classes[..count].iter_mut().enumerate() {
        *class = refine(*class, stays[i]);
    }
}
