// Facts about a walk and certificates, as far as they are lists of whole numbers: their ranges, multipliers times numbers, nodes that are ruled out, and
// potentials. Nothing here knows of charts. `in_range` takes any lists; callers of the others keep that lists are long enough, and numbers in their
// ranges. Nothing is refused here.
#![tactic(auto)]

mod comparing;
mod parts;
mod ranges;
mod ruling;
mod weighing;

pub use comparing::{arrow_holds, is_higher, least_of, most_of, start_holds};
pub use parts::Parts;
pub use ranges::in_range;
pub use ruling::write_openings;
pub use weighing::weigh;

// Which bound it is: one that no walk costs more than, or one that none costs less than.
#[derive(Clone, Copy)]
pub enum Side {
    High,
    Low,
}
