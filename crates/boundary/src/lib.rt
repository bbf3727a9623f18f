// The library for callers in other languages: numbers, and runs of numbers with their lengths. include/veilbuzz.h declares it in C. Each function
// answers for whatever is lent: it returns a refusal's number, or 0, and tells the rest by rules 12.9, 17.6 and 18.10. The crate `boundary_c` exports
// them to C, under the same names.
//
// A caller answers for it that each pointer has its length behind it, aligned and set to something, that no buffer that is written overlaps
// another, and that nobody else writes to one meanwhile, or reads what is written. A pointer whose length is 0 may be null. For `veilbuzz_deadline`
// he answers for it too that the processor rounds floats to nearest, ties to even, and takes small ones as they are: IEEE 754's own way, and what a
// process begins with.
#![tactic(auto)]

mod analysing;
mod bounding;
mod checking;
mod judging;
mod picking;
mod reading;
mod telling;
mod totalling;
mod writing;

pub use analysing::veilbuzz_analyse;
pub use bounding::veilbuzz_bound;
pub use checking::veilbuzz_check;
pub use judging::veilbuzz_deadline;
pub use picking::{veilbuzz_blocks, veilbuzz_node};
pub use reading::veilbuzz_read;
pub use totalling::veilbuzz_total;
pub use writing::veilbuzz_write;
