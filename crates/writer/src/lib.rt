// From fields to the bytes of a chart: `write` answers how many bytes it wrote, or the first of refusals 3 to 6 and 8 to 11 that applies to what it
// was given, and then it has written nothing. The rules are those of `chart`, asked of the fields given.
#![tactic(auto)]

mod heading;
mod nodes;
mod packing;
mod writing;

pub use heading::Heading;
pub use writing::write;
