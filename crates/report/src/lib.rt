// The program's report: answers any input with the text that is to be printed for it (rules 14.1 to 14.4), and then which exit status it is to have.
// Neither function refuses: a refused chart has a text as well.
#![tactic(auto)]

mod endings;
mod input;
mod lines;
mod puts;
mod text;

pub use endings::ending;
pub use input::{TAKEN, report};
pub use text::Text;
