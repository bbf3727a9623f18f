// Passes over the table of a plan in lent buffers (rules 9.2 to 9.5). One pass answers whether it changed anything; passes until one changes
// nothing answer how many were made, or that the allowance was used up before. In a pass only those nodes are taken that are due: whose row has changed
// since they last sent what they have. Callers keep that the buffers have room and hold a table that passes
// have come to. Nothing is refused here.
#![tactic(auto)]

mod settling;
mod taking;

pub use settling::{pass, settle};
