// Works out which touches would be kept (rules 8.1 and 16.1 to 16.8), one block of each cache set at a time: what is held of these at a node is one
// word, and only nodes whose word has changed are taken again. Callers keep that the lists hold a plan. Nothing is refused here.
#![tactic(auto)]

mod choosing;
mod flooding;
mod putting;
mod span;
mod starting;
mod stays;
mod telling;
mod words;

pub use stays::write_stays;
