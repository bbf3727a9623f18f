// A program that runs the sounding of the totals: the loop chart is analysed, its table checked, its totals taken and held to a deadline. It reads
// a record that writes, and stands on the proofs of the three demands, of deadlines, of certificates, of the round trip and of the soundings. It
// takes no input, and prints the same each time.
#![tactic(auto)]

mod demanded;
mod sounding;

use crate::demanded::{
    asked_anything, bounds_anything, comes_back, kept_in_time, kept_within_bounds, says_most,
    says_so, sounded, told,
};
use crate::sounding::{
    are_bytes, loop_checked, loop_judged, loop_totals, three_kinds, written_node,
};
use chart::{Node, Reference};
use deadline::Judged;
use refusals::Refusal;
use std::io;
use totals::Totals;

// Writes what the checker answered.
fn print_checked(rt: &impl Print, answer: Result<bool, Refusal>) -> io::Result<()> {
    match answer {
        Ok(true) => println!(rt; "the checker passes the table"),
        Ok(false) => println!(rt; "the checker fails the table"),
        Err(refusal) => println!(rt; "{refusal}"),
    }
}

// Writes what the totals answered, as `low 2 high 20`.
fn print_totals(rt: &impl Print, answer: Result<Totals, Refusal>) -> io::Result<()> {
    match answer {
        Ok(Totals { low, high }) => println!(rt; "low {low} high {high}"),
        Err(refusal) => println!(rt; "{refusal}"),
    }
}

// Writes what was answered for a deadline.
fn print_judged(rt: &impl Print, answer: Result<Judged, Refusal>) -> io::Result<()> {
    match answer {
        Ok(Judged::Met { low: _, high: _ }) => println!(rt; "the deadline is met"),
        Ok(Judged::NotMet { low: _, high: _ }) => println!(rt; "the deadline is not met"),
        Err(refusal) => println!(rt; "{refusal}"),
    }
}

// Writes what a record does, as `writes 64 to 67`.
fn print_record(rt: &impl Print, what: Option<Reference>) -> io::Result<()> {
    let Some(reference) = what else {
        return print!(rt; "step");
    };
    let address = reference.address;
    let last = reference.last;
    if reference.write {
        print!(rt; "writes {address} to {last}")
    } else {
        print!(rt; "reads {address} to {last}")
    }
}

// Writes a node, as `writes 64 to 67, 1 arrows, first 2, second 0`.
fn print_node(rt: &impl Print, node: Node<Reference>) -> io::Result<()> {
    let what = node.what;
    let targets = node.targets;
    print_record(rt, what)?;
    let outs = targets.outs;
    let first = targets.first;
    let second = targets.second;
    println!(rt; ", {outs} arrows, first {first}, second {second}")
}

// Writes which claims are proved: it calls what promises them.
fn print_demanded(rt: &impl Print) -> io::Result<()> {
    asked_anything();
    println!(rt; "demand 1 is proved")?;
    says_most();
    println!(rt; "demand 2 is proved")?;
    says_so();
    println!(rt; "demand 3 is proved")?;
    kept_in_time();
    println!(rt; "that figures keep a met deadline is proved")?;
    bounds_anything();
    println!(rt; "when a certificate has a bound is proved")?;
    kept_within_bounds();
    println!(rt; "that walks that keep the facts keep within bounds is proved")?;
    comes_back();
    println!(rt; "the round trip is proved")?;
    sounded();
    println!(rt; "the soundings are proved")?;
    told();
    println!(rt; "what is told to C is proved")
}

// Writes what is answered by the checker, by the totals and for a deadline, a node that writes, and what is proved. It ends with the first write
// that fails.
fn main(rt: HostRuntime) -> io::Result<()> {
    print_checked(&rt, loop_checked())?;
    print_totals(&rt, loop_totals())?;
    print_judged(&rt, loop_judged())?;
    let bytes = three_kinds();
    print_node(&rt, written_node())?;
    are_bytes(&bytes);
    print_demanded(&rt)
}
