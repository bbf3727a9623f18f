// What the tool answers when it refuses: which refusal it is, and of each its number and its place. Both answer for every refusal.
#![tactic(auto)]

ghost use Rattle.std.specs.Prelude.{◌≡◌};
ghost use Rattle.refusals.specs.Refusals.{number_of, place_of};

use std::error::Error;
use std::fmt;

// The refusals in the order of rules 11.1 to 11.18 and 11.23 to 11.25; those that are a node's fault carry the node. 19 to 22 are given by nothing yet.
#[derive(Clone, Copy, Debug, PartialEq, Eq)]
pub enum Refusal {
    TooShort,
    Edition,
    CacheShape,
    StartCode,
    NodeCount,
    EntryNode,
    SpareBits,
    Length,
    BrokenRecord(usize),
    TooManyBlocks(usize),
    ShortBuffer,
    Unsettled,
    NotPassing,
    BoundsLength,
    MissBelowHit,
    FloorAboveCeiling(usize),
    FloorAtUnmarked(usize),
    ImpossibleTimes,
    FactsLength,
    NumberOutOfRange,
    CertificateFails(usize),
}

impl Refusal {
    // The refusal's number, 1 to 18 or 23 to 25 (rule 11.0).
    pub fn number(self) -> u64
        ensures { result ≡ number_of self }
    {
        match self {
            Refusal::TooShort => 1,
            Refusal::Edition => 2,
            Refusal::CacheShape => 3,
            Refusal::StartCode => 4,
            Refusal::NodeCount => 5,
            Refusal::EntryNode => 6,
            Refusal::SpareBits => 7,
            Refusal::Length => 8,
            Refusal::BrokenRecord(_) => 9,
            Refusal::TooManyBlocks(_) => 10,
            Refusal::ShortBuffer => 11,
            Refusal::Unsettled => 12,
            Refusal::NotPassing => 13,
            Refusal::BoundsLength => 14,
            Refusal::MissBelowHit => 15,
            Refusal::FloorAboveCeiling(_) => 16,
            Refusal::FloorAtUnmarked(_) => 17,
            Refusal::ImpossibleTimes => 18,
            Refusal::FactsLength => 23,
            Refusal::NumberOutOfRange => 24,
            Refusal::CertificateFails(_) => 25,
        }
    }

    // The node that is at fault, or 0 where no single one is (rule 11.0).
    pub fn place(self) -> usize
        ensures { result ≡ place_of self }
    {
        match self {
            Refusal::BrokenRecord(node) => node,
            Refusal::TooManyBlocks(node) => node,
            Refusal::FloorAboveCeiling(node) => node,
            Refusal::FloorAtUnmarked(node) => node,
            Refusal::CertificateFails(node) => node,
            _ => 0,
        }
    }
}

// Rule 14.3: as in `refused 9 at 2`.
impl fmt::Display for Refusal {
    ghost use Rattle.std.specs.Prelude.{Some};
    ghost use Rattle.refusals.specs.Refusals.{refusal_text};

    ghost output = { λ refusal. Some (refusal_text refusal) };

    fn fmt<W: fmt::Write>(&self, f: &mut fmt::Formatter<W>) -> fmt::Result {
        write!(f, "refused {} at {}", self.number(), self.place())
    }
}

impl Error for Refusal {}
