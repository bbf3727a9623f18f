// The analysis: makes passes over a chart until its table settles, and leaves blocks, ages, marks and classes in five lent buffers. It refuses with
// the first of 1 to 12 that applies; what is left then, rule 12.3 says.
#![tactic(auto)]

mod buffers;
mod settled;

ghost use Rattle.std.specs.Prelude.{◌≡◌};
ghost use Rattle.analysis.specs.declared.Unanalysed.TheVariants.{Refused};
ghost use Rattle.analysis.specs.Analysis.{refusal_of};

use refusals::Refusal;
pub use settled::analyse;

// After how many passes the analysis settled, and how many blocks the chart has.
#[derive(Clone, Copy)]
pub struct SettledAfter {
    pub passes: usize,
    pub blocks: usize,
}

// Why there is no analysis: not settled within the allowance (refusal 12, which tells how many blocks there are too), or one of refusals 1 to 11.
#[derive(Clone, Copy)]
pub enum Unanalysed {
    Unsettled { allowance: usize, blocks: usize },
    Refused(Refusal),
}

impl Unanalysed {
    // The refusal that it is: 12 where the allowance was used up.
    pub fn refusal(self) -> Refusal
        ensures { result ≡ refusal_of self }
    {
        match self {
            Unanalysed::Unsettled {
                allowance: _,
                blocks: _,
            } => Refusal::Unsettled,
            Unanalysed::Refused(refusal) => refusal,
        }
    }
}

impl From<Refusal> for Unanalysed {
    ghost from_gives = { λ refusal error. error ≡ Refused refusal };

    fn from(refusal: Refusal) -> Unanalysed {
        Unanalysed::Refused(refusal)
    }
}
