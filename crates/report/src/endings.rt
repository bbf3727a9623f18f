// How the program ends (rule 13.3): answers the number that its exit status is to be, for every answer of the analysis, written whole or not.
ghost use Rattle.std.specs.Prelude.{◌≡◌};
ghost use Rattle.report.specs.Ending.{ending_of};

// Answers 0 after a report and 1 after a refusal, if the text was written whole; else 2.
pub fn ending(refused: bool, whole: bool) -> u64
    ensures { result ≡ ending_of refused whole }
{
    if whole {
        if refused { 1 } else { 0 }
    } else {
        2
    }
}
