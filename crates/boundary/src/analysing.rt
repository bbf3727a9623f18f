// The analysis as a function for C. It returns the refusal's number, 0 for none, and leaves what `analysis::analyse` leaves; without room for its
// answer it returns 11, and has done nothing.
ghost use Rattle.std.specs.Prelude.{◌≡◌};
ghost use Rattle.analysis.specs.Analysis.{entry_buffers, exit_buffers, analysed_says, analysed, analyse_says};
ghost use Rattle.boundary.specs.Told.{analysed_short, returned, left, told, analysed_numbers};

use crate::telling::{no_room, refused, tell};
use analysis::{SettledAfter, Unanalysed};
use refusals::Refusal;

// The numbers of the analysis's answer.
fn analysed_numbers(answer: Result<SettledAfter, Unanalysed>) -> [u64; 4]
    ensures { result ≡ analysed_numbers (analysed_says answer) }
{
    match answer {
        Ok(SettledAfter { passes, blocks }) => [0, 0, passes as u64, blocks as u64],
        Err(Unanalysed::Unsettled { allowance, blocks }) => {
            let [number, place]: [u64; 2] = refused(Refusal::Unsettled);
            [number, place, allowance as u64, blocks as u64]
        }
        Err(Unanalysed::Refused(refusal)) => refused(refusal),
    }
}

// Tells what `analysis::analyse` answers: number, place, pass count and B (rule 12.9). Returns the number, 0 for no refusal; or 11 for fewer than
// four places, and then all that is lent stays as it was.
pub fn veilbuzz_analyse(
    chart: &[u8],
    allowance: usize,
    blocks: &mut [u32],
    must: &mut [u8],
    may: &mut [u8],
    marks: &mut [u8],
    classes: &mut [u8],
    answer: &mut [u64],
) -> u64
    ensures value { result ≡ returned (analysed_short answer.old) (analyse_says chart.now allowance (entry_buffers blocks.old must.old may.old marks.old classes.old)).number }
    ensures classes_value { exit_buffers blocks.new must.new may.new marks.new classes.new ≡ left (analysed_short answer.old) (entry_buffers blocks.old must.old may.old marks.old classes.old) (analysed chart.now allowance (entry_buffers blocks.old must.old may.old marks.old classes.old)).buffers }
    ensures answer_after { answer.new ≡ told (analysed_short answer.old) (analysed_numbers (analyse_says chart.now allowance (entry_buffers blocks.old must.old may.old marks.old classes.old))) answer.old }
{
    if answer.len() < 4 {
        return no_room();
    }
    let given = analysis::analyse(chart, allowance, blocks, must, may, marks, classes);
    let numbers = analysed_numbers(given);
    tell(&numbers, answer);
    numbers[0]
}
