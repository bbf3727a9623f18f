// The writer as a function for C. It returns the refusal's number, 0 for none, and leaves what `writer::write` leaves; without room for its answer it
// returns 11, and has done nothing.
ghost use Rattle.std.specs.Prelude.{◌≡◌};
ghost use Rattle.writer.specs.Writer.{wrote, wrote_says, write_says};
ghost use Rattle.writer.specs.Contract.{entry_lists};
ghost use Rattle.boundary.specs.Told.{wrote_short, returned, left, told, wrote_numbers, heading_given};

use crate::telling::{no_room, refused, tell};
use refusals::Refusal;
use writer::Heading;

// The numbers of the writer's answer.
fn wrote_numbers(answer: Result<usize, Refusal>) -> [u64; 3]
    ensures { result ≡ wrote_numbers (wrote_says answer) }
{
    match answer {
        Ok(count) => [0, 0, count as u64],
        Err(refusal) => refused(refusal),
    }
}

// Tells what `writer::write` answers: number, place and how many bytes were written (rule 12.9). Returns the number, 0 for no refusal; or 11 for
// fewer than three places, and then all that is lent stays as it was.
pub fn veilbuzz_write(
    line: u64,
    sets: u64,
    ways: u64,
    start: u64,
    nodes: u64,
    entry: u64,
    kinds: &[u64],
    addresses: &[u64],
    sizes: &[u64],
    outs: &[u64],
    firsts: &[u64],
    seconds: &[u64],
    chart: &mut [u8],
    answer: &mut [u64],
) -> u64
    ensures value { result ≡ returned (wrote_short answer.old) (write_says (heading_given line sets ways start nodes entry) (entry_lists kinds addresses sizes outs firsts seconds) chart.old).number }
    ensures chart_after { chart.new ≡ left (wrote_short answer.old) chart.old (wrote (heading_given line sets ways start nodes entry) (entry_lists kinds addresses sizes outs firsts seconds) chart.old).chart }
    ensures answer_after { answer.new ≡ told (wrote_short answer.old) (wrote_numbers (write_says (heading_given line sets ways start nodes entry) (entry_lists kinds addresses sizes outs firsts seconds) chart.old)) answer.old }
{
    if answer.len() < 3 {
        return no_room();
    }
    let heading = Heading {
        line: line,
        sets: sets,
        ways: ways,
        start: start,
        nodes: nodes,
        entry: entry,
    };
    let numbers = wrote_numbers(writer::write(
        heading, kinds, addresses, sizes, outs, firsts, seconds, chart,
    ));
    tell(&numbers, answer);
    numbers[0]
}
