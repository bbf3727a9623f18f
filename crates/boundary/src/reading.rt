// The reader as a function for C. It returns the refusal's number, 0 for none; without room for its answer, or for the header, it returns 11, and
// has done nothing. The blocks are not told.
ghost use Rattle.std.specs.Prelude.{◌≡◌, ◌≤◌, length};
ghost use Rattle.chart.specs.Reading.{reading, verdict_says, read_says};
ghost use Rattle.boundary.specs.Told.{returned, left, told, read_numbers, header_told, read_short};

use crate::telling::{no_room, refused, tell};
use chart::Outline;
use refusals::Refusal;

// The numbers of the reader's answer.
fn verdict_numbers(verdict: Result<Outline, Refusal>) -> [u64; 3]
    ensures { result ≡ read_numbers (verdict_says verdict) }
{
    match verdict {
        Ok(outline) => [0, 0, outline.blocks as u64],
        Err(refusal) => refused(refusal),
    }
}

// Tells the header of an accepted chart in a lent list; after a refusal the list stays as it was.
fn tell_header(verdict: Result<Outline, Refusal>, lent: &mut [u64])
    requires { 6 ≤ length lent.old }
    ensures { lent.new ≡ header_told verdict lent.old }
{
    let Ok(outline) = verdict else {
        return;
    };
    let header = outline.header;
    let geometry = header.geometry;
    let start = header.start;
    let line = geometry.line as u64;
    let sets = geometry.sets as u64;
    let ways = geometry.ways as u64;
    let code = start.code() as u64;
    let nodes = header.nodes as u64;
    let entry = header.entry as u64;
    let numbers = [line, sets, ways, code, nodes, entry];
    tell(&numbers, lent);
}

// Tells what `chart::read` answers: number, place and B, and an accepted chart's header in a list of its own (rule 12.9). Returns the number, 0 for
// no refusal; or 11 for fewer than three places or fewer than six for the header, and then all that is lent stays as it was.
pub fn veilbuzz_read(chart: &[u8], header: &mut [u64], answer: &mut [u64]) -> u64
    ensures value { result ≡ returned (read_short header.old answer.old) (read_says chart.now).number }
    ensures header_after { header.new ≡ left (read_short header.old answer.old) header.old (header_told (reading chart.now).verdict header.old) }
    ensures answer_after { answer.new ≡ told (read_short header.old answer.old) (read_numbers (read_says chart.now)) answer.old }
{
    let short = (header.len() < 6) | (answer.len() < 3);
    if short {
        return no_room();
    }
    let verdict = chart::read(chart).verdict;
    tell_header(verdict, header);
    let numbers = verdict_numbers(verdict);
    tell(&numbers, answer);
    numbers[0]
}
