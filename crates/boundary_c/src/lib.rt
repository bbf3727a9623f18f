// The static library for C: what `boundary` answers, exported. include/veilbuzz.h declares each of these functions, a slice as a pointer and a length.
// Each calls the function of its name in `boundary`, and promises what that promises. What a caller answers for is said there.
#![tactic(auto)]

ghost use Rattle.std.specs.Prelude.{◌≡◌};
ghost use Rattle.chart.specs.Reading.{reading, read_says};
ghost use Rattle.boundary.specs.Told.{returned, left, told, read_numbers, header_told, read_short, node_short, blocks_short, node_numbers, fields_told, blocks_numbers, wrote_short, wrote_numbers, heading_given, analysed_short, analysed_numbers, checked_short, checked_numbers, totals_short, totals_numbers};
ghost use Rattle.fields.specs.Fields.{node_read, read_node_says, blocks_read, read_blocks_say};
ghost use Rattle.writer.specs.Writer.{wrote, write_says};
ghost use Rattle.writer.specs.Contract.{entry_lists};
ghost use Rattle.analysis.specs.Analysis.{entry_buffers, exit_buffers, analysed, analyse_says};
ghost use Rattle.tables.specs.Contract.{entry_table};
ghost use Rattle.checker.specs.Checker.{check_says};
ghost use Rattle.totals.specs.Totals.{entry_figures, total_says};
ghost use Rattle.deadline.specs.Deadline.{judged, judge_says};
ghost use Rattle.boundary.specs.Timed.{sheet_given, deadline_given, judged_short, judged_numbers, figures_told};
ghost use Rattle.facts.specs.Listed.{entry_facts, entry_certificate};
ghost use Rattle.certificate.specs.Bound.{asked, bound_says};
ghost use Rattle.boundary.specs.Certifying.{side_given, denominator_given, bound_short, bound_numbers};

// Tells what `chart::read` answers: number, place and B, and an accepted chart's header in a list of its own (rule 12.9). Returns the number, 0 for
// no refusal; or 11 for fewer than three places or fewer than six for the header, and then all that is lent stays as it was.
#[unsafe(no_mangle)]
pub extern "C" fn veilbuzz_read(chart: &[u8], header: &mut [u64], answer: &mut [u64]) -> u64
    ensures value { result ≡ returned (read_short header.old answer.old) (read_says chart.now).number }
    ensures header_after { header.new ≡ left (read_short header.old answer.old) header.old (header_told (reading chart.now).verdict header.old) }
    ensures answer_after { answer.new ≡ told (read_short header.old answer.old) (read_numbers (read_says chart.now)) answer.old }
{
    boundary::veilbuzz_read(chart, header, answer)
}

// Tells what `fields::read_node` answers: number, place, and 1 for a node that there is or 0 for one that there is not, and the node's fields in a
// list of its own (rule 12.9). Returns the number, 0 for no refusal; or 11 for fewer than three places or fewer than six for the fields, and then
// all that is lent stays as it was.
#[unsafe(no_mangle)]
pub extern "C" fn veilbuzz_node(
    chart: &[u8],
    node: usize,
    fields: &mut [u64],
    answer: &mut [u64],
) -> u64
    ensures value { result ≡ returned (node_short fields.old answer.old) (read_node_says chart.now node).number }
    ensures fields_after { fields.new ≡ left (node_short fields.old answer.old) fields.old (fields_told (node_read chart.now node) fields.old) }
    ensures answer_after { answer.new ≡ told (node_short fields.old answer.old) (node_numbers (read_node_says chart.now node)) answer.old }
{
    boundary::veilbuzz_node(chart, node, fields, answer)
}

// Tells what `fields::read_blocks` answers: number, place and B (rule 12.9). Returns the number, 0 for no refusal; or 11 for fewer than three
// places, and then all that is lent stays as it was.
#[unsafe(no_mangle)]
pub extern "C" fn veilbuzz_blocks(chart: &[u8], blocks: &mut [u32], answer: &mut [u64]) -> u64
    ensures value { result ≡ returned (blocks_short answer.old) (read_blocks_say chart.now blocks.old).number }
    ensures blocks_after { blocks.new ≡ left (blocks_short answer.old) blocks.old (blocks_read chart.now blocks.old).blocks }
    ensures answer_after { answer.new ≡ told (blocks_short answer.old) (blocks_numbers (read_blocks_say chart.now blocks.old)) answer.old }
{
    boundary::veilbuzz_blocks(chart, blocks, answer)
}

// Tells what `writer::write` answers: number, place and how many bytes were written (rule 12.9). Returns the number, 0 for no refusal; or 11 for
// fewer than three places, and then all that is lent stays as it was.
#[unsafe(no_mangle)]
pub extern "C" fn veilbuzz_write(
    line: u64,
    sets: u64,
    ways: u64,
    start: u64,
    nodes: u64,
    entry: u64,
    kinds: &[u64],
    addresses: &[u64],
    sizes: &[u64],
    outs: &[u64],
    firsts: &[u64],
    seconds: &[u64],
    chart: &mut [u8],
    answer: &mut [u64],
) -> u64
    ensures value { result ≡ returned (wrote_short answer.old) (write_says (heading_given line sets ways start nodes entry) (entry_lists kinds addresses sizes outs firsts seconds) chart.old).number }
    ensures chart_after { chart.new ≡ left (wrote_short answer.old) chart.old (wrote (heading_given line sets ways start nodes entry) (entry_lists kinds addresses sizes outs firsts seconds) chart.old).chart }
    ensures answer_after { answer.new ≡ told (wrote_short answer.old) (wrote_numbers (write_says (heading_given line sets ways start nodes entry) (entry_lists kinds addresses sizes outs firsts seconds) chart.old)) answer.old }
{
    boundary::veilbuzz_write(
        line, sets, ways, start, nodes, entry, kinds, addresses, sizes, outs, firsts, seconds,
        chart, answer,
    )
}

// Tells what `analysis::analyse` answers: number, place, pass count and B (rule 12.9). Returns the number, 0 for no refusal; or 11 for fewer than
// four places, and then all that is lent stays as it was.
#[unsafe(no_mangle)]
pub extern "C" fn veilbuzz_analyse(
    chart: &[u8],
    allowance: usize,
    blocks: &mut [u32],
    must: &mut [u8],
    may: &mut [u8],
    marks: &mut [u8],
    classes: &mut [u8],
    answer: &mut [u64],
) -> u64
    ensures value { result ≡ returned (analysed_short answer.old) (analyse_says chart.now allowance (entry_buffers blocks.old must.old may.old marks.old classes.old)).number }
    ensures classes_value { exit_buffers blocks.new must.new may.new marks.new classes.new ≡ left (analysed_short answer.old) (entry_buffers blocks.old must.old may.old marks.old classes.old) (analysed chart.now allowance (entry_buffers blocks.old must.old may.old marks.old classes.old)).buffers }
    ensures answer_after { answer.new ≡ told (analysed_short answer.old) (analysed_numbers (analyse_says chart.now allowance (entry_buffers blocks.old must.old may.old marks.old classes.old))) answer.old }
{
    boundary::veilbuzz_analyse(chart, allowance, blocks, must, may, marks, classes, answer)
}

// Tells what `checker::check` answers: number, place, and 1 for yes or 0 for no (rule 12.9). Returns the number, 0 for no refusal; or 11 for fewer
// than three places, and then all that is lent stays as it was.
#[unsafe(no_mangle)]
pub extern "C" fn veilbuzz_check(
    chart: &[u8],
    must: &[u8],
    may: &[u8],
    marks: &[u8],
    answer: &mut [u64],
) -> u64
    ensures value { result ≡ returned (checked_short answer.old) (check_says chart.now (entry_table must.now may.now marks.now)).number }
    ensures answer_after { answer.new ≡ told (checked_short answer.old) (checked_numbers (check_says chart.now (entry_table must.now may.now marks.now))) answer.old }
{
    boundary::veilbuzz_check(chart, must, may, marks, answer)
}

// Tells what `totals::total` answers: number, place, the low and the high total (rule 12.9). Returns the number, 0 for no refusal; or 11 for fewer
// than four places, and then all that is lent stays as it was.
#[unsafe(no_mangle)]
pub extern "C" fn veilbuzz_total(
    chart: &[u8],
    must: &[u8],
    may: &[u8],
    marks: &[u8],
    hit: u16,
    miss: u16,
    floors: &[u16],
    ceilings: &[u16],
    answer: &mut [u64],
) -> u64
    ensures value { result ≡ returned (totals_short answer.old) (total_says chart.now (entry_table must.now may.now marks.now) (entry_figures hit miss floors ceilings)).number }
    ensures answer_after { answer.new ≡ told (totals_short answer.old) (totals_numbers (total_says chart.now (entry_table must.now may.now marks.now) (entry_figures hit miss floors ceilings))) answer.old }
{
    boundary::veilbuzz_total(chart, must, may, marks, hit, miss, floors, ceilings, answer)
}

// Tells what `deadline::judge` answers: number, place, and 1 where the deadline is met or 0 where it is not, and the low and the high figure in a
// list of their own (rules 12.9 and 17.6). Returns the number, 0 for no refusal; or 11 for fewer than three places or fewer than two for the
// figures, and then all that is lent stays as it was.
#[unsafe(no_mangle)]
pub extern "C" fn veilbuzz_deadline(
    chart: &[u8],
    must: &[u8],
    may: &[u8],
    marks: &[u8],
    hit: u16,
    miss: u16,
    floors: &[u16],
    ceilings: &[u16],
    period: f64,
    overhead: f64,
    kind: u64,
    earliest: f64,
    latest: f64,
    figures: &mut [f64],
    answer: &mut [u64],
) -> u64
    ensures value { result ≡ returned (judged_short figures.old answer.old) (judge_says chart.now (entry_table must.now may.now marks.now) (entry_figures hit miss floors ceilings) (sheet_given period overhead) (deadline_given kind earliest latest)).number }
    ensures figures_after { figures.new ≡ left (judged_short figures.old answer.old) figures.old (figures_told (judged chart.now (entry_table must.now may.now marks.now) (entry_figures hit miss floors ceilings) (sheet_given period overhead) (deadline_given kind earliest latest)) figures.old) }
    ensures answer_after { answer.new ≡ told (judged_short figures.old answer.old) (judged_numbers (judge_says chart.now (entry_table must.now may.now marks.now) (entry_figures hit miss floors ceilings) (sheet_given period overhead) (deadline_given kind earliest latest))) answer.old }
{
    boundary::veilbuzz_deadline(
        chart, must, may, marks, hit, miss, floors, ceilings, period, overhead, kind, earliest,
        latest, figures, answer,
    )
}

// Tells what `certificate::bound` answers: number, place and the bound (rules 12.9 and 18.10). Returns the number, 0 for no refusal; or 11 for fewer than
// three places, and then all that is lent stays as it was.
#[unsafe(no_mangle)]
pub extern "C" fn veilbuzz_bound(
    chart: &[u8],
    must: &[u8],
    may: &[u8],
    marks: &[u8],
    hit: u16,
    miss: u16,
    side: u64,
    coefficients: &[i64],
    limits: &[i64],
    multipliers: &[i64],
    potentials: &[i64],
    denominator: u64,
    answer: &mut [u64],
) -> u64
    ensures value { result ≡ returned (bound_short answer.old) (bound_says chart.now (entry_table must.now may.now marks.now) (asked (side_given side) hit miss (entry_facts coefficients limits) (entry_certificate multipliers potentials (denominator_given side denominator)))).number }
    ensures answer_after { answer.new ≡ told (bound_short answer.old) (bound_numbers (bound_says chart.now (entry_table must.now may.now marks.now) (asked (side_given side) hit miss (entry_facts coefficients limits) (entry_certificate multipliers potentials (denominator_given side denominator))))) answer.old }
{
    boundary::veilbuzz_bound(
        chart,
        must,
        may,
        marks,
        hit,
        miss,
        side,
        coefficients,
        limits,
        multipliers,
        potentials,
        denominator,
        answer,
    )
}
