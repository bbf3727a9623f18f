// The writer as a whole: for any numbers, lists and buffer, the chart's bytes and how many they are, or the first refusal that applies.
ghost use Rattle.std.specs.Prelude.{◌≡◌, true, ◌++◌, ◌≤◌, length, get_or};
ghost use Rattle.lists.specs.Choice.{NoneApplies, first_case};
ghost use Rattle.lists.specs.Loops.{patch};
ghost use Rattle.chart.specs.Geometry.{most_nodes};
ghost use Rattle.chart.specs.Layout.{chart_length};
ghost use Rattle.chart.specs.Header.{header_cases, header_of};
ghost use Rattle.chart.specs.Chart.{record_cases};
ghost use Rattle.writer.specs.Given.{header_given, listed, AllLong};
ghost use Rattle.writer.specs.Writer.{room_cases, stored, refuse_writing, wrote, wrote_says, write_says};
ghost use Rattle.writer.specs.Held.{lists_in};
ghost use Rattle.writer.specs.Contract.{entry_lists, exit_writing};

use crate::heading::{Heading, header_given};
use crate::nodes::Lists;
use crate::packing::{pack_header, put_word};
use chart::{Geometry, Header, gather, header_of};
use refusals::Refusal;

// Copies so many bytes to a lent buffer, or refuses with 11 where there is no room for them.
fn store(packed: &[u8], nodes: usize, chart: &mut [u8]) -> Result<usize, Refusal>
    requires { (nodes ≤ most_nodes) × (chart_length nodes ≤ length packed.now) }
    ensures { exit_writing chart result ≡ first_case (refuse_writing chart.old) (room_cases nodes chart.old) (record { answer = Ok (chart_length nodes); chart = patch chart.old 0 (chart_length nodes) (λ k. get_or packed.now k 0) }) }
{
    let used = 8 + 8 * nodes;
    if chart.len() < used {
        return Err(Refusal::ShortBuffer);
    }
    chart[..used].copy_from_slice(&packed[..used]);
    Ok(used)
}

// Stores what is given under an accepted header, or the first of refusals 9 to 11 that applies. All is packed in a chart of its own first, so that
// nothing is written before it is known that nothing is refused; and so the blocks are gathered as the reader does.
fn write_nodes(
    heading: Heading,
    header: Header,
    lists: Lists<'_>,
    chart: &mut [u8],
) -> Result<usize, Refusal>
    requires header_value { (header ≡ header_of (header_given heading)) × NoneApplies (header_cases (header_given heading) true) }
    requires all_long { AllLong header.nodes (lists_in lists) }
    ensures { exit_writing chart result ≡ first_case (refuse_writing chart.old) (record_cases (listed (lists_in lists.entry)) header ++ room_cases header.nodes chart.old) (stored heading (lists_in lists.entry) chart.old) }
{
    let geometry = header.geometry;
    let nodes = header.nodes;
    let mut packed = [0u8; Geometry::LONGEST];
    put_word(&mut packed, 0, pack_header(header_given(heading)));
    lists.pack_records(nodes, &mut packed)?;
    let mut blocks = [0u32; Geometry::BLOCKS];
    gather(&packed, geometry, nodes, &mut blocks)?;
    store(&packed, nodes, chart)
}

// Writes the chart of these fields over the start of a lent buffer and answers its length; or refuses what the reader would refuse, and a buffer that
// is too short, and leaves the buffer as it was (rules 15.3 to 15.6).
pub fn write(
    heading: Heading,
    kinds: &[u64],
    addresses: &[u64],
    sizes: &[u64],
    outs: &[u64],
    firsts: &[u64],
    seconds: &[u64],
    chart: &mut [u8],
) -> Result<usize, Refusal>
    ensures result_value { exit_writing chart result ≡ wrote heading (entry_lists kinds addresses sizes outs firsts seconds) chart.old }
    ensures result_value_2 { wrote_says result ≡ write_says heading (entry_lists kinds addresses sizes outs firsts seconds) chart.old }
{
    let lists = Lists {
        kinds,
        addresses,
        sizes,
        outs,
        firsts,
        seconds,
    };
    let header = header_of(header_given(heading), lists.all_long(heading.nodes))?;
    write_nodes(heading, header, lists, chart)
}
