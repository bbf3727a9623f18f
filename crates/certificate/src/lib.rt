// The bound of a certificate: answers what no walk that keeps some facts costs more than, or less than, by a certificate that is lent; or refuses with the
// first of 1 to 11, 13, 15 and 23 to 25 that applies. A certificate that fails is refused and never mended. It looks at the used parts of the table
// alone, and writes to nothing that is lent.
#![tactic(auto)]

mod holding;
mod loading;
mod topping;
mod visiting;

ghost use Rattle.std.specs.Prelude.{◌≡◌, true, ◌<◌, ◌≤◌};
ghost use Rattle.plan.specs.Listed.{nodes_in};
ghost use Rattle.plan.specs.AsPlan.{drawn_as};
ghost use Rattle.tables.specs.AsTable.{lent_as};
ghost use Rattle.tables.specs.Contract.{entry_table};
ghost use Rattle.facts.specs.Certificate.{in_range, lengths_fit};
ghost use Rattle.facts.specs.Listed.{entry_facts, entry_certificate};
ghost use Rattle.certificate.specs.Bound.{asked, bounded_by, bounded, bounded_say, bound_says};
ghost use Rattle.certificate.specs.Inner.{certified_by};
ghost use Rattle.certificate.specs.Given.{facts_in, certificate_in, question_in};

use crate::loading::loads_of;
use crate::topping::{peak_of, top_at};
use crate::visiting::{Claimed, Price};
use chart::Geometry;
use facts::Side;
use plan::DrawnPlan;
use refusals::Refusal;
use tables::{PlanTable, Table};
use totals::Tariff;

// Facts and a certificate as they are lent, and what is paid on which side.
#[derive(Clone, Copy)]
struct Asked<'a> {
    coefficients: &'a [i64],
    limits: &'a [i64],
    multipliers: &'a [i64],
    potentials: &'a [i64],
    price: Price,
}

impl Asked<'_> {
    // Whether there are F coefficients for each node, F multipliers and a potential for each node, where F is the number of limits. The denominator is not
    // looked at, and nothing is multiplied that could overflow.
    fn lengths_fit(&self, nodes: usize) -> bool
        requires { 0 < nodes }
        ensures { result ≡ lengths_fit nodes (facts_in self.now) (certificate_in self.now) }
    {
        let count = self.limits.len();
        let rows = (self.coefficients.len() / nodes == count)
            & (self.coefficients.len() % nodes == 0);
        rows & ((self.multipliers.len() == count) & (self.potentials.len() == nodes))
    }

    // What is answered where lists have their lengths and numbers are in their ranges: refusal 25, or the bound.
    fn certified(&self, table: PlanTable, nodes: usize) -> Result<u64, Refusal>
        requires hit_le_miss { self.now.price.tariff.hit ≤ self.now.price.tariff.miss }
        requires nodes_value { nodes ≡ nodes_in table.plan.numbers.now }
        requires denominator_value { lengths_fit nodes (facts_in self.now) (certificate_in self.now) ≡ true }
        requires denominator_value_2 { in_range (facts_in self.now) (certificate_in self.now) ≡ true }
        ensures { result ≡ certified_by (drawn_as table.entry.plan) (lent_as table.entry.table) (question_in self.now) }
    {
        let plan = table.plan;
        let marks = table.table.marks;
        let mut classes = [0u8; Geometry::CLASSES];
        classing::write_classes(table, &mut classes);
        let claimed = Claimed {
            classes: &classes,
            coefficients: self.coefficients,
            multipliers: self.multipliers,
            potentials: self.potentials,
            price: self.price,
            nodes: nodes,
        };
        if let Some(node) = claimed.first_failing(plan.numbers, marks) {
            return Err(Refusal::CertificateFails(node));
        }
        let entry = plan.entry();
        let peak = peak_of(marks, self.potentials, nodes, entry);
        let top = top_at(self.multipliers, self.limits, self.potentials, peak);
        let tariff = self.price.tariff;
        let loads = loads_of(
            plan,
            &classes,
            self.coefficients,
            self.limits,
            tariff,
            nodes,
        );
        Ok(self.price.bound_at(top, loads))
    }

    // What is answered for a table that passes: one of refusals 15 and 23 to 25, or the bound.
    fn bound_drawn(&self, table: PlanTable) -> Result<u64, Refusal>
        ensures { result ≡ bounded_by (drawn_as table.entry.plan) (lent_as table.entry.table) (question_in self.now) }
    {
        let tariff = self.price.tariff;
        let denominator = self.price.denominator;
        let nodes = table.plan.nodes();
        if tariff.miss < tariff.hit {
            return Err(Refusal::MissBelowHit);
        }
        let long = self.lengths_fit(nodes);
        if !long {
            return Err(Refusal::FactsLength);
        }
        let small = facts::in_range(
            self.coefficients,
            self.limits,
            self.multipliers,
            self.potentials,
            denominator,
        );
        if !small {
            return Err(Refusal::NumberOutOfRange);
        }
        self.certified(table, nodes)
    }
}

// Answers for any bytes, lent table, costs, facts and certificate, of any lengths: the bound on a side (rule 18.6), or the first of refusals 1 to 11, 13,
// 15 and 23 to 25 that applies (rule 18.9).
pub fn bound<'a>(
    chart: &[u8],
    must: &'a [u8],
    may: &'a [u8],
    marks: &'a [u8],
    hit: u16,
    miss: u16,
    side: Side,
    coefficients: &[i64],
    limits: &[i64],
    multipliers: &[i64],
    potentials: &[i64],
    denominator: u64,
) -> Result<u64, Refusal>
    ensures value { result ≡ bounded chart.now (entry_table must.now may.now marks.now) (asked side hit miss (entry_facts coefficients limits) (entry_certificate multipliers potentials denominator)) }
    ensures result_value { bounded_say result ≡ bound_says chart.now (entry_table must.now may.now marks.now) (asked side hit miss (entry_facts coefficients limits) (entry_certificate multipliers potentials denominator)) }
{
    let mut columns = [0u8; plan::COLUMNS];
    let mut plan = [0u16; plan::LENGTH];
    drawing::draw(chart, &mut columns, &mut plan).verdict?;
    let drawn = DrawnPlan {
        columns: &columns,
        numbers: &plan,
    };
    let lent = Table {
        must: must,
        may: may,
        marks: marks,
    };
    let passes = checker::check_drawn(drawn, lent)?;
    if !passes {
        return Err(Refusal::NotPassing);
    }
    let table = PlanTable {
        plan: drawn,
        table: lent,
    };
    let asked = Asked {
        coefficients: coefficients,
        limits: limits,
        multipliers: multipliers,
        potentials: potentials,
        price: Price {
            side: side,
            tariff: Tariff {
                hit: hit,
                miss: miss,
            },
            denominator: denominator,
        },
    };
    asked.bound_drawn(table)
}
