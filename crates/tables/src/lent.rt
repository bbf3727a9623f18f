// A lent table that is only read, and one that has room for a plan.
ghost use Rattle.plan.specs.Listed.{nodes_in, blocks_in};
ghost use Rattle.tables.specs.Inner.{Roomy};

use plan::DrawnPlan;

// A table as it is lent: must ages, may ages and marks (rule 7.1).
#[derive(Clone, Copy)]
pub struct Table<'a> {
    pub must: &'a [u8],
    pub may: &'a [u8],
    pub marks: &'a [u8],
}

// A plan, and a table that has room for it.
#[derive(Clone, Copy)]
pub struct PlanTable<'p, 't> {
    pub plan: DrawnPlan<'p>,
    pub table: Table<'t>,
    pub ghost roomy: { Roomy (nodes_in plan.numbers.now) (blocks_in plan.numbers.now) table.must.now table.may.now table.marks.now },
}
