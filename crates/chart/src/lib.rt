// The chart of an admitted sheet: its graph, built in words and taken apart into the columns that are lent.
#![tactic(auto)]

ghost use Rattle.std.specs.Prelude.{◌≡◌, List, ℕ, replicate};
ghost use Rattle.chart.specs.Lent.{PartsOf, chart_short, Wide, Charted, ChartedOf};
ghost use Rattle.chart.specs.Loan.{cells, memory_cells, chart_lent, SameColumns};

use cfg::of_block;
use code_columns::split_codes;
use column_lengths::{CODES, LOCALS, NODES};
use flow::Counts;
use name_columns::split_names;
use node_columns::split_nodes;
use sheet_parts::Sheet;

// The columns that a chart is written to: per node both successors, code start and a reachable flag; per code its span and node; per name
// its span, node and scope end.
#[derive(Drop)]
pub struct ChartColumns<'a> {
    pub first: &'a mut [u64],
    pub second: &'a mut [u64],
    pub start: &'a mut [u64],
    pub reachable: &'a mut [u64],
    pub code_span: &'a mut [u64],
    pub code_node: &'a mut [u64],
    pub name_span: &'a mut [u64],
    pub name_node: &'a mut [u64],
    pub name_end: &'a mut [u64],
}

impl ChartColumns<'_> {
    // Refusal 1: whether one of them is too short for a chart of any sheet.
    pub fn is_short(&self) -> bool
        ensures { result ≡ chart_short (cells self.now) }
    {
        column_lengths::chart_short(
            &[
                self.first.len(),
                self.second.len(),
                self.start.len(),
                self.reachable.len(),
            ],
            &[self.code_span.len(), self.code_node.len()],
            &[
                self.name_span.len(),
                self.name_node.len(),
                self.name_end.len(),
            ],
        )
    }
}

// Such columns, long enough for a chart of any sheet.
#[derive(Drop)]
pub struct WideChart<'a, 'c> {
    pub columns: &'a mut ChartColumns<'c>,
    ghost wide: { Wide (cells columns.now) },
}

// Memory for a chart of any sheet.
#[derive(Drop)]
pub struct ChartMemory {
    first: [u64; NODES],
    second: [u64; NODES],
    start: [u64; NODES],
    reachable: [u64; NODES],
    code_span: [u64; CODES],
    code_node: [u64; CODES],
    name_span: [u64; LOCALS],
    name_node: [u64; LOCALS],
    name_end: [u64; LOCALS],
}

impl ChartMemory {
    // With this word in each cell.
    pub fn filled(word: u64) -> Self
        ensures nodes { (result.first ≡ replicate 1600 word) × (result.second ≡ replicate 1600 word) × (result.start ≡ replicate 1600 word) × (result.reachable ≡ replicate 1600 word) }
        ensures codes { (result.code_span ≡ replicate 1024 word) × (result.code_node ≡ replicate 1024 word) }
        ensures names { (result.name_span ≡ replicate 1024 word) × (result.name_node ≡ replicate 1024 word) × (result.name_end ≡ replicate 1024 word) }
    {
        ChartMemory {
            first: [word; NODES],
            second: [word; NODES],
            start: [word; NODES],
            reachable: [word; NODES],
            code_span: [word; CODES],
            code_node: [word; CODES],
            name_span: [word; LOCALS],
            name_node: [word; LOCALS],
            name_end: [word; LOCALS],
        }
    }

    pub fn lend(&mut self) -> ChartColumns<'_>
        ensures wide { Wide (cells result) }
        ensures same_cells { cells result ≡ memory_cells self.old }
    {
        let first = &mut self.first;
        let second = &mut self.second;
        let start = &mut self.start;
        let reachable = &mut self.reachable;
        let code_span = &mut self.code_span;
        let code_node = &mut self.code_node;
        let name_span = &mut self.name_span;
        let name_node = &mut self.name_node;
        let name_end = &mut self.name_end;
        ChartColumns {
            first,
            second,
            start,
            reachable,
            code_span,
            code_node,
            name_span,
            name_node,
            name_end,
        }
    }
}

// The chart of the sheet with these kinds, spans and outer scope end. While the graph is built, its words stand in `first`, `code_node`
// and `name_node`, and the labels in force in `reachable`.
fn write_chart(kinds: &[u64], spans: &[u64], scope_end: u64, chart: &mut ChartColumns) -> Counts
    requires by_index { (S : List ℕ) × PartsOf S kinds.now spans.now scope_end }
    requires wide { Wide (cells chart.old) }
    ensures charted { ChartedOf kinds.now spans.now scope_end result (chart_lent chart.old chart.new) }
    ensures same { SameColumns chart.old chart.new }
{
    let built = of_block(
        kinds,
        chart.first,
        chart.code_node,
        chart.name_node,
        chart.reachable,
        scope_end,
    );
    let counts = Counts {
        nodes: built.nodes,
        codes: built.codes,
        names: built.names,
    };
    split_nodes(
        &mut chart.first[..counts.nodes],
        &mut chart.second[..counts.nodes],
        &mut chart.start[..counts.nodes],
        &mut chart.reachable[..counts.nodes],
    );
    split_codes(
        kinds,
        spans,
        &mut chart.code_node[..counts.codes],
        &mut chart.code_span[..counts.codes],
        &mut chart.start[..counts.nodes],
    );
    split_names(
        spans,
        &mut chart.name_node[..counts.names],
        &mut chart.name_span[..counts.names],
        &mut chart.name_end[..counts.names],
    );
    counts
}

// The chart of a sheet.
pub fn of_sheet(sheet: Sheet<'_>, chart: WideChart) -> Counts
    ensures charted { Charted sheet.entry.words.now result (chart_lent chart.entry.columns.now chart.exit.0.now) }
    ensures same { SameColumns chart.entry.columns.now chart.exit.0.now }
{
    let items = sheet.items();
    let scope_end = sheet.scope_end();
    write_chart(items.words, items.spans, scope_end, chart.columns)
}
