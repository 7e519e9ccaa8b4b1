// The findings of an admitted pair of sheets, by the chart of the first.
#![tactic(auto)]

ghost use Rattle.std.specs.Prelude.{◌≡◌, ◌++◌, ◌≤◌, map, length, take, drop, replicate};
ghost use Rattle.sheet_parts.specs.Sheets.{uses_of};
ghost use Rattle.chart.specs.Loan.{cells};
ghost use Rattle.finding_spans.specs.Spans.{span_of, Known};
ghost use Rattle.findings.specs.Accepted.{found_short, Long, Searchable, FindingsWritten};
ghost use Rattle.findings.specs.Loan.{found_cells, found_lent, SameFound};

use chart::ChartColumns;
use column_lengths::{FINDINGS, LOCALS};
use flow::Counts;
use live_steps::{Edges, FlowGraph};
use locals::DeclarationTable;
use sheet_parts::SheetPair;
use sized_flow::ChartedPair;
use tables::CodeColumns;

// The columns of findings, each with its word and span, and of mark figures, one a local. That they are long enough stays a clause, `Long`:
// tried as a type of its own, it could not be moved in a branch, as `find_scoped` has to.
#[derive(Drop)]
pub struct FoundColumns<'a> {
    pub word: &'a mut [u64],
    pub span: &'a mut [u64],
    pub mark: &'a mut [u64],
}

impl FoundColumns<'_> {
    // Refusal 1: whether one of them is too short for the findings of any pair, where `chart` says it of a chart's columns: no switch, it is
    // one of those that are joined.
    pub fn is_short(&self, chart: bool) -> bool
        ensures { result ≡ found_short (found_cells self.now) chart }
    {
        column_lengths::judge_short(
            &[self.word.len(), self.span.len()],
            &[self.mark.len()],
            chart,
        )
    }
}

// Memory for the findings of any pair.
#[derive(Drop)]
pub struct FoundMemory {
    word: [u64; FINDINGS],
    span: [u64; FINDINGS],
    mark: [u64; LOCALS],
}

impl FoundMemory {
    // With this word in each cell.
    pub fn filled(word: u64) -> Self
        ensures { (result.word ≡ replicate 3072 word) × (result.span ≡ replicate 3072 word) × (result.mark ≡ replicate 1024 word) }
    {
        FoundMemory {
            word: [word; FINDINGS],
            span: [word; FINDINGS],
            mark: [word; LOCALS],
        }
    }

    pub fn lend(&mut self) -> FoundColumns<'_>
        ensures long { Long (found_cells result) }
        ensures same_cells { found_cells result ≡ record { word = self.old.word; span = self.old.span; mark = self.old.mark } }
    {
        let word = &mut self.word;
        let span = &mut self.span;
        let mark = &mut self.mark;
        FoundColumns { word, span, mark }
    }
}

// The spans of the first n findings. It stands by itself, since a column cut where it is lent tells nothing of what it holds afterwards.
fn write_first_spans(use_spans: &[u64], name_span: &[u64], word: &[u64], span: &mut [u64], n: usize)
    requires listed { n ≤ length word.now }
    requires known { Known (length use_spans.now) (length name_span.now) (take n word.now) }
    requires room { n ≤ length span.old }
    ensures { span.new ≡ map (span_of use_spans.now name_span.now) (take n word.now) ++ drop n span.old }
{
    finding_spans::write_spans(use_spans, name_span, &word[..n], span);
}

// The findings of a pair whose sheet's graph stands in the columns, and a mark figure for each local. The result is the number of findings.
pub fn find_all<'a>(
    pair: SheetPair<'a>,
    chart: &'a ChartColumns,
    found: &mut FoundColumns,
    counts: Counts,
) -> usize
    requires searchable { Searchable pair.sheet.words.now (uses_of pair) counts (cells chart.now) }
    requires long { Long (found_cells found.old) }
    ensures written { FindingsWritten pair.entry.sheet.words.now (uses_of pair.entry) result (found_lent found.old found.new) }
    ensures same { SameFound found.old found.new }
{
    let kinds = pair.sheet.items().words;
    let charted = ChartedPair {
        graph: FlowGraph {
            edges: Edges {
                first: &chart.first[..counts.nodes],
                second: &chart.second[..counts.nodes],
            },
            start: &chart.start[..counts.nodes],
        },
        names: DeclarationTable {
            node: &chart.name_node[..],
            scope_end: &chart.name_end[..],
        },
        codes: CodeColumns {
            spans: &chart.code_span[..counts.codes],
            nodes: &chart.code_node[..counts.codes],
        },
        uses: pair.uses,
    };
    let listed = local_flow::compute(kinds, charted, found.word, found.mark);
    let word = &mut *found.word;
    write_first_spans(pair.uses.spans, chart.name_span, word, found.span, listed);
    listed
}
