// What run answers of an admitted sheet, by a chart of it.
#![tactic(auto)]

ghost use Rattle.std.specs.Prelude.{◌≡◌};
ghost use Rattle.flow.specs.Graph.{graph};
ghost use Rattle.flow.specs.Reachable.{node_at, can_run};
ghost use Rattle.chart.specs.Lent.{Columns, Charted};
ghost use Rattle.chart.specs.Loan.{cells, SameColumns};

use chart::{ChartColumns, WideChart};
use flow::{Counts, Ran};
use sheet_parts::Sheet;

// What run answers, by the columns that hold the sheet's chart.
fn read_answer(sheet: Sheet<'_>, offset: u32, chart: &ChartColumns, counts: Counts) -> Ran
    requires { (x : Columns) × Charted sheet.words.now counts (record { before = x; after = cells chart.now }) }
    ensures { result ≡ record { node = node_at (graph sheet.entry.words.now) offset; can_run = can_run (graph sheet.entry.words.now) (node_at (graph sheet.entry.words.now) offset) } }
{
    let codes = counts.codes;
    let code_span = &chart.code_span[..codes];
    let code_node = &chart.code_node[..codes];
    let node = offsets::node_at(code_span, code_node, offset as u64);
    let can_run = offsets::can_run(&chart.reachable[..], node);
    Ran { node, can_run }
}

// The node of an offset, if there is one, and whether its code can run, by a chart in columns of any content.
pub fn run_in(sheet: Sheet<'_>, offset: u32, chart: WideChart) -> Ran
    ensures ran { result ≡ record { node = node_at (graph sheet.entry.words.now) offset; can_run = can_run (graph sheet.entry.words.now) (node_at (graph sheet.entry.words.now) offset) } }
    ensures same { SameColumns chart.entry.columns.now chart.exit.0.now }
{
    let columns = chart.columns;
    let counts = chart::of_sheet(
        sheet,
        WideChart {
            columns: &mut *columns,
        },
    );
    read_answer(sheet, offset, columns, counts)
}
