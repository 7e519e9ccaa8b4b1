// The chart and the findings of an admitted pair of sheets.
#![tactic(auto)]

ghost use Rattle.chart.specs.Loan.{chart_lent, SameColumns};
ghost use Rattle.findings.specs.Accepted.{Long, Accepted};
ghost use Rattle.findings.specs.Loan.{found_cells, found_lent, SameFound};
ghost use Rattle.sheet_parts.specs.Sheets.{judged_uses};

use chart::WideChart;
use findings::FoundColumns;
use flow::Judgement;
use scoped_findings::find_scoped;
use sheet_parts::ScopedPair;

// The chart and the findings of the sheets, in the columns that are lent.
pub fn of_sheets(sheets: ScopedPair<'_>, chart: WideChart, found: &mut FoundColumns) -> Judgement
    requires { Long (found_cells found.old) }
    ensures accepted { Accepted sheets.entry.pair.sheet.words.now (judged_uses sheets.entry) result (chart_lent chart.entry.columns.now chart.exit.0.now) (found_lent found.old found.new) }
    ensures same { SameColumns chart.entry.columns.now chart.exit.0.now × SameFound found.old found.new }
{
    let columns = chart.columns;
    let counts = chart::of_sheet(
        sheets.pair.sheet,
        WideChart {
            columns: &mut *columns,
        },
    );
    let findings = find_scoped(sheets, columns, found, counts);
    Judgement { counts, findings }
}
