// The call chart of document 01: it takes any sheet, and answers as its definition does.
#![tactic(auto)]

ghost use Rattle.chart.specs.Loan.{chart_lent, SameColumns};
ghost use Rattle.chart_call.specs.Promises.{ChartPromise};

use chart::{ChartColumns, WideChart};
use flow::{Counts, Refusal};

// The graph of a sheet, in the columns that are lent.
pub fn chart(sheet: &[u64], chart: &mut ChartColumns) -> Result<Counts, Refusal>
    ensures promise { ChartPromise sheet.now result (chart_lent chart.old chart.new) }
    ensures same { SameColumns chart.old chart.new }
{
    let sheet = admission::admit_sheet(chart.is_short(), sheet)?;
    Ok(chart::of_sheet(sheet, WideChart { columns: chart }))
}
