// Judge: the graph of a sheet and the findings of its locals.
#![tactic(auto)]

ghost use Rattle.chart.specs.Loan.{SameColumns};
ghost use Rattle.findings.specs.Loan.{SameFound};
ghost use Rattle.judge.specs.Lent.{JudgePromise, judge_lent_in};

use chart::{ChartColumns, WideChart};
use findings::FoundColumns;
use flow::{Judgement, Refusal};

// The graph of a sheet and the findings of its locals, in the columns that are lent. A scope sheet of 0 words is none.
pub fn judge(
    sheet: &[u64],
    uses: &[u64],
    scopes: &[u64],
    chart: &mut ChartColumns,
    found: &mut FoundColumns,
) -> Result<Judgement, Refusal>
    ensures promise { JudgePromise sheet.now uses.now scopes.now result (judge_lent_in chart.old chart.new found.old found.new) }
    ensures same { SameColumns chart.old chart.new × SameFound found.old found.new }
{
    let short = found.is_short(chart.is_short());
    let sheets = scoped_admission::admit_scoped(short, sheet, uses, scopes)?;
    let wide = WideChart { columns: chart };
    Ok(judging::of_sheets(sheets, wide, found))
}
