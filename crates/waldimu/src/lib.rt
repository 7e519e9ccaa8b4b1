// The calls for a unit's C code. A slice crosses as a pointer and a count of words, an answer as one word.
#![tactic(auto)]

ghost use Rattle.search.specs.Lent.{held};
ghost use Rattle.chart.specs.Lent.{lent};
ghost use Rattle.judge.specs.Lent.{judge_lent};
ghost use Rattle.waldimu.specs.Promises.{ChartForC, JudgeForC, RunForC, LabelForC};

use answer_words::{chart_word, judge_word, label_word, run_word};
use chart::ChartColumns;
use findings::FoundColumns;

// C lends each column by itself, as the header has them.
#[unsafe(no_mangle)]
pub extern "C" fn waldimu_chart(
    sheet: &[u64],
    first: &mut [u64],
    second: &mut [u64],
    start: &mut [u64],
    reachable: &mut [u64],
    code_span: &mut [u64],
    code_node: &mut [u64],
    name_span: &mut [u64],
    name_node: &mut [u64],
    name_end: &mut [u64],
) -> u64
    ensures { ChartForC sheet.now result (lent first second start reachable code_span code_node name_span name_node name_end) }
{
    let mut chart = ChartColumns {
        first,
        second,
        start,
        reachable,
        code_span,
        code_node,
        name_span,
        name_node,
        name_end,
    };
    chart_word(chart_call::chart(sheet, &mut chart))
}

// C lends each column by itself here too.
#[unsafe(no_mangle)]
pub extern "C" fn waldimu_judge(
    sheet: &[u64],
    uses: &[u64],
    scopes: &[u64],
    first: &mut [u64],
    second: &mut [u64],
    start: &mut [u64],
    reachable: &mut [u64],
    code_span: &mut [u64],
    code_node: &mut [u64],
    name_span: &mut [u64],
    name_node: &mut [u64],
    name_end: &mut [u64],
    finding_word: &mut [u64],
    finding_span: &mut [u64],
    mark: &mut [u64],
) -> u64
    ensures { JudgeForC sheet.now uses.now scopes.now result (judge_lent (lent first second start reachable code_span code_node name_span name_node name_end) finding_word finding_span mark) }
{
    let mut chart = ChartColumns {
        first,
        second,
        start,
        reachable,
        code_span,
        code_node,
        name_span,
        name_node,
        name_end,
    };
    let mut found = FoundColumns {
        word: finding_word,
        span: finding_span,
        mark,
    };
    judge_word(judge::judge(sheet, uses, scopes, &mut chart, &mut found))
}

#[unsafe(no_mangle)]
pub extern "C" fn waldimu_run(sheet: &[u64], offset: u32) -> u64
    ensures { RunForC sheet.now offset result }
{
    run_word(run::run(sheet, offset))
}

#[unsafe(no_mangle)]
pub extern "C" fn waldimu_label_check(sheet: &[u64]) -> u64
    ensures { LabelForC sheet.now result }
{
    label_word(label_call::label_check(sheet))
}
