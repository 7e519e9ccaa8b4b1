// The stored findings of a case, with its chart, against what judge writes and answers.
ghost use Rattle.std.specs.Prelude.{◌≡◌, true, [], ◌∷◌};
ghost use Rattle.flow.specs.Answers.{judge_told};
ghost use Rattle.replay.specs.Words.{stored_told};

use crate::chart_cells::{cells_hold, counts_are};
use crate::stored::{OLD, Rest, Stored};
use chart::ChartColumns;
use column_lengths::{CODES, FINDINGS, LOCALS, NODES};
use findings::FoundColumns;
use flow::{Judgement, Refusal};

// Whether an answer tells the stored number, and where that is 0 the stored counts and the number of findings.
fn answer_is(answer: Result<Judgement, Refusal>, stored: Stored, findings: u64) -> bool
    ensures { result ≡ true → judge_told answer ≡ stored_told stored.number (stored.nodes ∷ stored.codes ∷ stored.names ∷ findings ∷ []) }
{
    match answer {
        Err(refusal) => u64::from(refusal) == stored.number,
        Ok(judged) => {
            stored.number == 0
                && counts_are(judged.counts, stored)
                && judged.findings as u64 == findings
        }
    }
}

// The mark figure of a local is at most the node count, and nothing is new behind them.
fn marks_hold(mark: &[u64], stored: Stored) -> bool {
    mark.iter().enumerate().all(|(i, figure)| {
        if (i as u64) < stored.names {
            *figure <= stored.nodes
        } else {
            *figure == OLD
        }
    })
}

// How many findings stand behind the chart's cells and the runs: none beside a refusal.
fn findings(stored: Stored, rest: &mut Rest) -> Option<u64> {
    if stored.number != 0 {
        return Some(0);
    }
    rest.list(3)?;
    rest.word()
}

// Whether the findings' columns hold what is stored, in a case's last words, and the answer tells it.
fn findings_hold(
    answer: Result<Judgement, Refusal>,
    columns: &FoundColumns,
    stored: Stored,
    rest: &mut Rest,
) -> Option<bool> {
    let found = findings(stored, rest)?;
    let agree = answer_is(answer, stored, found)
        && rest.are_in(columns.word, found)
        && rest.are_in(columns.span, found)
        && rest.is_empty()
        && marks_hold(columns.mark, stored);
    Some(agree)
}

// Whether judge answers and writes what is stored: the chart's cells, and the findings'. What is stored has no scope sheet.
// In arrays of its own, as `chart_agrees`.
pub fn judge_agrees(sheet: &[u64], uses: &[u64], stored: Stored, cells: Rest) -> Option<bool> {
    let scopes = [OLD; 0];
    let mut first = [OLD; NODES];
    let mut second = [OLD; NODES];
    let mut start = [OLD; NODES];
    let mut reachable = [OLD; NODES];
    let mut code_span = [OLD; CODES];
    let mut code_node = [OLD; CODES];
    let mut name_span = [OLD; LOCALS];
    let mut name_node = [OLD; LOCALS];
    let mut name_end = [OLD; LOCALS];
    let mut word = [OLD; FINDINGS];
    let mut span = [OLD; FINDINGS];
    let mut mark = [OLD; LOCALS];
    let mut chart = ChartColumns {
        first: &mut first,
        second: &mut second,
        start: &mut start,
        reachable: &mut reachable,
        code_span: &mut code_span,
        code_node: &mut code_node,
        name_span: &mut name_span,
        name_node: &mut name_node,
        name_end: &mut name_end,
    };
    let mut columns = FoundColumns {
        word: &mut word,
        span: &mut span,
        mark: &mut mark,
    };
    let answer = judge::judge(sheet, uses, &scopes, &mut chart, &mut columns);
    let mut rest = cells;
    if !cells_hold(&chart, stored, &mut rest) {
        return Some(false);
    }
    findings_hold(answer, &columns, stored, &mut rest)
}
