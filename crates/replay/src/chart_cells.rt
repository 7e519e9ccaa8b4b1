// The stored chart of a case, against what chart_call::chart writes and answers.
ghost use Rattle.std.specs.Prelude.{◌≡◌, true, [], ◌∷◌};
ghost use Rattle.flow.specs.Answers.{count_values, chart_told};
ghost use Rattle.replay.specs.Words.{stored_told};

use crate::stored::{OLD, Rest, Stored};
use chart::ChartColumns;
use column_lengths::{CODES, LOCALS, NODES};
use flow::{Counts, Refusal};

// Whether the values that counts tell are the stored ones.
pub fn counts_are(counts: Counts, stored: Stored) -> bool
    ensures { result ≡ true → count_values counts ≡ stored.nodes ∷ stored.codes ∷ stored.names ∷ [] }
{
    counts.nodes as u64 == stored.nodes
        && counts.codes as u64 == stored.codes
        && counts.names as u64 == stored.names
}

// Whether an answer tells the stored number, and where that is 0 the stored counts. One function for each type of answer: what they compare
// behind the number is all of them.
fn answer_is(answer: Result<Counts, Refusal>, stored: Stored) -> bool
    ensures { result ≡ true → chart_told answer ≡ stored_told stored.number (stored.nodes ∷ stored.codes ∷ stored.names ∷ []) }
{
    match answer {
        Err(refusal) => u64::from(refusal) == stored.number,
        Ok(counts) => stored.number == 0 && counts_are(counts, stored),
    }
}

// Whether the columns hold a stored chart's cells, which are the next words, and nothing new behind them.
pub fn cells_hold(chart: &ChartColumns, stored: Stored, rest: &mut Rest) -> bool {
    rest.are_in(chart.first, stored.nodes)
        && rest.are_in(chart.second, stored.nodes)
        && rest.are_in(chart.start, stored.nodes)
        && rest.are_in(chart.reachable, stored.nodes)
        && rest.are_in(chart.code_span, stored.codes)
        && rest.are_in(chart.code_node, stored.codes)
        && rest.are_in(chart.name_span, stored.names)
        && rest.are_in(chart.name_node, stored.names)
        && rest.are_in(chart.name_end, stored.names)
}

// Whether chart answers and writes what is stored. In arrays of its own: a `ChartMemory` of another word than 0 is filled in one place and
// copied to another, and all cases took three times the instructions.
pub fn chart_agrees(sheet: &[u64], stored: Stored, cells: Rest) -> bool {
    let mut first = [OLD; NODES];
    let mut second = [OLD; NODES];
    let mut start = [OLD; NODES];
    let mut reachable = [OLD; NODES];
    let mut code_span = [OLD; CODES];
    let mut code_node = [OLD; CODES];
    let mut name_span = [OLD; LOCALS];
    let mut name_node = [OLD; LOCALS];
    let mut name_end = [OLD; LOCALS];
    let mut chart = ChartColumns {
        first: &mut first,
        second: &mut second,
        start: &mut start,
        reachable: &mut reachable,
        code_span: &mut code_span,
        code_node: &mut code_node,
        name_span: &mut name_span,
        name_node: &mut name_node,
        name_end: &mut name_end,
    };
    let answer = chart_call::chart(sheet, &mut chart);
    let mut rest = cells;
    answer_is(answer, stored) && cells_hold(&chart, stored, &mut rest)
}
