// The stored runs of a case, against what run::run answers.
ghost use Rattle.std.specs.Prelude.{◌≡◌, true, ◌∷◌};
ghost use Rattle.flow.specs.Refusals.{one};
ghost use Rattle.flow.specs.Answers.{found_values, run_told};
ghost use Rattle.replay.specs.Words.{stored_told, stored_node};

use crate::stored::{Rest, Stored};
use flow::{Ran, Refusal};
use numbers::number_of;
use words::ABSENT;

// Whether the values that a node or nothing tells are the stored ones: ABSENT where there is no node.
fn node_is(found: Option<usize>, node: u64) -> bool
    ensures { result ≡ true → found_values found ≡ stored_node node }
{
    match found {
        Some(v) => node != ABSENT && v as u64 == node,
        None => node == ABSENT,
    }
}

// Whether yes is stored as 1, or no as 0: `yes` is compared, and chooses no step.
fn yes_is(yes: bool, can: u64) -> bool
    ensures { result ≡ true → one yes ≡ can }
{
    can == u64::from(yes)
}

// Whether an answer is accepted and tells the stored values.
fn answer_is(answer: Result<Ran, Refusal>, node: u64, can: u64) -> bool
    ensures { result ≡ true → run_told answer ≡ stored_told 0 (can ∷ stored_node node) }
{
    match answer {
        Err(_) => false,
        Ok(ran) => node_is(ran.node, node) && yes_is(ran.can_run, can),
    }
}

// Whether run answers a stored run: an offset, its node, and 1 where it can run.
fn run_agrees(sheet: &[u64], stored: &[u64; 3]) -> bool {
    match u32::try_from(stored[0]) {
        Ok(offset) => answer_is(run::run(sheet, offset), stored[1], stored[2]),
        Err(_) => false,
    }
}

// Whether run answers what is stored behind the chart's cells: the refusal of the sheet, or a number of runs and the runs.
pub fn runs_agree(sheet: &[u64], chart: Stored, cells: Rest) -> Option<bool> {
    if chart.number != 0 {
        return Some(number_of(run::run(sheet, 0)) == chart.number);
    }
    let mut rest = cells;
    rest.pass_cells(chart)?;
    let (runs, _) = rest.list(3)?.as_chunks::<3>();
    Some(runs.iter().all(|stored| run_agrees(sheet, stored)))
}
