// The word in which an answer crosses to C.
#![tactic(auto)]

ghost use Rattle.std.specs.Prelude.{◌≡◌, ◌≤◌, ◌<◌, ◌^◌};
ghost use Rattle.flow.specs.Refusals.{one};
ghost use Rattle.flow.specs.Answers.{found_values, chart_told, judge_told, run_told, label_told};
ghost use Rattle.answer_words.specs.Words.{or_none, run_node, counts_word, run_word, label_word, CountsFit, CountFields, RunFields, LabelFields};

use flow::{Counts, Judgement, Ran, Refusal};
use words::HALF;

// What the lowest bit of a field counts: of the nodes, bit 4,
const NODES: u64 = 0x10;

// of the codes, bit 16,
const CODES: u64 = 0x1_0000;

// of the names, bit 32,
const NAMES: u64 = HALF;

// of the findings, bit 48,
const FINDINGS: u64 = 0x1_0000_0000_0000;

// of yes, bit 4,
const YES: u64 = 0x10;

// and of run's node, bit 32.
const NODE: u64 = HALF;

fn counts_word(judgement: Judgement) -> u64
    requires { CountsFit (judge_told (Ok judgement)) }
    ensures { (result ≡ counts_word (judge_told (Ok judgement))) × CountFields result (judge_told (Ok judgement)) }
{
    let counts = judgement.counts;
    NODES * counts.nodes as u64
        + CODES * counts.codes as u64
        + NAMES * counts.names as u64
        + FINDINGS * judgement.findings as u64
}

pub fn chart_word(answer: Result<Counts, Refusal>) -> u64
    requires { CountsFit (chart_told answer) }
    ensures { (result ≡ counts_word (chart_told answer)) × CountFields result (chart_told answer) }
{
    match answer {
        Err(refusal) => refusal.into(),
        Ok(counts) => counts_word(Judgement {
            counts,
            findings: 0,
        }),
    }
}

// Each call's word stands by itself: as one function over the answer's type they would want a trait for what is one line each.
pub fn judge_word(answer: Result<Judgement, Refusal>) -> u64
    requires { CountsFit (judge_told answer) }
    ensures { (result ≡ counts_word (judge_told answer)) × CountFields result (judge_told answer) }
{
    match answer {
        Err(refusal) => refusal.into(),
        Ok(judgement) => counts_word(judgement),
    }
}

// A node + 1, or 0 for none: C reads a field of the word, and 0 there is a value and no flag.
fn node_word(found: Option<usize>) -> u64
    requires { or_none (found_values found) < 2 ^ 32 }
    ensures { (result ≡ or_none (found_values found)) × (result < 2 ^ 32) }
{
    match found {
        Some(node) => node as u64 + 1,
        None => 0,
    }
}

pub fn run_word(answer: Result<Ran, Refusal>) -> u64
    requires { run_node (run_told answer) < 2 ^ 32 }
    ensures { (result ≡ run_word (run_told answer)) × RunFields result (run_told answer) }
{
    match answer {
        Err(refusal) => refusal.into(),
        Ok(ran) => YES * u64::from(ran.can_run) + NODE * node_word(ran.node),
    }
}

pub fn label_word(answer: Result<bool, Refusal>) -> u64
    ensures { (result ≡ label_word (label_told answer)) × LabelFields result (label_told answer) }
{
    match answer {
        Err(refusal) => refusal.into(),
        Ok(fine) => YES * u64::from(fine),
    }
}
