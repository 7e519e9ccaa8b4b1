// Refusal 1: each call measures the columns that it is lent.
#![tactic(auto)]

ghost use Rattle.std.specs.Prelude.{◌≡◌, ltb};
ghost use Rattle.std.specs.List.{list_any};
ghost use Rattle.column_lengths.specs.Lengths.{chart_too_short, judge_too_short};

use words::limit;
use words::limit::ITEMS;

// The cells that a column has at least: what its longest list takes. Findings are two a local and one a use at most.
pub const NODES: usize = limit::NODES;

pub const CODES: usize = ITEMS;

pub const LOCALS: usize = ITEMS;

pub const FINDINGS: usize = 2 * LOCALS + ITEMS;

// Whether a column of one of these lengths is too short.
fn any_below(lengths: &[usize], least: usize) -> bool
    ensures { result ≡ list_any (λ l. ltb l least) lengths.now }
{
    lengths.iter().any(|cells| *cells < least)
}

// Whether a column that chart is lent is too short, by the lengths of those for nodes, codes and names.
#[tactic(auto, using(crate::proofs::Any::chart_any))]
pub fn chart_short(nodes: &[usize], codes: &[usize], names: &[usize]) -> bool
    ensures { result ≡ chart_too_short nodes.now codes.now names.now }
{
    any_below(nodes, NODES) || any_below(codes, CODES) || any_below(names, LOCALS)
}

// Whether a column that judge is lent is too short, where `chart` says it of chart's: those for findings and for mark figures. `chart` is no
// switch: it is one of three that are joined.
#[tactic(auto, using(crate::proofs::Any::judge_any))]
pub fn judge_short(findings: &[usize], marks: &[usize], chart: bool) -> bool
    ensures { result ≡ judge_too_short findings.now marks.now chart }
{
    any_below(findings, FINDINGS) || any_below(marks, LOCALS) || chart
}
