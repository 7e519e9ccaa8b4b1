// One case of the stored answers, against what the calls and crates/admission answer.
ghost use Rattle.std.specs.Prelude.{◌≡◌, ◌+◌, get_or};
ghost use Rattle.flow.specs.Answers.{label_told};

use crate::chart_cells::chart_agrees;
use crate::finding_cells::judge_agrees;
use crate::runs::runs_agree;
use crate::stored::{Rest, Stored};
use column_lengths::{CODES, FINDINGS, LOCALS, NODES};
use flow::Refusal;
use numbers::number_of;
use std::fmt;

// Why a case does not agree. Misshapen: a length goes past the case's end. Unread: the file ends in the case, or the case is
// longer than the reader's buffer.
#[derive(Clone, Copy, PartialEq, Eq)]
pub enum Fault {
    Differs,
    Misshapen,
    Unread,
}

impl fmt::Display for Fault {
    fn fmt<W: fmt::Write>(&self, f: &mut fmt::Formatter<W>) -> fmt::Result {
        f.write_str(match self {
            Fault::Differs => "differs",
            Fault::Misshapen => "a length goes past its end",
            Fault::Unread => "too long, or the file ends in it",
        })
    }
}

// The word that a case holds for the label check: the refusal's number, else its value. The stored word does not tell
// the two apart, so they are compared as numbers.
fn label_word(answer: Result<bool, Refusal>) -> u64
    ensures { result ≡ (label_told answer).number + get_or (label_told answer).values 0 0 }
{
    match answer {
        Err(refusal) => refusal.into(),
        Ok(fine) => u64::from(fine),
    }
}

// How many cells each column of a sort has.
#[derive(Clone, Copy)]
struct Cells {
    nodes: usize,
    codes: usize,
    locals: usize,
    findings: usize,
}

const ENOUGH: Cells = Cells {
    nodes: NODES,
    codes: CODES,
    locals: LOCALS,
    findings: FINDINGS,
};

// What a case has of both sheets: their words, and the numbers that chart and judge answer for them.
#[derive(Clone, Copy)]
struct Pair<'a> {
    sheet: &'a [u64],
    uses: &'a [u64],
    chart: u64,
    judge: u64,
}

impl Pair<'_> {
    // Whether chart and judge answer these two numbers over columns of so many cells.
    fn answers(self, cells: Cells, chart: u64, judge: u64) -> bool {
        let n = cells.nodes;
        let c = cells.codes;
        let l = cells.locals;
        let short = column_lengths::chart_short(&[n; 4], &[c; 2], &[l; 3]);
        let any_short = column_lengths::judge_short(&[cells.findings; 2], &[l], short);
        let charted = number_of(admission::sheet_verdict(short, self.sheet)) == chart;
        let judged = number_of(admission::pair_verdict(any_short, self.sheet, self.uses)) == judge;
        charted & judged
    }

    // One cell too few is refusal 1, whatever the sheets. Only judge asks for findings.
    fn verdicts_agree(self) -> bool {
        let few_nodes = Cells {
            nodes: NODES - 1,
            ..ENOUGH
        };
        let few_codes = Cells {
            codes: CODES - 1,
            ..ENOUGH
        };
        let few_locals = Cells {
            locals: LOCALS - 1,
            ..ENOUGH
        };
        let few_findings = Cells {
            findings: FINDINGS - 1,
            ..ENOUGH
        };
        self.answers(ENOUGH, self.chart, self.judge)
            && self.answers(few_nodes, 1, 1)
            && self.answers(few_codes, 1, 1)
            && self.answers(few_locals, 1, 1)
            && self.answers(few_findings, self.chart, 1)
    }

    // Whether chart, run and judge answer what is stored of them, where a word that is missing is not answered.
    fn calls_agree(self, rest: Rest) -> Option<bool> {
        let (charted, cells) = Stored::read(self.chart, rest)?;
        let (judged, all_cells) = Stored::read(self.judge, rest)?;
        let agree = chart_agrees(self.sheet, charted, cells)
            && runs_agree(self.sheet, charted, cells)?
            && judge_agrees(self.sheet, self.uses, judged, all_cells)?;
        Some(agree)
    }
}

// Whether the words of a case that follow its length agree.
pub fn compare(case: &[u64]) -> Result<(), Fault> {
    let mut rest = Rest::new(case);
    let sheet = rest.list(1).ok_or(Fault::Misshapen)?;
    let uses = rest.list(1).ok_or(Fault::Misshapen)?;
    let chart = rest.word().ok_or(Fault::Misshapen)?;
    let judge = rest.word().ok_or(Fault::Misshapen)?;
    let label = rest.word().ok_or(Fault::Misshapen)?;
    let pair = Pair {
        sheet,
        uses,
        chart,
        judge,
    };
    let labelled = label_word(label_call::label_check(sheet)) == label;
    let admitted = pair.verdicts_agree();
    let called = pair.calls_agree(rest).unwrap_or(false);
    if labelled && admitted && called {
        Ok(())
    } else {
        Err(Fault::Differs)
    }
}
