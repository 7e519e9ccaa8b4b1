// The lines that flowlist prints, written into lent bytes.
#![tactic(auto)]

ghost use Rattle.std.specs.Prelude.{◌≤◌, length};
ghost use Rattle.flow.specs.Refusals;
ghost use Rattle.flow.specs.Answers.{count_values, judge_told, findings_told};
ghost use Rattle.flow.specs.Listing;
ghost use Rattle.line_writer.specs.Output.{Printed};
ghost use Rattle.finding_lines.specs.Findings.{findings_of};
ghost use Rattle.lines.specs.Report.{answer_lines, room_for_all};

use finding_lines::finding_lines;
use flow::{Counts, Judgement, Refusal};
use line_writer::Output;

// Bytes that hold every output, as the specs' `room_for_all` has it. It stays a clause of each that is lent an output: the bytes are the
// caller's and may be more, and a type would ask the same where it is made.
pub const ROOM: usize = 169140;

// `refused K` alone.
pub fn refused(output: &mut [u8], refusal: Refusal) -> usize
    requires { room_for_all ≤ length output.old }
    ensures { Printed (Listing.refused (Refusals.number refusal)) output.old output.new result }
{
    let mut output = Output::new(output);
    output.line(b"refused", &[refusal.into()]);
    output.len
}

// `graph NODES CODES LOCALS` and `exits` with five flags, then the findings: by a graph's counts, its nodes' flags, and the findings'
// words and spans.
fn report(
    output: &mut [u8],
    counts: Counts,
    reachable: &[u64],
    words: &[u64],
    spans: &[u64],
) -> usize
    requires exits { 5 ≤ length reachable.now }
    requires few { length words.now ≤ 3072 }
    requires room { room_for_all ≤ length output.old }
    ensures { Printed (Listing.report (count_values counts) reachable.now (findings_of words.now spans.now)) output.old output.new result }
{
    let mut output = Output::new(output);
    output.line(
        b"graph",
        &[
            counts.nodes as u64,
            counts.codes as u64,
            counts.names as u64,
        ],
    );
    output.line(b"exits", &reachable[..5]);
    finding_lines(&mut output, words, spans);
    output.len
}

// What judge answered and wrote, printed.
pub fn answered(
    output: &mut [u8],
    answer: Result<Judgement, Refusal>,
    reachable: &[u64],
    words: &[u64],
    spans: &[u64],
) -> usize
    requires in_bounds { (5 ≤ length reachable.now) × (findings_told (judge_told answer) ≤ length words.now) × (findings_told (judge_told answer) ≤ length spans.now) }
    requires answer_bound { (findings_told (judge_told answer) ≤ 3072) × (room_for_all ≤ length output.old) }
    ensures { Printed (answer_lines (judge_told answer) reachable.now words.now spans.now) output.old output.new result }
{
    match answer {
        Err(refusal) => refused(output, refusal),
        Ok(judged) => {
            let n = judged.findings;
            report(output, judged.counts, reachable, &words[..n], &spans[..n])
        }
    }
}
