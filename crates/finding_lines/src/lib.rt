// The lines of findings, written into an output.
#![tactic(auto)]

ghost use Rattle.std.specs.Prelude.{◌≡◌};
ghost use Rattle.flow.specs.Listing;
ghost use Rattle.line_writer.specs.Output.{HasRoom, Appends};
ghost use Rattle.finding_lines.specs.Findings.{findings_of};

use line_writer::Output;
use words::HALF;
use words::finding::LOCAL;

// So many locals a finding's lower half has room for.
const LOCALS: u64 = HALF / LOCAL;

// `unassigned LOCAL USE START END` or `overwritten LOCAL START END`. The upper half has one more than the use number, and 0 where
// there is no use, which is never unassigned.
fn finding_line(output: &mut Output, word: u64, span: u64)
    requires { HasRoom (Listing.finding_line (record { word = word; span = span })) output.old }
    ensures same { output.new.bytes.ghost_name ≡ output.old.bytes.ghost_name }
    ensures appended { Appends (Listing.finding_line (record { word = word; span = span })) output.old output.new }
{
    let local = word / LOCAL % LOCALS;
    let start = span % HALF;
    let end = span / HALF;
    if word % LOCAL == 0 {
        let read = (word / HALF).saturating_sub(1);
        output.line(b"unassigned", &[local, read, start, end]);
    } else {
        output.line(b"overwritten", &[local, start, end]);
    }
}

// A line for each finding, by its word and its span.
pub fn finding_lines(output: &mut Output, words: &[u64], spans: &[u64])
    requires { HasRoom (Listing.finding_lines (findings_of words.now spans.now)) output.old }
    ensures same { output.new.bytes.ghost_name ≡ output.old.bytes.ghost_name }
    ensures appended { Appends (Listing.finding_lines (findings_of words.now spans.now)) output.old output.new }
{
    for (word, span) in words.iter().zip(spans) {
        finding_line(output, *word, *span);
    }
}
