// The spans of findings, from their words.
#![tactic(auto)]

ghost use Rattle.std.specs.Prelude.{◌≡◌, ◌++◌, map, ◌≤◌, length, drop};
ghost use Rattle.finding_spans.specs.Spans.{span_of, Names, Known};

use words::finding::{LOCAL, USE};

// The span of the finding with this word, whose upper half holds, as lent words have it, a use's number plus 1, or 0 for the initial value.
#[tactic(auto, using(std::proofs::lemmas::Bool::Decides::nat_tests))]
fn span_of(use_span: &[u64], name_span: &[u64], word: u64) -> u64
    requires { Names (length use_span.now) (length name_span.now) word }
    ensures { result ≡ span_of use_span.now name_span.now word }
{
    match (word / USE).checked_sub(1) {
        None => name_span[(word % USE / LOCAL) as usize],
        Some(number) => use_span[number as usize],
    }
}

// The span of each finding.
pub fn write_spans(
    use_span: &[u64],
    name_span: &[u64],
    finding_word: &[u64],
    finding_span: &mut [u64],
)
    requires { Known (length use_span.now) (length name_span.now) finding_word.now × (length finding_word.now ≤ length finding_span.old) }
    ensures { finding_span.new ≡ map (span_of use_span.now name_span.now) finding_word.now ++ drop (length finding_word.now) finding_span.old }
{
    // By index. Tried with a zip of `iter_mut`: a proof knows nothing of the column behind the loop.
    for (i, word) in finding_word.iter().enumerate() {
        finding_span[i] = span_of(use_span, name_span, *word);
    }
}
