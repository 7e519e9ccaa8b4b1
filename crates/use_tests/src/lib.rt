// Refusal 8, bad use: a local number not below the names, a high part that is no kind and crossing, or a span with its start past its end.
#![tactic(auto)]

ghost use Rattle.std.specs.Prelude.{◌≡◌, not, [], ◌∷◌, eqb, count_by};
ghost use Rattle.flow.specs.Sheet.{kind_of, member, zip};
ghost use Rattle.flow.specs.Kinds.{kinds};
ghost use Rattle.flow.specs.Refusals.{name_count, use_fits, uses_fit};

use kinds::Kind;
use sheet_parts::Items;
use words::use_kind::{READ, READ_WRITE, WRITE};
use words::{CROSSING, HALF, USE_KIND};

// The kinds of a use that crosses into a closure. Numbers of a lent word's high part, all read in one match: an enum would be read from the same six.
const CROSSING_READ: u64 = CROSSING + READ;

const CROSSING_WRITE: u64 = CROSSING + WRITE;

const CROSSING_READ_WRITE: u64 = CROSSING + READ_WRITE;

// How many of these words are a NAME's.
fn names_among(words: &[u64]) -> usize
    ensures { result ≡ count_by (λ w. eqb (kind_of w) kinds.NAME) words.now }
{
    words
        .iter()
        .filter(|word| Kind::of(**word) == Some(Kind::Name))
        .count()
}

#[tactic(auto, using(crate::proofs::Uses::names_counted))]
pub fn name_count(items: Items<'_>) -> u64
    ensures { result ≡ name_count (zip items.entry.words.now items.entry.spans.now) }
{
    names_among(items.words) as u64
}

// A kind of use, and the same in a closure.
#[tactic(auto, using(std::proofs::lemmas::Bool::Decides::nat_tests))]
fn high_fits(high: u64) -> bool
    ensures { result ≡ member high (0 ∷ 1 ∷ 2 ∷ 4 ∷ 5 ∷ 6 ∷ []) }
{
    matches!(
        high,
        READ | WRITE | READ_WRITE | CROSSING_READ | CROSSING_WRITE | CROSSING_READ_WRITE
    )
}

#[tactic(auto, unfolding(flow::specs::Refusals::use_fits))]
fn use_fits(names: u64, word: u64, span: u64) -> bool
    ensures { result ≡ use_fits names word span }
{
    word % USE_KIND < names && high_fits(word / USE_KIND) && span % HALF <= span / HALF
}

pub fn bad_use(names: u64, uses: Items<'_>) -> bool
    ensures { result ≡ not (uses_fit names uses.entry.words.now uses.entry.spans.now) }
{
    !uses
        .words
        .iter()
        .zip(uses.spans)
        .all(|(word, span)| use_fits(names, *word, *span))
}
