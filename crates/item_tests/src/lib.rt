// Refusal 3, bad item: a kind, an argument, word 1 or a span that is not as the table has it.
#![tactic(auto)]

ghost use Rattle.std.specs.Prelude.{◌≡◌, ◌&&◌, ◌||◌, not, ◌^◌, ltb, leb, eqb};
ghost use Rattle.flow.specs.Sheet.{all, zip, start_of, end_of};
ghost use Rattle.flow.specs.Kinds.{spanless, item_fits};
ghost use Rattle.kinds.specs.Numbers.{kind_number};

use argument_tests::argument_fits;
use kinds::Kind;
use sheet_parts::Items;
use words::{ARGUMENT, HALF};

// The kinds without a stated span have span word 0.
fn span_fits(kind: Kind, span: u64) -> bool
    ensures { result ≡ (leb (start_of span) (end_of span) && (not (spanless (kind_number kind)) || eqb span 0)) }
{
    let spanless = matches!(
        kind,
        Kind::Do | Kind::Repeat | Kind::Else | Kind::End | Kind::Empty
    );
    span % HALF <= span / HALF && (!spanless || span == 0)
}

#[tactic(auto, unfolding(flow::specs::Kinds::item_fits))]
fn item_fits(word: u64, span: u64) -> bool
    ensures { result ≡ item_fits (record { word = word; span = span }) }
{
    let kind = Kind::of(word);
    argument_fits(kind, word / ARGUMENT) && kind.is_some_and(|kind| span_fits(kind, span))
}

fn all_fit(items: Items<'_>) -> bool
    ensures { result ≡ all item_fits (zip items.entry.words.now items.entry.spans.now) }
{
    items
        .words
        .iter()
        .zip(items.spans)
        .all(|(word, span)| item_fits(*word, *span))
}

pub fn bad_item(outer: u64, items: Items<'_>) -> bool
    ensures { result ≡ not (ltb outer (2 ^ 32) && all item_fits (zip items.entry.words.now items.entry.spans.now)) }
{
    outer >= HALF || !all_fit(items)
}
