// Refusal 4, too deep: among some first items the openers outnumber the closers by more than 64.
#![tactic(auto)]

ghost use Rattle.std.specs.Prelude.{◌≡◌};
ghost use Rattle.flow.specs.Sheet.{kind_of, zip};
ghost use Rattle.flow.specs.Kinds.{opens, closes};
ghost use Rattle.flow.specs.Refusals.{one, outnumbered};

use kinds::Kind;
use sheet_parts::Items;
use words::limit::DEPTH;

// What an item adds to the openers,
pub fn opener(word: u64) -> usize
    ensures { result ≡ one (opens (kind_of word)) }
{
    usize::from(Kind::of(word).is_some_and(Kind::is_opener))
}

// and to the closers. One line each: a function of both would take the method as a closure.
pub fn closer(word: u64) -> usize
    ensures { result ≡ one (closes (kind_of word)) }
{
    usize::from(Kind::of(word).is_some_and(Kind::is_closer))
}

pub fn too_deep(items: Items<'_>) -> bool
    ensures { result ≡ outnumbered 0 0 (zip items.entry.words.now items.entry.spans.now) }
{
    let mut openers = 0;
    let mut closers = 0;
    for word in items.words {
        if closers + DEPTH < openers {
            return true;
        }
        openers += opener(*word);
        closers += closer(*word);
    }
    closers + DEPTH < openers
}
