// Refusal 7, bad name: a NAME span empty, outside its LOCAL, or starting before the previous NAME of that LOCAL ends.
#![tactic(auto)]

ghost use Rattle.std.specs.Prelude.{◌≡◌, not};
ghost use Rattle.flow.specs.Sheet.{zip};
ghost use Rattle.flow.specs.Refusals.{name_fits, names_fit};
ghost use Rattle.name_tests.specs.Turn.{Past};

use kinds::Kind;
use sheet_parts::Items;
use words::HALF;

// The span of the last LOCAL, and where the last of its NAMEs ends. Before the first LOCAL the span is
// empty, as where the definition begins: no name fits, so nothing else is asked of it.
#[derive(Clone, Copy)]
struct Names {
    local: u64,
    reached: u64,
}

impl Names {
    #[tactic(auto, unfolding(flow::specs::Refusals::name_fits))]
    fn fit(self, span: u64) -> bool
        ensures { result ≡ name_fits self.local self.reached span }
    {
        let start = span % HALF;
        let end = span / HALF;
        start < end
            && start >= self.local % HALF
            && end <= self.local / HALF
            && self.reached <= start
    }

    // Past an item, or none where it is a NAME that does not fit.
    fn past(self, word: u64, span: u64) -> Option<Names>
        ensures { Past self (record { word = word; span = span }) result }
    {
        match Kind::of(word) {
            Some(Kind::Local) => Some(Names {
                local: span,
                reached: 0,
            }),
            Some(Kind::Name) => {
                if !self.fit(span) {
                    return None;
                }
                Some(Names {
                    local: self.local,
                    reached: span / HALF,
                })
            }
            _ => Some(self),
        }
    }
}

pub fn bad_name(items: Items<'_>) -> bool
    ensures { result ≡ not (names_fit 0 0 (zip items.entry.words.now items.entry.spans.now)) }
{
    let mut names = Names {
        local: 0,
        reached: 0,
    };
    for (word, span) in items.words.iter().zip(items.spans) {
        let Some(past) = names.past(*word, *span) else {
            return true;
        };
        names = past;
    }
    false
}
