// The facts of each name of a sheet, found by the words of its items (local_flow.rs).
#![tactic(auto)]

ghost use Rattle.std.specs.Prelude.{◌≡◌, ◌<◌, ◌≤◌, length};
ghost use Rattle.facts.specs.Facts.{facts_of};
ghost use Rattle.name_facts.specs.Names.{locals_in, Stored};

use facts::NameFacts;
use kinds::Kind;
use words::ARGUMENT;

// As many values stand for a call or `...` last: no name of the LOCAL lacks one. An Option would be no plainer: it would be made of a
// LOCAL's word and asked in one place.
const OPEN: u64 = 65535;

// A name's facts: its flags, and whether it has one of its LOCAL's values, where `before` names of the LOCAL stand before it.
#[tactic(auto, unfolding(flow::specs::Locals::no_value))]
fn facts_of(flags: u64, values: u64, before: u64) -> NameFacts
    ensures { result ≡ facts_of (record { flags = flags; values = values; before = before }) }
{
    NameFacts {
        underscore: flags % 2 == 1,
        modified: flags / 2 % 2 == 1,
        captured: flags / 4 % 2 == 1,
        has_value: before < values || values == OPEN,
        all_found: true,
    }
}

// The facts of each name of a sheet, by the words of its items, and how many names there are: the column is fixed memory, which the
// caller cuts to that.
pub fn find_names(kinds: &[u64], facts: &mut [NameFacts]) -> usize
    requires { (length kinds.now ≤ 1024) × (length kinds.now ≤ length facts.old) }
    ensures { Stored (locals_in 0 0 kinds.now) 0 facts.old facts.new result }
{
    // Counted by hand: only its word says whether an item is a name, and an index of all items would count others.
    let mut names = 0;
    // The values of the LOCAL that was met last, and how many names of it were met.
    let mut values = 0;
    let mut before = 0;
    for word in kinds {
        match Kind::of(*word) {
            Some(Kind::Name) => {
                facts[names] = facts_of(*word / ARGUMENT, values, before);
                names += 1;
                before += 1;
            }
            Some(Kind::Local) => {
                values = *word / ARGUMENT;
                before = 0;
            }
            _ => before = 0,
        }
    }
    names
}
