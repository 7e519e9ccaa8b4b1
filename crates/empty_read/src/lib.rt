// A local's first unassigned use: the first read that no write can reach, by the marks of its live walk (local_flow.rs).
#![tactic(auto)]

ghost use Rattle.std.specs.Prelude.{◌≡◌, [], ℕ, ◌<◌, length};
ghost use Rattle.search.specs.Running.{SameColumns};
ghost use Rattle.search.specs.Stamps.{flags_of, Stamped};
ghost use Rattle.flow.specs.Findings.{is_write, is_empty_read, first_empty_read};
ghost use Rattle.use_words.specs.Words.{node_in, use_of, uses_in, AllPlaced};
ghost use Rattle.empty_read.specs.FirstRead.{mark_if, first_number};

use search::Search;
use use_words::PlacedUse;

// Whether a use is an empty read: a read outside closures, which run who knows when, at a node that is not marked. Then the node of a write is marked, for the reads that follow in its statement.
// The test comes first: a ReadWrite reads before it writes, so its own mark must not hide its read.
#[tactic(auto, using(crate::proofs::EmptyReads::asked))]
fn test_and_mark(search: &mut Search<'_>, used: PlacedUse) -> bool
    requires { node_in used < length search.old.marks.now }
    ensures same { SameColumns search.old search.new × (search.new.stamp ≡ search.old.stamp) }
    ensures tested { (n : ℕ) → node_in used < n → result ≡ is_empty_read (flags_of search.old.stamp n search.old.marks.now) [] (use_of used) }
    ensures marked { search.new.marks.now ≡ mark_if (is_write (use_of used)) (node_in used) search.old.stamp search.old.marks.now }
{
    let empty = used.is_read() && !used.in_closure && !search.is_marked(used.node as usize);
    if used.is_write() {
        search.mark(used.node as usize);
    }
    empty
}

// The number of the first empty read in use order. The marks are those of the local's live walk. The search's stack is not touched, and nothing is asked of it.
pub fn first_unassigned_use(mine: &[PlacedUse], search: &mut Search<'_>) -> Option<u16>
    requires { AllPlaced (length search.old.marks.now) mine.now }
    ensures same { SameColumns search.old search.new × (search.new.stamp ≡ search.old.stamp) }
    ensures first { (n : ℕ) → AllPlaced n mine.now → result ≡ first_number (first_empty_read (flags_of search.old.stamp n search.old.marks.now) [] (uses_in mine.now)) }
    ensures stamped { Stamped search.old.stamp search.old.marks.now → Stamped search.old.stamp search.new.marks.now }
{
    for used in mine {
        if test_and_mark(search, *used) {
            return Some(used.number);
        }
    }
    None
}
