// Refusal 5, bad nesting: openers and closers that do not pair, arms outside an IF, and neighbours that may not stand side by side.
#![tactic(auto)]

ghost use Rattle.std.specs.Prelude.{◌≡◌, false, List, ℕ, ◌&&◌, not, [], ◌+◌, ◌≤◌};
ghost use Rattle.arrayvec.specs.ArrayVec.{array_vec_len};
ghost use Rattle.flow.specs.Sheet.{kind_of, zip};
ghost use Rattle.flow.specs.Kinds.{opens};
ghost use Rattle.flow.specs.Refusals.{one, innermost, may_stand, open_after, may_follow, outnumbered, pairs_up, side_by_side};
ghost use Rattle.kinds.specs.Numbers.{number_or_none};
ghost use Rattle.nesting_tests.specs.Stack.{open_kinds};

use arrayvec::ArrayVec;
use kinds::Kind;
use sheet_parts::Items;
use words::ARGUMENT;
use words::limit::DEPTH;

// What stands behind the last item, as a word: its kind is none. No Option: the definition asks the same of the end and of kind 0.
const NO_ITEM: u64 = 0;

// Whether an item may stand where this kind is the innermost that is open.
#[tactic(auto, unfolding(flow::specs::Refusals::may_stand))]
fn may_stand(inner: Option<Kind>, kind: Option<Kind>) -> bool
    ensures { (os : List ℕ) → innermost os ≡ number_or_none inner → result ≡ may_stand (number_or_none kind) os }
{
    match kind {
        Some(Kind::End) => !matches!(inner, None | Some(Kind::Repeat)),
        Some(Kind::Until) => inner == Some(Kind::Repeat),
        Some(Kind::ElseIf | Kind::Else) => inner == Some(Kind::If),
        _ => true,
    }
}

// What is open past an item. An IF becomes an ELSE once its ELSE has come.
#[tactic(auto, unfolding(flow::specs::Refusals::open_after))]
fn open_after(opened: &mut ArrayVec<Kind, DEPTH>, kind: Option<Kind>)
    requires { array_vec_len opened.old + one (opens (number_or_none kind)) ≤ 64 }
    ensures { open_kinds opened.new.items ≡ open_after (number_or_none kind) (open_kinds opened.old.items) }
{
    match kind {
        Some(Kind::End | Kind::Until) => {
            let _ = opened.pop();
        }
        Some(Kind::Else) => {
            let _ = opened.pop();
            opened.push(Kind::Else);
        }
        Some(kind) => {
            if kind.is_opener() {
                opened.push(kind);
            }
        }
        None => {}
    }
}

// Whether two items may stand side by side. An item of kind 0, which the table lacks, counts as none.
#[tactic(auto, unfolding(flow::specs::Refusals::may_follow))]
fn may_follow(last: Option<Kind>, next: u64) -> bool
    ensures { result ≡ may_follow (number_or_none last) (kind_of next) }
{
    let kind = Kind::of(next);
    match last {
        Some(Kind::Local) => kind == Some(Kind::Name),
        Some(Kind::Name) => true,
        Some(Kind::Return | Kind::Continue) => match kind {
            Some(kind) => kind.ends_block(),
            None => next % ARGUMENT == 0,
        },
        _ => kind != Some(Kind::Name),
    }
}

pub fn bad_nesting(items: Items<'_>) -> bool
    requires { outnumbered 0 0 (zip items.words.now items.spans.now) ≡ false }
    ensures { result ≡ not (pairs_up [] (zip items.entry.words.now items.entry.spans.now) && side_by_side 0 (zip items.entry.words.now items.entry.spans.now)) }
{
    let mut opened = ArrayVec::<Kind, DEPTH>::new();
    let mut last = None;
    for word in items.words {
        let kind = Kind::of(*word);
        let inner = opened.as_slice().last().copied();
        if !may_stand(inner, kind) || !may_follow(last, *word) {
            return true;
        }
        open_after(&mut opened, kind);
        last = kind;
    }
    !(opened.is_empty() && may_follow(last, NO_ITEM))
}
