// Refusal 6, off the line: code that starts before the code before it ends, or ends past the scope end of a block around it.
#![tactic(auto)]

ghost use Rattle.std.specs.Prelude.{◌≡◌, true, false, cond, ◌&&◌, not, [], ◌∷◌, ◌<◌, length};
ghost use Rattle.arrayvec.specs.ArrayVec.{array_vec_len};
ghost use Rattle.flow.specs.Sheet.{kind_of, scope_end_of, zip, end_of};
ghost use Rattle.flow.specs.Kinds.{is_code};
ghost use Rattle.flow.specs.Refusals.{outnumbered, pairs_up, in_order, scopes_after, inside_scopes};
ghost use Rattle.line_tests.specs.Turn.{starts_in_order, held_here, end_held_here, Room};
ghost use Rattle.line_tests.specs.Scopes.{scope_ends, Lowest};

use arrayvec::ArrayVec;
use kinds::{Kind, is_code};
use sheet_parts::Items;
use words::limit::DEPTH;
use words::{ARGUMENT, HALF, SCOPE_END};

// The most scopes around an item: those of the blocks, and the outermost.
const SCOPES: usize = DEPTH + 1;

// A block's scope end, and the least of it and those of the blocks around it. Code that ends within the least ends within all,
// so no item looks at the whole stack.
#[derive(Clone, Copy, Default)]
struct Scope {
    end: u64,
    low: u64,
}

// Whether code that ends there is held by the blocks around, the innermost last. A header is held by those around its statement,
// an ELSEIF by those around its IF.
fn end_held(scopes: &[Scope], word: u64, end: u64) -> bool
    requires room { Room (length scopes.now) (kind_of word) }
    requires lowest { Lowest scopes.now }
    ensures { result ≡ end_held_here (scope_ends scopes.now) (kind_of word) end }
{
    let around = scopes.len() - 1;
    let within = end <= scopes[around].low;
    match Kind::of(word) {
        Some(Kind::ElseIf) => end <= scopes[around - 1].low,
        Some(Kind::Until) => within && end == scopes[around].end,
        _ => within,
    }
}

// Whether an item is code is asked once, for this and for what follows.
fn item_held(scopes: &[Scope], code: bool, reached: u64, word: u64, span: u64) -> bool
    requires room { Room (length scopes.now) (kind_of word) }
    requires lowest { Lowest scopes.now }
    requires code_value { code ≡ is_code (record { word = word; span = span }) }
    ensures { result ≡ (starts_in_order reached (record { word = word; span = span }) && held_here (scope_ends scopes.now) (record { word = word; span = span })) }
{
    !code || span % HALF >= reached && end_held(scopes, word, span / HALF)
}

// Where the last code ends, past an item.
fn reached_after(code: bool, reached: u64, span: u64) -> u64
    ensures { result ≡ cond code (end_of span) reached }
{
    if code { span / HALF } else { reached }
}

// One scope more, inside those around.
fn enter(scopes: &mut ArrayVec<Scope, SCOPES>, end: u64)
    requires some { 0 < array_vec_len scopes.old }
    requires room { array_vec_len scopes.old < 65 }
    requires lowest { Lowest scopes.old.items }
    ensures ends { scope_ends scopes.new.items ≡ end ∷ scope_ends scopes.old.items }
    ensures lowest_2 { Lowest scopes.new.items }
{
    let around = scopes.as_slice()[scopes.len() - 1].low;
    let low = end.min(around);
    scopes.push(Scope { end, low });
}

// The scopes around past an item.
#[tactic(auto, unfolding(flow::specs::Refusals::scopes_after))]
fn scopes_after(scopes: &mut ArrayVec<Scope, SCOPES>, word: u64)
    requires room { Room (array_vec_len scopes.old) (kind_of word) }
    requires lowest { Lowest scopes.old.items }
    ensures ends { scope_ends scopes.new.items ≡ scopes_after (kind_of word) (scope_end_of word) (scope_ends scopes.old.items) }
    ensures lowest_2 { Lowest scopes.new.items }
{
    let end = word / ARGUMENT / SCOPE_END;
    match Kind::of(word) {
        Some(Kind::End | Kind::Until) => {
            let _ = scopes.pop();
        }
        Some(Kind::ElseIf | Kind::Else) => {
            let _ = scopes.pop();
            enter(scopes, end);
        }
        Some(Kind::Do | Kind::While | Kind::Repeat | Kind::For | Kind::If) => enter(scopes, end),
        _ => {}
    }
}

pub fn off_the_line(outer: u64, items: Items<'_>) -> bool
    requires shallow { outnumbered 0 0 (zip items.words.now items.spans.now) ≡ false }
    requires paired { pairs_up [] (zip items.words.now items.spans.now) ≡ true }
    ensures { result ≡ not (in_order 0 (zip items.entry.words.now items.entry.spans.now) && inside_scopes (outer ∷ []) (zip items.entry.words.now items.entry.spans.now)) }
{
    let mut scopes = ArrayVec::<Scope, SCOPES>::new();
    scopes.push(Scope {
        end: outer,
        low: outer,
    });
    let mut reached = 0;
    for (word, span) in items.words.iter().zip(items.spans) {
        let code = is_code(*word);
        if !item_held(scopes.as_slice(), code, reached, *word, *span) {
            return true;
        }
        reached = reached_after(code, reached, *span);
        scopes_after(&mut scopes, *word);
    }
    false
}
