// The label check: no two labels of a name stand directly in a block, and every GOTO finds a label.
#![tactic(auto)]

ghost use Rattle.std.specs.Prelude.{◌≡◌, List, ℕ, ◌+◌, ◌<◌, length};
ghost use Rattle.flow.specs.Sheet.{zip};
ghost use Rattle.flow.specs.Tree.{tree};
ghost use Rattle.label_sight.specs.Labels.{Unlabelled};
ghost use Rattle.label_check.specs.Walk.{whole_fine, Checkable, Walking, After};

use kinds::Kind;
use label_sight::{LabelStack, labels_end};
use words::ARGUMENT;

// What item j makes of the labels in sight. Says whether it repeats no label of its block, and misses none.
fn step(sight: &mut LabelStack, kinds: &[u64], end: usize, j: usize) -> bool
    requires checkable { Checkable kinds.now × Unlabelled kinds.now end × (j < length kinds.now) }
    requires by_index { (ss : List ℕ) → length ss ≡ length kinds.now → Walking kinds.now ss j sight.old }
    ensures { (ss : List ℕ) → length ss ≡ length kinds.now → After kinds.now ss (j + 1) result sight.new }
{
    let word = kinds[j];
    match Kind::of(word) {
        Some(Kind::Do | Kind::While | Kind::Repeat | Kind::For | Kind::If) => {
            sight.open();
            sight.enter(kinds, end, j + 1)
        }
        Some(Kind::ElseIf | Kind::Else) => {
            sight.next_arm();
            sight.enter(kinds, end, j + 1)
        }
        Some(Kind::End | Kind::Until) => {
            sight.close();
            true
        }
        Some(Kind::Goto) => sight.sees(word / ARGUMENT),
        _ => true,
    }
}

// Whether, in a sheet of these kinds, no label is repeated directly in its block and every GOTO finds one.
pub fn labels_fine(kinds: &[u64]) -> bool
    requires { Checkable kinds.now }
    ensures { (ss : List ℕ) → length ss ≡ length kinds.now → result ≡ whole_fine (tree (zip kinds.now ss)) }
{
    let end = labels_end(kinds);
    let mut sight = LabelStack::new();
    if !sight.enter(kinds, end, 0) {
        return false;
    }
    // By index: what opens a block looks for its labels from the next item on.
    for j in 0..kinds.len() {
        if !step(&mut sight, kinds, end, j) {
            return false;
        }
    }
    true
}
