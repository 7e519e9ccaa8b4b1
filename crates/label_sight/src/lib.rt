// The labels in sight at an item of a walk over a sheet.
#![tactic(auto)]

ghost use Rattle.std.specs.Prelude.{◌≡◌, not, ◌++◌, [], ◌∷◌, List, ℕ, ◌+◌, ◌≤◌, ◌<◌, length, drop};
ghost use Rattle.arrayvec.specs.ArrayVec.{array_vec_len};
ghost use Rattle.flow.specs.Sheet.{member};
ghost use Rattle.blocks.specs.Open.{labels_at};
ghost use Rattle.label_sight.specs.Labels.{Unlabelled, nothing_seen, opened_sight, next_arm, closed_sight, in_block, none_repeats, Entered};

use arrayvec::ArrayVec;
use blocks::block_labels;
use kinds::is_label;
use words::limit::ITEMS;

// Where no label with a name follows any more, so that no scan need go on. A place, and 0 is one: no Option of it.
pub fn labels_end(kinds: &[u64]) -> usize
    ensures { Unlabelled kinds.now result }
{
    match kinds.iter().rposition(|&w| is_label(w)) {
        Some(last) => last + 1,
        None => 0,
    }
}

// So many labels are compared at once: one after the other, with a return at a hit, 1,024 labels in one block took twice as long.
const AT_ONCE: usize = 16;

// Whether a name is among a few labels'. All are looked at.
fn among_few(labels: &[u64], name: u64) -> bool
    ensures { result ≡ member name labels.now }
{
    let mut found = false;
    for &label in labels {
        found |= label == name;
    }
    found
}

// Whether a name is among some labels', the latest first.
fn among(labels: &[u64], name: u64) -> bool
    ensures { result ≡ member name labels.now }
{
    if let Some((&latest, _)) = labels.split_last() {
        // A hit at the latest takes one comparison.
        if latest == name {
            return true;
        }
    }
    let mut left = labels;
    // A walk of what is left of a slice: no index is counted.
    while left.len() >= AT_ONCE {
        let (before, latest) = left.split_at(left.len() - AT_ONCE);
        if among_few(latest, name) {
            return true;
        }
        left = before;
    }
    among_few(left, name)
}

// The labels that are in sight at an item, as they are read there.
#[derive(Clone, Copy)]
pub struct Sight<'a> {
    // Their names, those of the outermost block first.
    pub labels: &'a [u64],
    // How many of them stand outside the innermost block.
    pub base: usize,
}

impl Sight<'_> {
    // Whether a label of the innermost block has a name.
    pub fn has_here(self, name: u64) -> bool
        requires { self.base ≤ length self.labels.now }
        ensures { result ≡ member name (drop self.entry.base self.entry.labels.now) }
    {
        among(&self.labels[self.base..], name)
    }

    // Whether a label is in sight, as a GOTO's has to be.
    pub fn sees(self, name: u64) -> bool
        ensures { result ≡ member name self.entry.labels.now }
    {
        among(self.labels, name)
    }
}

// The labels that are in sight at an item of a walk, which adds them and takes them out again.
#[derive(Drop)]
pub struct LabelStack {
    // Their names, those of the outermost block first.
    pub labels: ArrayVec<u64, ITEMS>,
    // How many of them stand outside each open block, the outermost first, save the innermost:
    pub marks: ArrayVec<usize, ITEMS>,
    // and how many outside that.
    pub base: usize,
}

impl LabelStack {
    // In the outermost block, before its labels come in sight.
    pub fn new() -> Self
        ensures { result ≡ nothing_seen }
    {
        LabelStack {
            labels: ArrayVec::new(),
            marks: ArrayVec::new(),
            base: 0,
        }
    }

    // The labels as they are read.
    pub fn sight(&self) -> Sight<'_>
        ensures { (result.labels.now ≡ self.now.labels.items) × (result.base ≡ self.now.base) }
    {
        Sight {
            labels: self.labels.as_slice(),
            base: self.base,
        }
    }

    // A label more in its block. Says whether it is the first of its name there.
    fn add(&mut self, name: u64) -> bool
        requires { (self.old.base ≤ array_vec_len self.old.labels) × (array_vec_len self.old.labels < 1024) }
        ensures entered { Entered (name ∷ []) self.old self.new }
        ensures first { result ≡ not (member name (in_block self.old)) }
    {
        let first = !self.sight().has_here(name);
        self.labels.push(name);
        first
    }

    // The labels standing directly in the block that starts at an item come in sight. Says whether none is a repeat there.
    pub fn enter(&mut self, kinds: &[u64], end: usize, from: usize) -> bool
        requires unlabelled { Unlabelled kinds.now end }
        requires base_le_count { self.old.base ≤ array_vec_len self.old.labels }
        requires by_index { (ss : List ℕ) → length ss ≡ length kinds.now → array_vec_len self.old.labels + length (labels_at kinds.now ss from) ≤ 1024 }
        ensures by_index { (ss : List ℕ) → length ss ≡ length kinds.now → Entered (labels_at kinds.now ss from) self.old self.new }
        ensures once { (ss : List ℕ) → length ss ≡ length kinds.now → result ≡ none_repeats (in_block self.old) (labels_at kinds.now ss from) }
    {
        let mut once = true;
        // The end comes beside the kinds: a walk reads the items past it too, which open and close blocks.
        for name in block_labels(&kinds[..end], from) {
            // As `once &= ..` a sheet of 512 gotos took a third longer. Behind a repeat nothing is left to tell.
            if !once {
                self.labels.push(name);
            } else if !self.add(name) {
                once = false;
            }
        }
        once
    }

    // A block opens, with no label in sight yet.
    pub fn open(&mut self)
        requires { array_vec_len self.old.marks < 1024 }
        ensures { self.new ≡ opened_sight self.old }
    {
        self.marks.push(self.base);
        self.base = self.labels.len();
    }

    // The arm above is left, and its labels go out of sight.
    pub fn next_arm(&mut self)
        ensures { self.new ≡ next_arm self.old }
    {
        self.labels.truncate(self.base);
    }

    // The innermost block is left, and the labels of its last arm go out of sight.
    pub fn close(&mut self)
        requires { 1 ≤ array_vec_len self.old.marks }
        ensures { self.new ≡ closed_sight self.old }
    {
        self.next_arm();
        if let Some(outside) = self.marks.pop() {
            self.base = outside;
        }
    }

    // Whether a label is in sight, as a GOTO's has to be.
    pub fn sees(&self, name: u64) -> bool
        ensures { result ≡ member name self.now.labels.items }
    {
        self.sight().sees(name)
    }
}
