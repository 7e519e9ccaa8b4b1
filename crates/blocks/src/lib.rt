// The labels that stand directly in a block, as an iterator: what the graph's builders and the label check share.
#![tactic(auto)]

ghost use Rattle.std.specs.Prelude.{◌≡◌, option_to_list, List, ℕ, ◌+◌, ◌-◌, ◌<◌, ◌^◌, length, drop};
ghost use Rattle.std.specs.Iterator.{YieldsFirst, item_count};
ghost use Rattle.flow.specs.Sheet.{kind_of};
ghost use Rattle.blocks.specs.Open.{ends_at, labels_here, depth_after, labels_in, labels_at};

use kinds::{Kind, is_block_end, is_label};
use std::marker::Model;
use words::ARGUMENT;

// Whether an item ends the block that a scan started in, where so many blocks are open inside that.
#[tactic(auto, using(std::proofs::lemmas::Bool::Decides::nat_tests), unfolding(crate::specs::Open::ends_at))]
fn ends_at(word: u64, depth: usize) -> bool
    ensures { result ≡ ends_at (kind_of word) depth }
{
    depth == 0 && is_block_end(word)
}

// The label that an item is, where it stands directly in that block.
#[tactic(auto, using(std::proofs::lemmas::Bool::Decides::nat_tests), unfolding(crate::specs::Open::labels_here))]
fn label_here(word: u64, depth: usize) -> Option<u64>
    ensures { labels_here word depth ≡ option_to_list result }
{
    if depth == 0 && is_label(word) {
        Some(word / ARGUMENT)
    } else {
        None
    }
}

// How deep a scan is past an item.
#[tactic(auto, using(std::proofs::lemmas::Bool::Decides::nat_tests), unfolding(crate::specs::Open::depth_after))]
fn depth_after(word: u64, depth: usize) -> usize
    requires { depth + 1 < 2 ^ 64 }
    ensures { result ≡ depth_after (kind_of word) depth }
{
    match Kind::of(word) {
        Some(kind) if kind.is_opener() => depth + 1,
        Some(kind) if kind.is_closer() => depth.saturating_sub(1),
        _ => depth,
    }
}

// The names of the labels that stand directly in a block, in order: what a scan has still to find there.
#[derive(Drop)]
pub struct BlockLabels<'a> {
    // The kinds that are not scanned yet, and how many blocks are open there inside the one that the scan started in.
    kinds: &'a [u64],
    depth: usize,
}

impl<'a> Model for BlockLabels<'a> {
    ghost Value = { List ℕ };

    ghost view = { λ b. labels_in b.kinds.now b.depth };

    ghost invariant = { λ b. b.depth + length b.kinds.now < 2 ^ 64 };
}

// The labels that stand directly in the block that starts at an item of a sheet.
pub fn block_labels<'a>(kinds: &'a [u64], from: usize) -> BlockLabels<'a>
    ensures scan { result ≡ labels_in (drop from kinds.now) 0 }
    ensures by_index { (ss : List ℕ) → length ss ≡ length kinds.now → result ≡ labels_at kinds.now ss from }
{
    BlockLabels {
        kinds: kinds.get(from..).unwrap_or(&[]),
        depth: 0,
    }
}

impl<'a> Iterator for BlockLabels<'a> {
    type Item = u64;

    ghost next_gives = { YieldsFirst (λ labels. labels) };

    ghost remaining = { item_count (λ labels. labels) };

    fn next(&mut self) -> Option<u64> {
        // No `for`: it would borrow the field that the end of the block empties.
        while let Some((&word, rest)) = self.kinds.split_first() {
            if ends_at(word, self.depth) {
                self.kinds = &[];
                return None;
            }
            let depth = self.depth;
            self.kinds = rest;
            self.depth = depth_after(word, depth);
            if let Some(label) = label_here(word, depth) {
                return Some(label);
            }
        }
        None
    }
}
