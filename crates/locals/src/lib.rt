// What the passes over locals share: a local's declaration, its part of the uses, and the list of findings that they write (local_flow.rs).
#![tactic(auto)]

ghost use Rattle.std.specs.Prelude.{◌≡◌, [], ◌∷◌, ◌<◌, length, get_or};
ghost use Rattle.locals.specs.Columns.{Cut, part_at};
ghost use Rattle.locals.specs.Entries.{AddsTo};

use facts::NameFacts;
use live_steps::{FlowGraph, LocalDeclaration};
use use_words::PlacedUse;

// The locals as the columns of names have them: the node of each one's LOCAL, and where its scope ends.
#[derive(Clone, Copy)]
pub struct DeclarationTable<'a> {
    pub node: &'a [u64],
    pub scope_end: &'a [u64],
}

impl DeclarationTable<'_> {
    // A local's declaration.
    pub fn of(&self, local: usize) -> LocalDeclaration
        requires { (local < length self.now.node.now) × (local < length self.now.scope_end.now) }
        ensures { (result.node ≡ get_or self.now.node.now local 0) × (result.scope_end ≡ get_or self.now.scope_end.now local 0) }
    {
        LocalDeclaration {
            node: self.node[local] as usize,
            scope_end: self.scope_end[local],
        }
    }
}

// Uses grouped by local, and where each local's part starts. The last part ends where one local more would start.
#[derive(Clone, Copy)]
pub struct UseTable<'a> {
    pub starts: &'a [u16],
    pub uses: &'a [PlacedUse],
}

impl<'a> UseTable<'a> {
    // A local's uses.
    pub fn of(&self, local: usize) -> &'a [PlacedUse]
        requires { Cut local self.now.starts.now self.now.uses.now }
        ensures { result.now ≡ part_at local self.now.starts.now self.now.uses.now }
    {
        &self.uses[self.starts[local] as usize..self.starts[local + 1] as usize]
    }
}

// What a pass over all locals reads: the graph, and of each local its declaration, its facts and its uses.
#[derive(Clone, Copy)]
pub struct PassTables<'a> {
    pub graph: FlowGraph<'a>,
    pub names: DeclarationTable<'a>,
    pub facts: &'a [NameFacts],
    pub uses: UseTable<'a>,
}

// The words of findings, one after the other. The count stands beside the column, since that is memory which C lends.
// How much room is left stays a clause: it falls with each push, and each pass asks for its own.
#[derive(Drop)]
pub struct FindingList<'a> {
    pub words: &'a mut [u64],
    pub count: usize,
}

impl FindingList<'_> {
    // One finding's word at the end of the list.
    pub fn push(&mut self, word: u64)
        requires { self.old.count < length self.old.words.now }
        ensures { AddsTo (word ∷ []) self.old self.new }
    {
        self.words[self.count] = word;
        self.count += 1;
    }
}
