// A use with its node, as the walks over a local's uses take it: what they ask of it stands together, in eight bytes.
#![tactic(auto)]

ghost use Rattle.std.specs.Prelude.{◌≡◌, ◌&&◌, ◌<◌, eqb};
ghost use Rattle.flow.specs.Sheet.{local_of, use_kind_of, crossing_of};
ghost use Rattle.flow.specs.Findings.{is_read, is_write};
ghost use Rattle.use_words.specs.Words.{kind_number, use_of};

use words::use_kind::{READ, READ_WRITE, WRITE};
use words::{CROSSING, USE_KIND};

// "kind 0 Read, 1 Write, 2 ReadWrite". A word has room for one number more, which refusal 8 turns back.
#[derive(Clone, Copy, PartialEq, Eq)]
pub enum UseKind {
    Read,
    Write,
    ReadWrite,
    Other,
}

impl UseKind {
    // The kind in a word of the use sheet. No From: the word holds a local and a crossing besides.
    pub fn of(word: u64) -> UseKind
        ensures { kind_number result ≡ use_kind_of word }
    {
        match word / USE_KIND % CROSSING {
            READ => UseKind::Read,
            WRITE => UseKind::Write,
            READ_WRITE => UseKind::ReadWrite,
            _ => UseKind::Other,
        }
    }
}

#[derive(Clone, Copy)]
pub struct PlacedUse {
    pub number: u16,
    pub node: u16,
    pub local: u16,
    pub kind: UseKind,
    pub in_closure: bool,
}

// What the cells of a column of uses hold at first. It has a name, and is no Default: no kind of use stands for none.
pub const NO_USE: PlacedUse = PlacedUse {
    number: 0,
    node: 0,
    local: 0,
    kind: UseKind::Read,
    in_closure: false,
};

impl PlacedUse {
    // The use with this number, at this node, whose word in the use sheet is `word`. Whether its local is captured is a value of the local's, and chooses no step.
    #[tactic(auto, using(crate::proofs::Words::use_inside, crate::proofs::Words::use_uncrossed, crate::proofs::Words::use_uncaptured))]
    pub fn new(number: usize, node: usize, word: u64, captured: bool) -> PlacedUse
        requires { (number < 65536) × (node < 65536) }
        ensures placed { use_of result ≡ record { number = number; span = 0; kind = use_kind_of word; in_closure = captured && eqb (crossing_of word) 1; found = Some node } }
        ensures local { result.local ≡ local_of word }
    {
        PlacedUse {
            number: number as u16,
            node: node as u16,
            local: (word % USE_KIND) as u16,
            kind: UseKind::of(word),
            in_closure: captured && word / USE_KIND / CROSSING == 1,
        }
    }

    // A Read or a ReadWrite.
    #[tactic(auto, unfolding(crate::specs::Words::use_of))]
    pub fn is_read(self) -> bool
        ensures { result ≡ is_read (use_of self) }
    {
        self.kind != UseKind::Write
    }

    // A Write or a ReadWrite.
    #[tactic(auto, unfolding(crate::specs::Words::use_of))]
    pub fn is_write(self) -> bool
        ensures { result ≡ is_write (use_of self) }
    {
        self.kind != UseKind::Read
    }
}
