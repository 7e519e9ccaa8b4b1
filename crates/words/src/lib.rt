// The numbers that words are made of, which code names and never spells out: exits, the fields of a word, what is absent, and the most that a sheet has.
#![tactic(auto)]

pub mod exit;
pub mod finding;
pub mod limit;
pub mod scope_kind;
pub mod use_kind;

// In a file a word has eight bytes.
pub const WORD_BYTES: usize = 8;

// What the lowest bit of a field counts. A kind word is kind + 256 × argument,
pub const ARGUMENT: u64 = 256;

// the argument of a kind that is marked S condition + 32 × scope end,
pub const SCOPE_END: u64 = 32;

// a use word local + 65,536 × its kind and crossing,
pub const USE_KIND: u64 = 65536;

// these two kind + 4 × crossing,
pub const CROSSING: u64 = 4;

// and a span start + 2^32 × end, as every word of two halves.
pub const HALF: u64 = 0x1_0000_0000;

// While a graph is built, a name's word is its node + 65,536 × its item + 2^32 × its scope end,
pub const NAME_ITEM: u64 = 65536;

// and has this for no node. Here and below none is a number, since a lent word has no room for an Option.
pub const NAME_WITHOUT_NODE: u64 = NAME_ITEM - 1;

// "Absent successors are stored as 4,294,967,295": as a half of a node's word,
pub const ABSENT: u64 = HALF - 1;

// and as both halves, of a node with no successor yet.
pub const NO_SUCCESSORS: u64 = ABSENT + ABSENT * HALF;
