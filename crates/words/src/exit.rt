// "Nodes 0 to 4 are the exits End, Break, ReturnValue, ReturnEmpty, Error; 5 is the entry."
pub const END: usize = 0;

pub const BREAK: usize = 1;

pub const RETURN_VALUE: usize = 2;

pub const RETURN_EMPTY: usize = 3;

pub const ERROR: usize = 4;

pub const ENTRY: usize = 5;

// How many nodes a graph starts with.
pub const START_NODES: usize = ENTRY + 1;
