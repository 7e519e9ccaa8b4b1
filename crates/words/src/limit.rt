// The most items that an admitted sheet has, and the most uses of a use sheet,
pub const ITEMS: usize = 1024;

// the most openers that are not closed yet,
pub const DEPTH: usize = 64;

// the most nodes of its graph,
pub const NODES: usize = 1600;

// and the most scopes of a scope sheet.
pub const SCOPES: usize = 512;
