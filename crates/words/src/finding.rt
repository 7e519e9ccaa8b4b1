// A finding's word is its list + 2 × its local + 2^32 × (its use + 1, or 0 for an initial value). The list of the unassigned is 0,
// that of the overwritten 1.
pub const OVERWRITTEN: u64 = 1;

// What the lowest bit of a field counts: of the local
pub const LOCAL: u64 = 2;

// and of the use.
pub const USE: u64 = crate::HALF;
