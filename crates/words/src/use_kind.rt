// The kinds of a use, as a lent word's field has them: `UseKind` is made of these numbers, and a test asks for them as they are.
pub const READ: u64 = 0;

pub const WRITE: u64 = 1;

pub const READ_WRITE: u64 = 2;
