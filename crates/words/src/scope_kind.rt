// The kinds of a scope, as a lent word has them: Module, Function, Block and Loop. Only a Function is a boundary. Each number is
// compared in one place, so an enum would be made for that alone.
pub const FUNCTION: u64 = 1;

pub const LOOP: u64 = 3;
