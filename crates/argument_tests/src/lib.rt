// Refusal 3, the table's column of arguments.
#![tactic(auto)]

ghost use Rattle.std.specs.Prelude.{◌≡◌, ℕ, ◌&&◌, ◌^◌, ◌%◌, ◌/◌, ltb};
ghost use Rattle.flow.specs.Kinds.{argument_fits};
ghost use Rattle.kinds.specs.Numbers.{Decoded};

use kinds::Kind;
use words::{HALF, SCOPE_END};

// The conditions are 0 to 18.
const CONDITIONS: u64 = 19;

// The last number that a LOCAL or a label can have.
const LAST_NUMBER: u64 = 65535;

// All bits of a NAME, which has three,
const NAME_BITS: u64 = 7;

// and of a CALL, which has seven.
const CALL_BITS: u64 = 127;

// An argument that is a condition, one of `conditions`, and a scope end.
fn scoped(argument: u64, conditions: u64) -> bool
    ensures { result ≡ (ltb (argument % 32) conditions && ltb (argument / 32) (2 ^ 32)) }
{
    argument % SCOPE_END < conditions && argument / SCOPE_END < HALF
}

// Whether an argument is one that the table has for its kind. A number that is no kind's may have 0 alone.
#[tactic(auto, unfolding(flow::specs::Kinds::argument_fits))]
pub fn argument_fits(kind: Option<Kind>, argument: u64) -> bool
    ensures { (number : ℕ) → Decoded number kind → result ≡ argument_fits number argument }
{
    match kind {
        Some(Kind::While | Kind::Repeat) => scoped(argument, CONDITIONS),
        Some(Kind::Do | Kind::For | Kind::If | Kind::ElseIf | Kind::Else) => scoped(argument, 1),
        Some(Kind::Local | Kind::Label | Kind::Goto) => argument <= LAST_NUMBER,
        Some(Kind::Name) => argument <= NAME_BITS,
        Some(Kind::Return) => argument <= 1,
        Some(Kind::Call) => argument <= CALL_BITS,
        _ => argument == 0,
    }
}
