// Which sheets are judged in little memory.
#![tactic(auto)]

ghost use Rattle.std.specs.Prelude.{◌≡◌, true, ◌≤◌};

// So many nodes, names and uses a small sheet has at most.
pub const SMALL: usize = 128;

// Whether a sheet has so few nodes, names and uses that little memory will do.
pub fn is_small(n: usize, names: usize, uses: usize) -> bool
    ensures { result ≡ true → (n ≤ 128) × (names ≤ 128) × (uses ≤ 128) }
{
    n <= SMALL && names <= SMALL && uses <= SMALL
}
