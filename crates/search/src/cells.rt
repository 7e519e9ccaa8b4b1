// The numbers that hold a node in a search's columns: as wide as the memory that the columns are lent. A trait of its own, and no From or
// TryFrom: of a number below the limit a cast loses nothing, and a TryFrom would have to be asked whether it failed. Both impls are
// written out: none may come from a macro of ours.

ghost use Rattle.std.specs.Prelude.{◌≡◌, ℕ, List, ◌<◌, ◌^◌, length, get_or, set, refl};
ghost use Rattle.std.proofs.lemmas.List.{get_or_default};

// A number that holds a node.
pub trait NodeCell: Copy {
    ghost number: { Self → ℕ };

    // The numbers of a column.
    ghost numbers: { List Self → List ℕ };

    // Each number below it fits.
    ghost limit: { ℕ };

    fn of(v: usize) -> Self
        requires { v < limit }
        ensures { number result ≡ v };

    fn index(self) -> usize
        ensures { result ≡ number self };

    ghost long: { (xs : List Self) → length (numbers xs) ≡ length xs };

    ghost read: { (xs : List Self) (i : ℕ) (d : Self) → i < length xs → get_or (numbers xs) i 0 ≡ number (get_or xs i d) };

    ghost written: { (xs : List Self) (i : ℕ) (x : Self) → numbers (set xs i x) ≡ set (numbers xs) i (number x) };
}

impl NodeCell for u16 {
    ghost number = { λ x. x };

    ghost numbers = { λ xs. xs };

    ghost limit = { 2 ^ 16 };

    fn of(v: usize) -> u16 {
        v as u16
    }

    fn index(self) -> usize {
        usize::from(self)
    }

    ghost long = { λ xs. refl };

    ghost read = { λ xs i d. get_or_default xs i 0 d };

    ghost written = { λ xs i x. refl };
}

impl NodeCell for u64 {
    ghost number = { λ x. x };

    ghost numbers = { λ xs. xs };

    ghost limit = { 2 ^ 64 };

    fn of(v: usize) -> u64 {
        v as u64
    }

    fn index(self) -> usize {
        self as usize
    }

    ghost long = { λ xs. refl };

    ghost read = { λ xs i d. get_or_default xs i 0 d };

    ghost written = { λ xs i x. refl };
}
