// The parts of a scope sheet: two arrays, and behind them a scope number a word, of names and then of uses.
#![tactic(auto)]

ghost use Rattle.std.specs.Prelude.{◌≡◌};
ghost use Rattle.flow.specs.Scopes.{scope_kinds, parent_words, scope_numbers};
ghost use Rattle.scope_parts.specs.Parts.{ScopesCounted};

// Words that stand before the two arrays.
const SCOPE_HEAD: usize = 1;

#[derive(Clone, Copy)]
pub struct Scopes<'a> {
    // The first array: kinds,
    pub kinds: &'a [u64],
    // the second: parent plus 1, or 0 for none,
    pub parents: &'a [u64],
    // and the scope numbers of names, then of uses.
    pub numbers: &'a [u64],
}

impl<'a> Scopes<'a> {
    pub fn of(sheet: &'a [u64]) -> Self
        requires { ScopesCounted sheet.now }
        ensures kinds { result.kinds.now ≡ scope_kinds sheet.now }
        ensures parents { result.parents.now ≡ parent_words sheet.now }
        ensures numbers { result.numbers.now ≡ scope_numbers sheet.now }
    {
        let parents = SCOPE_HEAD + sheet[0] as usize;
        let numbers = parents + sheet[0] as usize;
        Scopes {
            kinds: &sheet[SCOPE_HEAD..parents],
            parents: &sheet[parents..numbers],
            numbers: &sheet[numbers..],
        }
    }
}
