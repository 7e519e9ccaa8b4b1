// Refusal 9, bad scope: "the scope sheet's count, length or a kind is wrong, a parent isn't a lower number, or a use or name gives a scope not in it".
#![tactic(auto)]

ghost use Rattle.std.specs.Prelude.{◌≡◌, ◌≤◌};
ghost use Rattle.flow.specs.Sheet.{all};
ghost use Rattle.flow.specs.Scopes.{is_below, parents_lower, scopes_wrong};

use scope_parts::Scopes;
use words::limit::SCOPES;
use words::scope_kind::LOOP;

// Whether each of some words is below a limit.
fn all_below(words: &[u64], limit: u64) -> bool
    ensures { result ≡ all (is_below limit) words.now }
{
    words.iter().all(|&word| word < limit)
}

// Whether each parent is a lower number than its scope, or none: the word, its number plus 1, is at most the scope's.
fn parents_lower(parents: &[u64]) -> bool
    ensures { result ≡ parents_lower 0 parents.now }
{
    parents
        .iter()
        .enumerate()
        .all(|(s, &parent)| parent <= s as u64)
}

// Whether a scope sheet, where one comes, is none for so many names and uses. The count is tested before it is multiplied.
pub fn bad_scopes(sheet: &[u64], names: u64, uses: u64) -> bool
    requires { (names ≤ 1024) × (uses ≤ 1024) }
    ensures { result ≡ scopes_wrong names uses sheet.now }
{
    if sheet.len() == 0 {
        return false;
    }
    let count = sheet[0];
    if count > SCOPES as u64 {
        return true;
    }
    if sheet.len() as u64 != 1 + 2 * count + names + uses {
        return true;
    }
    let scopes = Scopes::of(sheet);
    if !all_below(scopes.kinds, LOOP + 1) {
        return true;
    }
    if !parents_lower(scopes.parents) {
        return true;
    }
    !all_below(scopes.numbers, count)
}
