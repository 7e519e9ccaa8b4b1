// Admission of a sheet, a use sheet and a scope sheet: the verdict of the pair, and behind it refusal 9.
#![tactic(auto)]

ghost use Rattle.std.specs.Prelude.{◌≡◌, IfOk};
ghost use Rattle.flow.specs.Scopes.{bad_scopes, scoped_verdict};
ghost use Rattle.sheet_parts.specs.Sheets.{verdict_of, uses_of, IsScoped};

use admission::admit_pair;
use flow::Refusal;
use scope_tests::bad_scopes;
use sheet_parts::{ScopedPair, SheetPair};
use use_tests::name_count;

// 9. Without a scope sheet the names need not be counted.
fn scope_is_bad(pair: SheetPair<'_>, scopes: &[u64]) -> bool
    ensures { result ≡ bad_scopes pair.entry.sheet.words.now (uses_of pair.entry) scopes.now }
{
    if scopes.len() == 0 {
        return false;
    }
    let names = name_count(pair.sheet.items());
    bad_scopes(scopes, names, pair.uses.words.len() as u64)
}

// The sheets, where they are admitted. 9 comes behind 8, which looks at the uses as they are supplied.
pub fn admit_scoped<'a>(
    short: bool,
    sheet: &'a [u64],
    uses: &'a [u64],
    scopes: &'a [u64],
) -> Result<ScopedPair<'a>, Refusal>
    ensures verdict { verdict_of result ≡ scoped_verdict short sheet.now uses.now scopes.now }
    ensures same { IfOk result (λ p. IsScoped sheet.now uses.now scopes.now p) }
{
    let pair = admit_pair(short, sheet, uses)?;
    if scope_is_bad(pair, scopes) {
        return Err(Refusal::BadScope);
    }
    Ok(ScopedPair { pair, scopes })
}

// Of every call that takes a scope sheet.
pub fn scoped_verdict(
    short: bool,
    sheet: &[u64],
    uses: &[u64],
    scopes: &[u64],
) -> Result<(), Refusal>
    ensures { result ≡ scoped_verdict short sheet.now uses.now scopes.now }
{
    admit_scoped(short, sheet, uses, scopes)?;
    Ok(())
}
