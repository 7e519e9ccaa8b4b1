// Admission: for any words the first refusal in the order of precedence, or that the sheets are admitted, and then the sheets as such.
#![tactic(auto)]

ghost use Rattle.std.specs.Prelude.{◌≡◌, IfOk, [], ◌∷◌};
ghost use Rattle.flow.specs.Refusals.{miscount, first_applying, item_tests, sheet_verdict, pair_verdict, bad_use};
ghost use Rattle.sheet_parts.specs.Sheets.{verdict_of, IsPair};

use count_tests::counted;
use depth_tests::too_deep;
use flow::Refusal;
use item_tests::bad_item;
use line_tests::off_the_line;
use name_tests::bad_name;
use nesting_tests::bad_nesting;
use sheet_parts::{CountedWords, SHEET_HEAD, Sheet, SheetPair, USE_HEAD};
use use_tests::{bad_use, name_count};

type CountedSheet<'a> = CountedWords<'a, SHEET_HEAD>;

type CountedUses<'a> = CountedWords<'a, USE_HEAD>;

// 1 and 2: the sheet, where no lent column is too short and it is counted right. `short` is what the call measured, and stays a bool: it
// is an argument of the definition `sheet_verdict`, whose refusal 1 it is, and tells of lent columns, which this crate does not know.
#[tactic(auto, unfolding(flow::specs::Refusals::first_applying))]
fn counted_sheet<'a>(short: bool, sheet: &'a [u64]) -> Result<CountedSheet<'a>, Refusal>
    ensures verdict { verdict_of result ≡ first_applying ((Refusal.BenchTooSmall, short) ∷ (Refusal.Miscount, miscount 2 sheet.now) ∷ []) }
    ensures same { IfOk result (λ s. s.words.now ≡ sheet.now) }
{
    (!short).then_some(()).ok_or(Refusal::BenchTooSmall)?;
    counted(sheet)
}

// 3 to 7, which ask of the sheet alone.
#[tactic(auto, unfolding(flow::specs::Refusals::first_applying, flow::specs::Refusals::item_tests, flow::specs::Refusals::bad_item, flow::specs::Refusals::too_deep, flow::specs::Refusals::bad_nesting, flow::specs::Refusals::off_the_line, flow::specs::Refusals::bad_name))]
fn item_verdict(sheet: CountedSheet<'_>) -> Result<(), Refusal>
    ensures { result ≡ first_applying (item_tests sheet.entry.words.now) }
{
    let outer = sheet.words[1];
    let items = sheet.items();
    if bad_item(outer, items) {
        return Err(Refusal::BadItem);
    }
    if too_deep(items) {
        return Err(Refusal::TooDeep);
    }
    if bad_nesting(items) {
        return Err(Refusal::BadNesting);
    }
    if off_the_line(outer, items) {
        return Err(Refusal::OffTheLine);
    }
    if bad_name(items) {
        return Err(Refusal::BadName);
    }
    Ok(())
}

// 8: "local number not below the names, high part not 0 to 2 or 4 to 6, or start past end".
#[tactic(auto, unfolding(flow::specs::Refusals::bad_use))]
fn use_is_bad(sheet: CountedSheet<'_>, uses: CountedUses<'_>) -> bool
    ensures { result ≡ bad_use sheet.entry.words.now uses.entry.words.now }
{
    let names = name_count(sheet.items());
    bad_use(names, uses.items())
}

// Of every call that takes a sheet. The call has measured its own lent columns.
pub fn sheet_verdict(short: bool, sheet: &[u64]) -> Result<(), Refusal>
    ensures { result ≡ sheet_verdict short sheet.now }
{
    item_verdict(counted_sheet(short, sheet)?)
}

// The sheet, where it is admitted.
pub fn admit_sheet<'a>(short: bool, sheet: &'a [u64]) -> Result<Sheet<'a>, Refusal>
    ensures verdict { verdict_of result ≡ sheet_verdict short sheet.now }
    ensures same { IfOk result (λ s. s.words.now ≡ sheet.now) }
{
    sheet_verdict(short, sheet)?;
    Ok(Sheet { words: sheet })
}

// The sheet and its uses, where the pair is admitted. A further test of the pair comes behind 8.
pub fn admit_pair<'a>(
    short: bool,
    sheet: &'a [u64],
    uses: &'a [u64],
) -> Result<SheetPair<'a>, Refusal>
    ensures verdict { verdict_of result ≡ pair_verdict short sheet.now uses.now }
    ensures same { IfOk result (λ p. IsPair sheet.now uses.now p) }
{
    let counted_sheet = counted_sheet(short, sheet)?;
    let counted_uses = counted(uses)?;
    item_verdict(counted_sheet)?;
    if use_is_bad(counted_sheet, counted_uses) {
        return Err(Refusal::BadUse);
    }
    let sheet = Sheet { words: sheet };
    let uses = counted_uses.items();
    Ok(SheetPair { sheet, uses })
}

// Of every call that takes a pair.
pub fn pair_verdict(short: bool, sheet: &[u64], uses: &[u64]) -> Result<(), Refusal>
    ensures { result ≡ pair_verdict short sheet.now uses.now }
{
    admit_pair(short, sheet, uses)?;
    Ok(())
}
