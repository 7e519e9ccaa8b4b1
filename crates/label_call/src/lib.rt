// The label check of document 01, as a call: it takes any sheet, and answers as its definition does.
#![tactic(auto)]

ghost use Rattle.std.specs.Prelude.{◌≡◌};
ghost use Rattle.flow.specs.Answers.{label_told};
ghost use Rattle.flow.specs.Labels.{label_check};

use flow::Refusal;

// Whether no label is repeated in its block and every GOTO finds one.
pub fn label_check(sheet: &[u64]) -> Result<bool, Refusal>
    ensures { label_told result ≡ label_check sheet.now }
{
    let sheet = admission::admit_sheet(false, sheet)?;
    Ok(label_check::labels_fine(sheet.items().words))
}
