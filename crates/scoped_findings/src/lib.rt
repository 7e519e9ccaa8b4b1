// The findings of an admitted pair, with the crossings of its uses as a scope sheet has them, where one comes.
#![tactic(auto)]

ghost use Rattle.sheet_parts.specs.Sheets.{judged_uses};
ghost use Rattle.chart.specs.Loan.{cells};
ghost use Rattle.findings.specs.Loan.{found_cells, found_lent, SameFound};
ghost use Rattle.findings.specs.Accepted.{Long, Searchable, FindingsWritten};

use chart::ChartColumns;
use crossing::replace_crossings;
use findings::{FoundColumns, find_all};
use flow::Counts;
use sheet_parts::{Items, ScopedPair, SheetPair};
use words::limit::ITEMS;

// The findings of a pair whose sheet's graph stands in the columns, and a mark figure for each local. The result is the number of findings.
pub fn find_scoped(
    sheets: ScopedPair<'_>,
    chart: &ChartColumns,
    found: &mut FoundColumns,
    counts: Counts,
) -> usize
    requires searchable { Searchable sheets.pair.sheet.words.now (judged_uses sheets) counts (cells chart.now) }
    requires long { Long (found_cells found.old) }
    ensures written { FindingsWritten sheets.entry.pair.sheet.words.now (judged_uses sheets.entry) result (found_lent found.old found.new) }
    ensures same { SameFound found.old found.new }
{
    let SheetPair { sheet, uses } = sheets.pair;
    let bare = sheets.scopes.len() == 0;
    if bare {
        return find_all(sheets.pair, chart, found, counts);
    }
    // No heap: fixed memory for the most uses.
    let mut words = [0u64; ITEMS];
    replace_crossings(sheets.scopes, uses.words, &mut words);
    let uses = Items {
        words: &words[..uses.words.len()],
        spans: uses.spans,
    };
    find_all(SheetPair { sheet, uses }, chart, found, counts)
}
