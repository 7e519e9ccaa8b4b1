// The findings of all locals, from the columns of a chart and a use sheet (local_flow.rs).
#![tactic(auto)]

ghost use Rattle.std.specs.Prelude.{◌≡◌, ◌+◌, ◌≤◌, length};
ghost use Rattle.locals.specs.Entries.{Room};
ghost use Rattle.sized_flow.specs.Given.{AnyGiven, FindsGiven};
ghost use Rattle.local_flow.specs.Sheets.{AnySheets, Finds};

use facts::{NameFacts, any_tracked};
use locals::FindingList;
use name_facts::find_names;
use sized_flow::{ChartedPair, compute as compute_sized};
use small_sheets::{SMALL, is_small};
use words::limit::{ITEMS, NODES};

const SMALL_STARTS: usize = SMALL + 1;

const STARTS: usize = NODES + 1;

// The findings of a pair with the facts of its names, in as much memory as it needs.
fn find(
    pair: ChartedPair<'_>,
    facts: &mut [NameFacts],
    findings: &mut FindingList<'_>,
    mark: &mut [u64],
)
    requires any_given { AnyGiven pair.graph pair.names pair.codes pair.uses facts.old }
    requires room { Room 3072 findings.old.count findings.old.words.now × (length facts.old ≤ length mark.old) }
    ensures same { findings.new.words.ghost_name ≡ findings.old.words.ghost_name }
    ensures finds { FindsGiven pair.entry.graph pair.entry.names pair.entry.codes pair.entry.uses facts.old findings.old findings.new mark.old mark.new }
{
    if is_small(
        pair.graph.edges.first.len(),
        facts.len(),
        pair.uses.words.len(),
    ) {
        compute_sized::<SMALL, SMALL, SMALL_STARTS>(pair, facts, findings, mark);
    } else {
        compute_sized::<ITEMS, NODES, STARTS>(pair, facts, findings, mark);
    }
}

// The findings of a sheet with at most NAMES items, and so with as many names at most. The facts of the names come before the other
// tables: by them it is told whether any table is needed, and how much memory they take.
fn compute_in<const NAMES: usize>(
    kinds: &[u64],
    pair: ChartedPair<'_>,
    finding_word: &mut [u64],
    mark: &mut [u64],
) -> usize
    requires any_sheets { AnySheets kinds.now pair.graph pair.codes pair.names pair.uses }
    requires size { (length kinds.now ≤ NAMES) × (NAMES ≤ 1024) }
    requires room { Room 3072 0 finding_word.old × (1024 ≤ length mark.old) }
    ensures { Finds kinds.now pair.entry.graph pair.entry.codes pair.entry.names pair.entry.uses finding_word.old finding_word.new mark.old mark.new result }
{
    // No heap: fixed memory for the most names.
    let mut facts = [NameFacts::default(); NAMES];
    let count = find_names(kinds, &mut facts);
    let facts = &mut facts[..count];
    if !any_tracked(facts) {
        mark[..count].fill(0);
        // A count: there are no findings.
        return 0;
    }
    let mut findings = FindingList {
        words: finding_word,
        count: 0,
    };
    find(pair, facts, &mut findings, mark);
    findings.count
}

// The words of the findings of a sheet with its uses, in their order, and a mark figure for each local. The result is the number of findings.
// Most sheets are small, and to clear facts for 1,024 names would take a twentieth of all time of a tiny one.
pub fn compute(
    kinds: &[u64],
    pair: ChartedPair<'_>,
    finding_word: &mut [u64],
    mark: &mut [u64],
) -> usize
    requires any_sheets { AnySheets kinds.now pair.graph pair.codes pair.names pair.uses }
    requires room { Room 3072 0 finding_word.old × (1024 ≤ length mark.old) }
    ensures { Finds kinds.now pair.entry.graph pair.entry.codes pair.entry.names pair.entry.uses finding_word.old finding_word.new mark.old mark.new result }
{
    if kinds.len() <= SMALL {
        compute_in::<SMALL>(kinds, pair, finding_word, mark)
    } else {
        compute_in::<ITEMS>(kinds, pair, finding_word, mark)
    }
}
