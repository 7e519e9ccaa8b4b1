// The unassigned findings: for each local without a value its first read that no write can reach (local_flow.rs).
#![tactic(auto)]

ghost use Rattle.std.specs.Prelude.{◌≡◌, true, ◌+◌, ◌<◌, ◌≤◌, length};
ghost use Rattle.search.specs.Running.{SameColumns};
ghost use Rattle.search.specs.Stamps.{Stamped, Unmarked};
ghost use Rattle.use_words.specs.Words.{uses_in};
ghost use Rattle.live_steps.specs.Walk.{nodes_of, charted, declared};
ghost use Rattle.locals.specs.Entries.{Room, AddsTo};
ghost use Rattle.unassigned.specs.Words.{words_at, unassigned_words, visits};
ghost use Rattle.unassigned.specs.Pass.{AnyPass, ListsUnassigned};

use live_walk::LocalWalk;
use local_walk::walk_local;
use locals::{FindingList, PassTables};
use search::Search;
use words::finding::{LOCAL, USE};

// The finding of a walk, if it found a use.
#[tactic(auto, using(locals::proofs::Entries::added_none, crate::proofs::Words::words_at_one))]
fn push_found(findings: &mut FindingList<'_>, local: usize, first: Option<u16>)
    requires { (local < 1024) × (findings.old.count < length findings.old.words.now) }
    ensures { AddsTo (words_at local first) findings.old findings.new }
{
    if let Some(number) = first {
        findings.push(LOCAL * local as u64 + USE * (number as u64 + 1));
    }
}

// The finding of one local. Its stamp is its number + 1. The result is its mark figure: how many nodes the walk visits.
fn list_local(
    walk: &LocalWalk<'_>,
    search: &mut Search<'_>,
    findings: &mut FindingList<'_>,
    local: usize,
) -> usize
    requires unmarked { Unmarked (local + 1) (nodes_of walk.now.graph) search.old.marks.now search.old.stack.now }
    requires room { (local < 1024) × Room 1 findings.old.count findings.old.words.now }
    ensures same { SameColumns search.old search.new }
    ensures adds { AddsTo (unassigned_words true local (charted walk.now.graph) (declared walk.now.declaration) (uses_in walk.now.mine.now)) findings.old findings.new }
    ensures figure { result ≡ visits true (nodes_of walk.now.graph) (charted walk.now.graph) (declared walk.now.declaration) (uses_in walk.now.mine.now) }
    ensures stamped { Stamped (local + 1) search.new.marks.now }
{
    let walked = walk_local(walk, search, local as u16 + 1);
    push_found(findings, local, walked.first);
    walked.nodes
}

// The unassigned findings of all locals, in local order, and the mark figure of each. The marks are below stamp 1 before.
// The mark figures' column comes beside the findings, and its room is a clause: the list of overwritten values takes the findings alone.
pub fn list_unassigned(
    pass: &PassTables<'_>,
    search: &mut Search<'_>,
    findings: &mut FindingList<'_>,
    mark: &mut [u64],
)
    requires any_pass { AnyPass pass.now }
    requires unmarked { Unmarked 1 (nodes_of pass.now.graph) search.old.marks.now search.old.stack.now }
    requires room { (length pass.now.facts.now ≤ length mark.old) × Room (length pass.now.facts.now) findings.old.count findings.old.words.now }
    ensures same { SameColumns search.old search.new }
    ensures lists { ListsUnassigned pass.now findings.old findings.new mark.old mark.new }
    ensures few { findings.new.count ≤ findings.old.count + length pass.now.facts.now }
{
    // Figures by index: of a column that a zip of `iter_mut` writes a proof knows nothing behind the loop.
    for (local, name) in pass.facts.iter().enumerate() {
        let visited = if name.is_due() {
            let walk = LocalWalk {
                graph: pass.graph,
                mine: pass.uses.of(local),
                declaration: pass.names.of(local),
            };
            list_local(&walk, search, findings, local)
        } else {
            0
        };
        mark[local] = visited as u64;
    }
}
