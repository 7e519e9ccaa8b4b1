// The overwritten findings: values that a later write replaces on some path and no path reads (local_flow.rs).
#![tactic(auto)]

ghost use Rattle.std.specs.Prelude.{◌+◌, ◌≤◌, length};
ghost use Rattle.live_steps.specs.Walk.{nodes_of};
ghost use Rattle.locals.specs.Entries.{Room};
ghost use Rattle.next_uses.specs.Searches.{SameMarks};
ghost use Rattle.overwritten.specs.Pass.{AnyPass, AddsAll, Lent};

use facts::any_judged;
use local_values::JudgedLocal;
use locals::{FindingList, PassTables};
use next_uses::NextUses;
use predecessors::{Links, build_predecessors};

// The overwritten values of all locals added to the findings: per local the initial value, then the writes by node, use order within a node.
pub fn list_overwritten(
    pass: &PassTables<'_>,
    chain: &mut [Links],
    used: &mut [u16],
    marks: &mut NextUses<'_>,
    findings: &mut FindingList<'_>,
)
    requires any_pass { AnyPass pass.now }
    requires lent { Lent (nodes_of pass.now.graph) chain.old used.old marks.old.reads.now marks.old.writes.now marks.old.stack.now }
    requires room { Room (length pass.now.facts.now + 1024) findings.old.count findings.old.words.now }
    ensures same { SameMarks marks.old marks.new }
    ensures adds { AddsAll pass.now findings.old findings.new }
{
    if any_judged(pass.facts) {
        let chain = &mut chain[..pass.graph.edges.first.len()];
        build_predecessors(pass.graph.edges, chain);
        for (number, name) in pass.facts.iter().enumerate() {
            if name.is_judged() {
                let local = JudgedLocal {
                    number,
                    declaration: pass.names.of(number),
                    has_value: name.has_value,
                    uses: pass.uses.of(number),
                };
                local.list_values(pass.graph, chain, used, marks, findings);
            }
        }
    }
}
