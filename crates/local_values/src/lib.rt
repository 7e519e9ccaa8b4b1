// The overwritten values of one local: the marks of its next uses, its initial value, its writes (local_flow.rs).
#![tactic(auto)]

ghost use Rattle.std.specs.Prelude.{◌≡◌, ◌<◌};
ghost use Rattle.uses_by_node.specs.Uses.{Rising};

use live_steps::{FlowGraph, LocalDeclaration};
use locals::FindingList;
use next_uses::{NextUses, SearchBack, mark_used};
use predecessors::{Links, WayBack};
use use_words::PlacedUse;
use uses_by_node::AheadMarks;
use words::finding::{LOCAL, OVERWRITTEN, USE};

// A local whose values are judged: its number, its declaration, whether it has an initial value (a fact of the name, as `NameFacts` holds it), and its uses by node.
#[derive(Clone, Copy)]
pub struct JudgedLocal<'a> {
    pub number: usize,
    pub declaration: LocalDeclaration,
    pub has_value: bool,
    pub uses: &'a [PlacedUse],
    ghost few: { number < 1024 },
    ghost by_node: { Rising uses.now },
}

impl<'g> JudgedLocal<'g> {
    ghost use Rattle.std.specs.Prelude.{◌+◌, ◌*◌, ◌≤◌, length};
    ghost use Rattle.use_words.specs.Words.{uses_in, AllPlaced};
    ghost use Rattle.live_steps.specs.Walk.{nodes_in, nodes_of, charted, declared};
    ghost use Rattle.predecessors.specs.Predecessors.{Linked};
    ghost use Rattle.uses_by_node.specs.Uses.{edges_of};
    ghost use Rattle.uses_by_node.specs.Marks.{ahead_of};
    ghost use Rattle.next_uses.specs.Backwards.{AllUnmarked};
    ghost use Rattle.next_uses.specs.Searches.{SameMarks};
    ghost use Rattle.flow.specs.Locals.{finding_word};
    ghost use Rattle.locals.specs.Entries.{Room, AddsTo};
    ghost use Rattle.local_values.specs.Words.{initial_words, write_words, judged_words};

    // The word of a finding: of the initial value, with 0, or of the write with this use number + 1, as the lent word has it.
    fn word(&self, write: u64) -> u64
        requires { write ≤ 65536 }
        ensures { result ≡ finding_word 1 self.now.number write }
    {
        OVERWRITTEN + LOCAL * self.number as u64 + USE * write
    }

    // The initial value, set at the declaration's node, listed if the local has one that is overwritten.
    fn list_initial(&self, ahead: &AheadMarks<'_>, findings: &mut FindingList<'_>)
        requires { (self.now.declaration.node < nodes_in ahead.now.edges) × Room 1 findings.old.count findings.old.words.now }
        ensures adds { AddsTo (initial_words self.now.number self.now.has_value (edges_of ahead.now.edges) (ahead_of ahead.now) self.now.declaration.node) findings.old findings.new }
        ensures upper_bound { findings.new.count ≤ findings.old.count + 1 }
    {
        if self.has_value && ahead.is_overwritten_unread(self.declaration.node) {
            findings.push(self.word(0));
        }
    }

    // The overwritten writes listed, by node, in use order within a node.
    fn list_writes(&self, ahead: &AheadMarks<'_>, findings: &mut FindingList<'_>)
        requires placed { AllPlaced (nodes_in ahead.now.edges) self.now.uses.now }
        requires room { Room (length self.now.uses.now) findings.old.count findings.old.words.now }
        ensures adds { AddsTo (write_words self.now.number (edges_of ahead.now.edges) (ahead_of ahead.now) (uses_in self.now.uses.now)) findings.old findings.new }
        ensures upper_bound { findings.new.count ≤ findings.old.count + length self.now.uses.now }
    {
        for (i, write) in self.uses.iter().enumerate() {
            if ahead.is_overwritten(self.uses, i) {
                findings.push(self.word(u64::from(write.number) + 1));
            }
        }
    }

    // The marks of the local's next uses made, and its overwritten values listed. Its stamp is its number + 1.
    pub fn list_values(
        &self,
        graph: FlowGraph<'g>,
        chain: &'g [Links],
        used: &mut [u16],
        marks: &mut NextUses<'_>,
        findings: &mut FindingList<'_>,
    )
        requires linked { (length chain.now ≡ nodes_of graph) × Linked graph.edges.first.now graph.edges.second.now (nodes_of graph) (nodes_of graph) chain.now }
        requires placed { AllPlaced (nodes_of graph) self.now.uses.now × (self.now.declaration.node < nodes_of graph) }
        requires unmarked { AllUnmarked (self.now.number + 1) (nodes_of graph) used.old marks.old.reads.now marks.old.writes.now marks.old.stack.now }
        requires room { Room (1 + length self.now.uses.now) findings.old.count findings.old.words.now }
        ensures same { SameMarks marks.old marks.new }
        ensures adds { AddsTo (judged_words self.now.number self.now.has_value (charted graph.entry) (declared self.now.declaration) (uses_in self.now.uses.now)) findings.old findings.new }
        ensures upper_bound { findings.new.count ≤ findings.old.count + 1 + length self.now.uses.now }
        ensures unmarked_after { AllUnmarked (self.now.number + 2) (nodes_of graph.entry) used.new marks.new.reads.now marks.new.writes.now marks.new.stack.now }
    {
        let stamp = self.number as u16 + 1;
        mark_used(self.uses, used, stamp);
        let way = WayBack {
            chain,
            start: graph.start,
            declaration: self.declaration,
            used,
            stamp,
        };
        marks.mark(&SearchBack {
            way,
            uses: self.uses,
        });
        let ahead = marks.ahead(graph.edges, stamp);
        self.list_initial(&ahead, findings);
        self.list_writes(&ahead, findings);
    }
}
