// What the builders do to a graph, one step each. While a graph is built, a word holds both successors of a node, a code's word its node and
// its item, a name's word its node, item and scope end, and a label's word its name and node.
#![tactic(auto)]

ghost use Rattle.std.specs.Prelude.{◌≡◌, true, false, cond, eqb, List, [], ◌∷◌, ℕ, ◌+◌, ◌%◌, ◌≤◌, ◌<◌, ◌^◌, length, get_or, set};
ghost use Rattle.std.proofs.Props.{props};
ghost use Rattle.flow.specs.Sheet.{kind_of};
ghost use Rattle.flow.specs.Graph.{new_node, advance_to, code, close_into, jump, record_code, declare, connect, set_current, enter_when, unless_true, label_node};
ghost use Rattle.cfg_edges.specs.Halves.{label_list};
ghost use Rattle.cfg_steps.specs.Columns.{place, columns, cursor_node, settings_of, Good, Standing, Does, DoesCode, DoesSimple, Enters, EntersBlock, LabelsRoom, StaysGood, LabelsFit, Keeps, EdgesOnly, CodesOnly, NamesOnly, EdgesAndCodes, EdgesAndLabels, LabelsKept, labelled, gone, repeat_end, simple_made};

use block_settings::BlockSettings;
use blocks::block_labels;
use cfg_edges::{connect, label_node};
use kinds::{Kind, call_raises, may_fail, may_hold};
use words::{ARGUMENT, HALF, NAME_ITEM, NAME_WITHOUT_NODE, NO_SUCCESSORS, exit};

// The numbers that a name's word has for a node.
const NAME_NODES: usize = NAME_ITEM as usize;

// The builder's place in the sheet, its counts, its current node and its settings.
#[derive(Clone, Copy)]
pub struct GraphBuilder {
    // The next item.
    pub item: usize,
    pub nodes: usize,
    pub codes: usize,
    pub names: usize,
    // The node that the next code takes an edge from, or none right after a jump.
    pub cursor: Option<usize>,
    pub settings: BlockSettings,
}

// A graph that is being built in lent columns: the sheet, the words so far, and the builder, which counts them.
// A column and its count stand apart. Tried as a struct of both: the borrow checker takes none as a field here.
#[derive(Drop)]
pub struct LentGraph<'a> {
    // The kind words of the sheet.
    pub kinds: &'a [u64],
    pub edges: &'a mut [u64],
    pub codes: &'a mut [u64],
    pub names: &'a mut [u64],
    pub labels: &'a mut [u64],
    pub at: GraphBuilder,
}

// The same in good columns: wide enough, and all that they hold are nodes and items that were read. It borrows the graph, since what lent
// columns end as is lost where the struct that holds them lies in another. LentGraph's own steps ask for a part of this each, so it is
// no fact of that type; nor does a type say of an item i that it was read and that its code is still to come.
#[derive(Drop)]
pub struct SheetBuilder<'b, 'a> {
    pub graph: &'b mut LentGraph<'a>,
    pub ghost good: { Good (place graph.now) (columns graph.now) } by { Prim.hlevel props },
}

// One word more at the end of a column.
fn push(column: &mut [u64], count: &mut usize, word: u64)
    requires { count.old < length column.old }
    ensures { (column.new ≡ set column.old count.old word) × (count.new ≡ count.old + 1) }
{
    column[*count] = word;
    *count += 1;
}

impl LentGraph<'_> {
    // A node with no successor.
    pub fn new_node(&mut self)
        requires { (self.old.at.nodes < length self.old.edges.now) × (self.old.at.nodes < 1600) }
        ensures kept { EdgesOnly self.old self.new }
        ensures built { (ks : List ℕ) → Does ks (λ ss. new_node) 1 self.old self.new }
        ensures good { StaysGood self.old self.new }
    {
        push(self.edges, &mut self.at.nodes, NO_SUCCESSORS);
    }

    // An edge to a node, which becomes current.
    pub fn advance_to(&mut self, node: usize)
        requires standing { Standing (place self.old) self.old.edges.now }
        requires node_lt_nodes { node < self.old.at.nodes }
        ensures kept { EdgesOnly self.old self.new }
        ensures built { (ks : List ℕ) → Does ks (λ ss. advance_to node) 0 self.old self.new }
        ensures good { StaysGood self.old self.new }
    {
        connect(self.edges, self.at.cursor, node);
        self.at.cursor = Some(node);
    }

    // An edge to a node, after which nothing is current.
    pub fn close_into(&mut self, target: usize)
        requires standing { Standing (place self.old) self.old.edges.now }
        requires target_lt_nodes { target < self.old.at.nodes }
        ensures kept { EdgesOnly self.old self.new }
        ensures built { (ks : List ℕ) → Does ks (λ ss. close_into target) 0 self.old self.new }
        ensures good { StaysGood self.old self.new }
    {
        connect(self.edges, self.at.cursor, target);
        self.at.cursor = None;
    }

    // An edge where it is wanted. A bool as in the definition, whose `cond` it is.
    fn connect_if(&mut self, from: usize, to: usize, wanted: bool)
        requires standing { Standing (place self.old) self.old.edges.now }
        requires from_lt_nodes { (from < self.old.at.nodes) × (to < self.old.at.nodes) }
        ensures kept { EdgesOnly self.old self.new }
        ensures built { (ks : List ℕ) → Does ks (λ ss g. cond wanted (connect from to g) g) 0 self.old self.new }
        ensures good { StaysGood self.old self.new }
    {
        connect(self.edges, wanted.then_some(from), to);
    }

    // The span of item i recorded at a node.
    pub fn record_code(&mut self, i: usize, node: usize)
        requires codes_in_bounds { (self.old.at.codes < length self.old.codes.now) × (self.old.at.codes < self.old.at.item) }
        requires i_lt_item { (i < self.old.at.item) × (node < self.old.at.nodes) × (self.old.at.nodes ≤ 1600) × (self.old.at.item ≤ 1024) }
        ensures kept { CodesOnly self.old self.new }
        ensures does_code { (ks : List ℕ) → DoesCode ks i false (λ s. record_code s node) 0 self.old self.new }
        ensures good { StaysGood self.old self.new }
        ensures nodes_value { (self.new.at.nodes ≡ self.old.at.nodes) × (self.new.at.cursor ≡ self.old.at.cursor) }
    {
        push(
            self.codes,
            &mut self.at.codes,
            node as u64 + i as u64 * HALF,
        );
    }

    // A new node for the code of item i, which becomes current. It pushes by itself: one law says all three steps, where the methods would be
    // three that follow each other.
    pub fn code(&mut self, i: usize)
        requires standing { Standing (place self.old) self.old.edges.now }
        requires nodes_in_bounds { (self.old.at.nodes < length self.old.edges.now) × (self.old.at.nodes < 1600) }
        requires codes_in_bounds { (self.old.at.codes < length self.old.codes.now) × (self.old.at.codes < self.old.at.item) × (i < self.old.at.item) × (self.old.at.item ≤ 1024) }
        ensures kept { EdgesAndCodes self.old self.new }
        ensures by_index { (ks : List ℕ) → DoesCode ks i true code 1 self.old self.new }
        ensures good { StaysGood self.old self.new }
        ensures standing_2 { Standing (place self.new) self.new.edges.now × (self.new.at.nodes ≡ self.old.at.nodes + 1) }
    {
        let node = self.at.nodes;
        push(
            self.codes,
            &mut self.at.codes,
            node as u64 + i as u64 * HALF,
        );
        push(self.edges, &mut self.at.nodes, NO_SUCCESSORS);
        connect(self.edges, self.at.cursor, node);
        self.at.cursor = Some(node);
    }

    // Code that goes on to a target.
    pub fn jump(&mut self, i: usize, target: usize)
        requires standing { Standing (place self.old) self.old.edges.now }
        requires nodes_in_bounds { (self.old.at.nodes < length self.old.edges.now) × (self.old.at.nodes < 1600) × (target < self.old.at.nodes) }
        requires codes_in_bounds { (self.old.at.codes < length self.old.codes.now) × (self.old.at.codes < self.old.at.item) × (i < self.old.at.item) × (self.old.at.item ≤ 1024) }
        ensures kept { EdgesAndCodes self.old self.new }
        ensures built { (ks : List ℕ) → DoesCode ks i true (λ s. jump s target) 1 self.old self.new }
        ensures good { StaysGood self.old self.new }
    {
        self.code(i);
        self.close_into(target);
    }

    // The name of item i, declared by the code that is current.
    pub fn declare(&mut self, i: usize)
        requires names_in_bounds { (self.old.at.names < length self.old.names.now) × (self.old.at.names < self.old.at.item) }
        requires i_lt_item { (i < self.old.at.item) × (self.old.at.settings.scope_end < 2 ^ 32) × (self.old.at.item ≤ 1024) }
        ensures kept { NamesOnly self.old self.new }
        ensures built { (ks : List ℕ) → Does ks (λ ss. declare (get_or ss i 0) (settings_of (place self.old) (columns self.old))) 0 self.old self.new }
        ensures good { StaysGood self.old self.new }
    {
        let node = node_in_name(self.at.cursor);
        let word = node + i as u64 * NAME_ITEM + self.at.settings.scope_end * HALF;
        push(self.names, &mut self.at.names, word);
    }

    // A label's node, and the label in force.
    fn new_label(&mut self, name: u64)
        requires labels_in_bounds { (self.old.at.settings.labels < length self.old.labels.now) × (name < 2 ^ 32) }
        requires nodes_in_bounds { (self.old.at.nodes < length self.old.edges.now) × (self.old.at.nodes < 1600) }
        ensures kept { EdgesAndLabels self.old self.new }
        ensures entered { (ks : List ℕ) → Enters ks (name ∷ []) self.old self.new }
        ensures good { StaysGood self.old self.new }
    {
        let word = name + self.at.nodes as u64 * HALF;
        push(self.labels, &mut self.at.settings.labels, word);
        push(self.edges, &mut self.at.nodes, NO_SUCCESSORS);
    }

    // The node of the innermost, then latest, label in force of a name.
    fn label_node(&self, name: u64) -> Option<usize>
        requires { self.now.at.settings.labels ≤ length self.now.labels.now }
        ensures { result ≡ label_node name (label_list self.now.at.settings.labels self.now.labels.now) }
    {
        label_node(&self.labels[..self.at.settings.labels], name)
    }
}

// The node of a name's word, or the number that stands there for none.
fn node_in_name(cursor: Option<usize>) -> u64
    ensures { result ≡ cursor_node cursor % 65536 }
{
    match cursor {
        Some(node) => (node % NAME_NODES) as u64,
        None => NAME_WITHOUT_NODE,
    }
}

impl SheetBuilder<'_, '_> {
    // Each named label standing directly in the block that starts at the builder's item gets a node, in order.
    pub fn enter_block(&mut self)
        requires item_in_bounds { (self.old.graph.now.at.item ≤ length self.old.graph.now.kinds.now) × (length self.old.graph.now.kinds.now ≤ 1024) × LabelsFit self.old.graph.now.kinds.now }
        requires room { LabelsRoom self.old.graph.now }
        ensures kept { Keeps EdgesAndLabels self.old.graph self.new.graph }
        ensures entered { EntersBlock self.old.graph.now self.new.graph.now }
    {
        for name in block_labels(self.graph.kinds, self.graph.at.item) {
            self.graph.new_label(name);
        }
    }
}

impl SheetBuilder<'_, '_> {
    // A label's span, at its node, which becomes current. Name 0 does nothing.
    fn label_stmt(&mut self, name: u64, i: usize)
        requires codes_lt_item { (self.old.graph.now.at.codes < self.old.graph.now.at.item) × (i < self.old.graph.now.at.item) }
        ensures kept { Keeps EdgesAndCodes self.old.graph self.new.graph }
        ensures built { (ks : List ℕ) → DoesCode ks i false (labelled name (label_list self.old.graph.now.at.settings.labels self.old.graph.now.labels.now)) 0 self.old.graph.now self.new.graph.now }
    {
        if name == 0 {
            return;
        }
        let Some(node) = self.graph.label_node(name) else {
            return;
        };
        self.graph.record_code(i, node);
        self.graph.advance_to(node);
    }

    // A jump to a label, or to the exit Break where none is visible.
    fn goto_stmt(&mut self, name: u64, i: usize)
        requires nodes_bound { (self.old.graph.now.at.nodes < 1600) × (self.old.graph.now.at.codes < self.old.graph.now.at.item) × (i < self.old.graph.now.at.item) }
        ensures kept { Keeps EdgesAndCodes self.old.graph self.new.graph }
        ensures built { (ks : List ℕ) → DoesCode ks i true (gone name (label_list self.old.graph.now.at.settings.labels self.old.graph.now.labels.now)) 1 self.old.graph.now self.new.graph.now }
    {
        let Some(node) = self.graph.label_node(name) else {
            return self.graph.jump(i, exit::BREAK);
        };
        self.graph.jump(i, node);
    }

    // A statement of the one item i, whose word is w.
    pub fn simple_stmt(&mut self, w: u64, i: usize)
        requires w_bound { self.old.graph.now.at.nodes + simple_made (kind_of w) ≤ 1600 }
        requires items_bound { (self.old.graph.now.at.codes < self.old.graph.now.at.item) × (self.old.graph.now.at.names < self.old.graph.now.at.item) × (i < self.old.graph.now.at.item) }
        requires no_close { (kind_of w ≡ 8 → ⊥) × (kind_of w ≡ 9 → ⊥) }
        ensures kept { Keeps LabelsKept self.old.graph self.new.graph }
        ensures built { (ks : List ℕ) → DoesSimple ks i w self.old.graph.now self.new.graph.now }
    {
        let argument = w / ARGUMENT;
        match Kind::of(w) {
            Some(Kind::Name) => self.graph.declare(i),
            Some(Kind::Label) => self.label_stmt(argument, i),
            Some(Kind::Goto) => self.goto_stmt(argument, i),
            Some(Kind::Empty) => {}
            Some(Kind::Break) => {
                let target = self.graph.at.settings.break_target;
                self.graph.jump(i, target);
            }
            Some(Kind::Continue) => {
                let target = self.graph.at.settings.continue_target;
                self.graph.jump(i, target);
            }
            Some(Kind::Return) => self.graph.jump(i, return_exit(argument)),
            Some(Kind::Call) if call_raises(argument) => self.graph.jump(i, exit::ERROR),
            _ => self.graph.code(i),
        }
    }
}

// The exit of a RETURN: with values, or without.
fn return_exit(argument: u64) -> usize
    ensures { (result ≡ cond (eqb argument 1) 2 3) × (result < 6) }
{
    if argument == 1 {
        return exit::RETURN_VALUE;
    }
    exit::RETURN_EMPTY
}

impl SheetBuilder<'_, '_> {
    // A code node, and a node past what it opens.
    pub fn code_and_after(&mut self, i: usize)
        requires nodes_bound { (self.old.graph.now.at.nodes + 2 ≤ 1600) × (self.old.graph.now.at.codes < self.old.graph.now.at.item) × (i < self.old.graph.now.at.item) }
        ensures kept { Keeps EdgesAndCodes self.old.graph self.new.graph }
        ensures built { (ks : List ℕ) → DoesCode ks i true (λ s g. new_node (code s g)) 2 self.old.graph.now self.new.graph.now }
    {
        self.graph.code(i);
        self.graph.new_node();
    }

    // WHILE's head and the node after it; a false condition enters the body with nothing current.
    pub fn while_head(&mut self, i: usize, truth: Option<bool>)
        requires nodes_bound { (self.old.graph.now.at.nodes + 2 ≤ 1600) × (self.old.graph.now.at.codes < self.old.graph.now.at.item) × (i < self.old.graph.now.at.item) }
        ensures kept { Keeps EdgesAndCodes self.old.graph self.new.graph }
        ensures built { (ks : List ℕ) → DoesCode ks i true (λ s g. enter_when truth (new_node (code s g))) 2 self.old.graph.now self.new.graph.now }
    {
        self.code_and_after(i);
        if !may_hold(truth) {
            self.graph.at.cursor = None;
        }
    }

    // REPEAT's nodes: its body, its condition, and the node after it; the body is moved to.
    pub fn repeat_head(&mut self)
        requires nodes_bound { self.old.graph.now.at.nodes + 3 ≤ 1600 }
        ensures kept { Keeps EdgesOnly self.old.graph self.new.graph }
        ensures built { (ks : List ℕ) → Does ks (λ ss g. advance_to self.old.graph.now.at.nodes (new_node (new_node (new_node g)))) 3 self.old.graph.now self.new.graph.now }
    {
        let body = self.graph.at.nodes;
        self.graph.new_node();
        self.graph.new_node();
        self.graph.new_node();
        self.graph.advance_to(body);
    }

    // FOR's code, its head, which is moved to, and the node after it.
    pub fn for_head(&mut self, i: usize)
        requires nodes_bound { (self.old.graph.now.at.nodes + 3 ≤ 1600) × (self.old.graph.now.at.codes < self.old.graph.now.at.item) × (i < self.old.graph.now.at.item) }
        ensures kept { Keeps EdgesAndCodes self.old.graph self.new.graph }
        ensures built { (ks : List ℕ) → DoesCode ks i true (λ s g. new_node (advance_to (self.old.graph.now.at.nodes + 1) (new_node (code s g)))) 3 self.old.graph.now self.new.graph.now }
    {
        let head = loop_nodes::for_head(self.graph.at.nodes);
        self.code_and_after(i);
        self.graph.advance_to(head);
        self.graph.new_node();
    }

    // Past a loop: its head goes on to the node after it where the condition may fail, and that is current.
    pub fn loop_end(&mut self, head: usize, truth: Option<bool>)
        requires head_bound { head + 1 < self.old.graph.now.at.nodes }
        ensures kept { Keeps EdgesOnly self.old.graph self.new.graph }
        ensures built { (ks : List ℕ) → Does ks (λ ss g. set_current (head + 1) (unless_true truth (connect head (head + 1)) g)) 0 self.old.graph.now self.new.graph.now }
    {
        let after = head + 1;
        self.graph.connect_if(head, after, may_fail(truth));
        self.graph.at.cursor = Some(after);
    }

    // Past a REPEAT: the span of item j at its condition, which goes back to the body and on to the node after.
    pub fn repeat_end(&mut self, j: usize, body: usize, truth: Option<bool>)
        requires body_bound { (body + 2 < self.old.graph.now.at.nodes) × (self.old.graph.now.at.codes < self.old.graph.now.at.item) × (j < self.old.graph.now.at.item) }
        ensures kept { Keeps EdgesAndCodes self.old.graph self.new.graph }
        ensures built { (ks : List ℕ) → DoesCode ks j false (repeat_end truth body) 0 self.old.graph.now self.new.graph.now }
    {
        let condition = body + 1;
        let after = body + 2;
        self.graph.record_code(j, condition);
        self.graph.connect_if(condition, body, may_fail(truth));
        self.graph.connect_if(condition, after, may_hold(truth));
        self.graph.at.cursor = Some(after);
    }

    // ELSEIF's test, the code of item i, reached from the test before.
    pub fn arm_test(&mut self, i: usize, test: usize)
        requires nodes_bound { (self.old.graph.now.at.nodes < 1600) × (self.old.graph.now.at.codes < self.old.graph.now.at.item) × (i < self.old.graph.now.at.item) × (test < self.old.graph.now.at.nodes) }
        ensures kept { Keeps EdgesAndCodes self.old.graph self.new.graph }
        ensures built { (ks : List ℕ) → DoesCode ks i true (λ s g. code s (set_current test g)) 1 self.old.graph.now self.new.graph.now }
    {
        self.graph.at.cursor = Some(test);
        self.graph.code(i);
    }

    // Past all arms: where there is no ELSE, the last test goes on to the join. The two come apart, as IfBuilder holds them.
    pub fn arms_end(&mut self, test: usize, join: usize, falls: bool)
        requires test_lt_nodes { (test < self.old.graph.now.at.nodes) × (join < self.old.graph.now.at.nodes) }
        ensures kept { Keeps EdgesOnly self.old.graph self.new.graph }
        ensures built { (ks : List ℕ) → Does ks (λ ss g. cond falls (connect test join g) g) 0 self.old.graph.now self.new.graph.now }
    {
        self.graph.connect_if(test, join, falls);
    }
}
