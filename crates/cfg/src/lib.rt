// The builders of a sheet's graph: a block holds statements, and a statement holds blocks. They are functions, since methods would have to
// stand in the crate of the builder's steps. That the kinds are sane, and where in them a builder stands, is no fact of its type: its steps
// ask for neither, and a struct of this crate round it would stand between them.
#![tactic(auto)]

ghost use Rattle.std.specs.Prelude.{◌≡◌, true, false, ◌+◌, ◌≤◌, ◌<◌, length, get_or};
ghost use Rattle.flow.specs.Sheet.{kind_of};
ghost use Rattle.search.specs.Lent.{held, left};
ghost use Rattle.cfg_steps.specs.Columns.{cols, cols_at, place, columns, Kept, Keeps};
ghost use Rattle.cfg.specs.Steps.{Sane, ForSpans, Stepped, Opened, Finished, Scoped, Looped, Arm, ArmBetween, Between, Chosen, AtBlock, InBlock, AtStmt, PastHead, AtEnd, AtArm, Started, Wide, WholeRoom, Whole};

use block_settings::BlockSettings;
use cfg_steps::{GraphBuilder, LentGraph, SheetBuilder};
use if_builder::IfBuilder;
use kinds::{Kind, is_block_end, literal_truth};
use loop_nodes::{LoopTargets, repeat_targets};
use words::{ARGUMENT, NO_SUCCESSORS, SCOPE_END, exit};

// The place past the item that ends a block, if there is one.
fn past(at: usize, len: usize) -> usize
    requires { at ≤ len }
    ensures { (at ≤ result) × (result ≤ len) × (at < len → result ≡ at + 1) × (len ≤ at → result ≡ at) }
{
    if at < len { at + 1 } else { at }
}

// The statements from the builder's item on, up to the item that ends their block. Each says where the next begins: no index is counted.
#[cycle(arm_arms_block_for_loop_if_stmt_loop_body_repeat_loop_scoped_block_stmt_while_loop)]
fn block(b: &mut SheetBuilder<'_, '_>)
    requires { InBlock b.old.graph.now.kinds.now (place b.old.graph.now) }
    ensures kept { Keeps Kept b.old.graph b.new.graph }
    ensures built { ForSpans b.old.graph.now.kinds.now (λ ks ss. Between (Finished ks ss) b.old.graph b.new.graph) }
{
    while let Some(&word) = b.graph.kinds.get(b.graph.at.item) {
        if is_block_end(word) {
            return;
        }
        stmt(b);
    }
}

// A block whose scope ends at scope_end, with its own labels in force.
#[cycle(arm_arms_block_for_loop_if_stmt_loop_body_repeat_loop_scoped_block_stmt_while_loop)]
fn scoped_block(b: &mut SheetBuilder<'_, '_>, scope_end: u64)
    requires { AtBlock b.old.graph.now.kinds.now scope_end (place b.old.graph.now) }
    ensures kept { Keeps Kept b.old.graph b.new.graph }
    ensures built { ForSpans b.old.graph.now.kinds.now (λ ks ss. Between (Scoped ks ss scope_end) b.old.graph b.new.graph) }
{
    let outer = b.graph.at.settings;
    b.graph.at.settings = outer.enter_scope(scope_end);
    b.enter_block();
    block(b);
    b.graph.at.settings = b.graph.at.settings.return_to(outer);
}

// A loop's body: BREAK goes to its break target, CONTINUE and the body's end to its continue target.
#[cycle(arm_arms_block_for_loop_if_stmt_loop_body_repeat_loop_scoped_block_stmt_while_loop)]
fn loop_body(b: &mut SheetBuilder<'_, '_>, scope_end: u64, targets: LoopTargets)
    requires at_block { AtBlock b.old.graph.now.kinds.now scope_end (place b.old.graph.now) }
    requires break_target_lt_nodes { (targets.break_target < b.old.graph.now.at.nodes) × (targets.continue_target < b.old.graph.now.at.nodes) }
    ensures kept { Keeps Kept b.old.graph b.new.graph }
    ensures built { ForSpans b.old.graph.now.kinds.now (λ ks ss. Between (Looped ks ss scope_end targets.break_target targets.continue_target) b.old.graph b.new.graph) }
{
    let outer = b.graph.at.settings;
    b.graph.at.settings = outer.enter_loop(targets);
    scoped_block(b, scope_end);
    b.graph.close_into(targets.continue_target);
    b.graph.at.settings = b.graph.at.settings.return_to(outer);
}

// The WHILE of item i.
#[cycle(arm_arms_block_for_loop_if_stmt_loop_body_repeat_loop_scoped_block_stmt_while_loop)]
fn while_loop(b: &mut SheetBuilder<'_, '_>, i: usize)
    requires { PastHead b.old.graph.now.kinds.now i 2 (place b.old.graph.now) }
    ensures kept { Keeps Kept b.old.graph b.new.graph }
    ensures built { ForSpans b.old.graph.now.kinds.now (λ ks ss. Between (Opened ks ss i) b.old.graph b.new.graph) }
{
    let argument = b.graph.kinds[i] / ARGUMENT;
    let truth = literal_truth(argument % SCOPE_END);
    let head = b.graph.at.nodes;
    b.while_head(i, truth);
    let targets = LoopTargets {
        break_target: head + 1,
        continue_target: head,
    };
    loop_body(b, argument / SCOPE_END, targets);
    b.graph.at.item = past(b.graph.at.item, b.graph.kinds.len());
    b.loop_end(head, truth);
}

// The REPEAT of item i.
#[cycle(arm_arms_block_for_loop_if_stmt_loop_body_repeat_loop_scoped_block_stmt_while_loop)]
fn repeat_loop(b: &mut SheetBuilder<'_, '_>, i: usize)
    requires { PastHead b.old.graph.now.kinds.now i 3 (place b.old.graph.now) }
    ensures kept { Keeps Kept b.old.graph b.new.graph }
    ensures built { ForSpans b.old.graph.now.kinds.now (λ ks ss. Between (Opened ks ss i) b.old.graph b.new.graph) }
{
    let argument = b.graph.kinds[i] / ARGUMENT;
    let truth = literal_truth(argument % SCOPE_END);
    let body = b.graph.at.nodes;
    b.repeat_head();
    loop_body(b, argument / SCOPE_END, repeat_targets(body));
    let end = b.graph.at.item;
    b.graph.at.item = past(end, b.graph.kinds.len());
    b.repeat_end(end, body, truth);
}

// The FOR of item i.
#[cycle(arm_arms_block_for_loop_if_stmt_loop_body_repeat_loop_scoped_block_stmt_while_loop)]
fn for_loop(b: &mut SheetBuilder<'_, '_>, i: usize)
    requires { PastHead b.old.graph.now.kinds.now i 4 (place b.old.graph.now) }
    ensures kept { Keeps Kept b.old.graph b.new.graph }
    ensures built { ForSpans b.old.graph.now.kinds.now (λ ks ss. Between (Opened ks ss i) b.old.graph b.new.graph) }
{
    let scope_end = b.graph.kinds[i] / ARGUMENT / SCOPE_END;
    let head = b.graph.at.nodes + 1;
    b.for_head(i);
    let targets = LoopTargets {
        break_target: head + 1,
        continue_target: head,
    };
    loop_body(b, scope_end, targets);
    b.graph.at.item = past(b.graph.at.item, b.graph.kinds.len());
    b.loop_end(head, None);
}

// The IF of item i.
#[cycle(arm_arms_block_for_loop_if_stmt_loop_body_repeat_loop_scoped_block_stmt_while_loop)]
fn if_stmt(b: &mut SheetBuilder<'_, '_>, i: usize)
    requires { PastHead b.old.graph.now.kinds.now i 5 (place b.old.graph.now) }
    ensures kept { Keeps Kept b.old.graph b.new.graph }
    ensures built { ForSpans b.old.graph.now.kinds.now (λ ks ss. Between (Opened ks ss i) b.old.graph b.new.graph) }
{
    let scope_end = b.graph.kinds[i] / ARGUMENT / SCOPE_END;
    let test = b.graph.at.nodes;
    let join = test + 1;
    b.code_and_after(i);
    scoped_block(b, scope_end);
    b.graph.close_into(join);
    arms(b, test, join);
    b.graph.at.cursor = Some(join);
}

// Whether ELSEIF or ELSE stands at a place of the sheet.
fn arm_follows(kinds: &[u64], at: usize) -> bool
    ensures { (result ≡ true → (at < length kinds.now) × Arm (kind_of (get_or kinds.now at 0))) × (result ≡ false → at < length kinds.now → Arm (kind_of (get_or kinds.now at 0)) → ⊥) }
{
    let Some(&word) = kinds.get(at) else {
        return false;
    };
    matches!(Kind::of(word), Some(Kind::ElseIf | Kind::Else))
}

// The arms from the item that ends the block above on, and the last end. Without ELSE the last test goes on to the join.
// Each arm says where the next begins: no index is counted.
#[cycle(arm_arms_block_for_loop_if_stmt_loop_body_repeat_loop_scoped_block_stmt_while_loop)]
fn arms(b: &mut SheetBuilder<'_, '_>, test: usize, join: usize)
    requires at_end { AtEnd b.old.graph.now.kinds.now (place b.old.graph.now) }
    requires test_lt_nodes { (test < b.old.graph.now.at.nodes) × (join < b.old.graph.now.at.nodes) }
    ensures kept { Keeps Kept b.old.graph b.new.graph }
    ensures built { ForSpans b.old.graph.now.kinds.now (λ ks ss. Between (Chosen ks ss test join true) b.old.graph b.new.graph) }
{
    let mut s = IfBuilder { test, falls: true };
    while arm_follows(b.graph.kinds, b.graph.at.item) {
        arm(b, &mut s, join);
    }
    b.graph.at.item = past(b.graph.at.item, b.graph.kinds.len());
    b.arms_end(s.test, join, s.falls);
}

// One arm. ELSEIF brings a test of its own; past ELSE no test goes on to the join.
#[cycle(arm_arms_block_for_loop_if_stmt_loop_body_repeat_loop_scoped_block_stmt_while_loop)]
fn arm(b: &mut SheetBuilder<'_, '_>, s: &mut IfBuilder, join: usize)
    requires at_arm { AtArm b.old.graph.now.kinds.now (place b.old.graph.now) }
    requires test_lt_nodes { (s.old.test < b.old.graph.now.at.nodes) × (join < b.old.graph.now.at.nodes) }
    ensures kept { Keeps Kept b.old.graph b.new.graph }
    ensures built { (b.old.graph.now.at.item < b.new.graph.now.at.item) × ForSpans b.old.graph.now.kinds.now (λ ks ss. ArmBetween ks ss join s.old b.old.graph s.new b.new.graph) }
{
    let at = b.graph.at.item;
    let word = b.graph.kinds[at];
    let scope_end = word / ARGUMENT / SCOPE_END;
    b.graph.at.item = at + 1;
    if Kind::of(word) == Some(Kind::ElseIf) {
        let test = b.graph.at.nodes;
        b.arm_test(at, s.test);
        scoped_block(b, scope_end);
        b.graph.close_into(join);
        s.past_elseif(test);
    } else {
        b.graph.at.cursor = Some(s.test);
        scoped_block(b, scope_end);
        b.graph.close_into(join);
        s.past_else();
    }
}

// The statement at the builder's item.
#[cycle(arm_arms_block_for_loop_if_stmt_loop_body_repeat_loop_scoped_block_stmt_while_loop)]
fn stmt(b: &mut SheetBuilder<'_, '_>)
    requires { AtStmt b.old.graph.now.kinds.now (place b.old.graph.now) }
    ensures kept { Keeps Kept b.old.graph b.new.graph }
    ensures built { ForSpans b.old.graph.now.kinds.now (λ ks ss. Between (Stepped ks ss) b.old.graph b.new.graph) }
{
    let i = b.graph.at.item;
    let word = b.graph.kinds[i];
    b.graph.at.item = i + 1;
    match Kind::of(word) {
        Some(Kind::Do) => {
            scoped_block(b, word / ARGUMENT / SCOPE_END);
            b.graph.at.item = past(b.graph.at.item, b.graph.kinds.len());
        }
        Some(Kind::While) => while_loop(b, i),
        Some(Kind::Repeat) => repeat_loop(b, i),
        Some(Kind::For) => for_loop(b, i),
        Some(Kind::If) => if_stmt(b, i),
        _ => b.simple_stmt(word, i),
    }
}

// The exits and the entry, with no successor yet.
fn start_nodes(edges: &mut [u64])
    requires { 6 ≤ length edges.old }
    ensures { Started (held edges) (left edges) }
{
    edges[..exit::START_NODES].fill(NO_SUCCESSORS);
}

// The graph of a sheet's kinds, whatever the columns held before. These are lent one by one, as a chart's are in the calls for C.
pub fn of_block(
    kinds: &[u64],
    edges: &mut [u64],
    codes: &mut [u64],
    names: &mut [u64],
    labels: &mut [u64],
    scope_end: u64,
) -> GraphBuilder
    requires { Sane kinds.now × Wide (cols edges.old codes.old names.old labels.old) × (scope_end < 4294967296) × WholeRoom kinds.now }
    ensures { ForSpans kinds.now (λ ks ss. Whole ks ss scope_end (cols_at held edges codes names labels) result (cols_at left edges codes names labels)) }
{
    start_nodes(edges);
    let mut graph = LentGraph {
        kinds,
        edges,
        codes,
        names,
        labels,
        at: GraphBuilder {
            item: 0,
            nodes: exit::START_NODES,
            codes: 0,
            names: 0,
            cursor: Some(exit::ENTRY),
            settings: BlockSettings {
                labels: 0,
                scope_end: 0,
                break_target: exit::BREAK,
                continue_target: exit::END,
            },
        },
    };
    let mut b = SheetBuilder { graph: &mut graph };
    scoped_block(&mut b, scope_end);
    b.graph.close_into(exit::END);
    b.graph.at
}
