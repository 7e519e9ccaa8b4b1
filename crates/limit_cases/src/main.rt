// 01's bench pieces that are not starred: "1,024 items pass, 1,025 give 2; 64 nested DO pass, 65 give 4".
// Prints the number that each call gives for each, 0 where it passes.
#![tactic(auto)]

ghost use Rattle.std.specs.Prelude.{◌≤◌};

use chart::ChartMemory;
use findings::FoundMemory;
use flow::Refusal;
use numbers::number_of;
use std::io;
use words::limit::{DEPTH, ITEMS};
use words::{ARGUMENT, HALF, SCOPE_END};

// The words of items as a unit's code writes them: a DO, whose scope ends at 1,
const DO: u64 = 1 + ARGUMENT * SCOPE_END;

// its END,
const END: u64 = 8;

// and a PLAIN.
const PLAIN: u64 = 18;

// The words of a sheet with one item too many.
const WORDS: usize = 2 * (ITEMS + 1) + 2;

// What is printed for a no: each call prints a number, and no refusal has this one.
const NO: u64 = 99;

// The sheet of n PLAIN items, one after the other: n is what the sheet is to have, and no length of the room, which is lent whole.
fn plain_items(room: &mut [u64; WORDS], n: usize) -> &[u64]
    requires { n ≤ 1025 }
{
    let sheet = &mut room[..2 * n + 2];
    sheet[0] = n as u64;
    sheet[1] = n as u64;
    sheet[2..n + 2].fill(PLAIN);
    for (i, span) in sheet[n + 2..].iter_mut().enumerate() {
        let start = i as u64;
        *span = start + HALF * (start + 1);
    }
    sheet
}

// The sheet of a PLAIN item in as many DO as `depth` says, which is no length of the room. Only that item has a span of its own.
fn nested_do(room: &mut [u64; WORDS], depth: usize) -> &[u64]
    requires { depth ≤ 65 }
{
    let n = 2 * depth + 1;
    let sheet = &mut room[..2 * n + 2];
    sheet[0] = n as u64;
    sheet[1] = 1;
    sheet[2..depth + 2].fill(DO);
    sheet[depth + 2] = PLAIN;
    sheet[depth + 3..n + 2].fill(END);
    sheet[n + 2..].fill(0);
    sheet[n + depth + 2] = HALF;
    sheet
}

// No label stands in these pieces: a no would be printed as a number that no refusal has.
fn label_or_no(answer: Result<bool, Refusal>) -> u64 {
    match answer {
        Ok(false) => NO,
        _ => number_of(answer),
    }
}

fn chart(sheet: &[u64]) -> u64 {
    let mut memory = ChartMemory::filled(0);
    let mut chart = memory.lend();
    number_of(chart_call::chart(sheet, &mut chart))
}

// With no uses and no scope sheet.
fn judge(sheet: &[u64]) -> u64 {
    let uses = [0u64; 1];
    let scopes = [0u64; 0];
    let mut memory = ChartMemory::filled(0);
    let mut chart = memory.lend();
    let mut found_memory = FoundMemory::filled(0);
    let mut found = found_memory.lend();
    number_of(judge::judge(sheet, &uses, &scopes, &mut chart, &mut found))
}

fn tell(rt: &impl Print, what: &str, sheet: &[u64]) -> io::Result<()> {
    let chart = chart(sheet);
    let judge = judge(sheet);
    let run = number_of(run::run(sheet, 0));
    let label = label_or_no(label_call::label_check(sheet));
    println!(rt; "{what}: chart {chart}, judge {judge}, run {run}, label check {label}")
}

fn main(rt: HostRuntime) -> io::Result<()> {
    // No heap: fixed memory for the longest sheet.
    let mut room = [0u64; WORDS];
    tell(&rt, "1024 items", plain_items(&mut room, ITEMS))?;
    tell(&rt, "1025 items", plain_items(&mut room, ITEMS + 1))?;
    tell(&rt, "64 nested DO", nested_do(&mut room, DEPTH))?;
    tell(&rt, "65 nested DO", nested_do(&mut room, DEPTH + 1))
}
