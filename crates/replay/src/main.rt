// Replays the stored answers of data/ and says how many cases differ.
#![tactic(auto)]

use case::Fault;
use std::fs::File;
use std::io;

mod case;
mod chart_cells;
mod finding_cells;
mod reader;
mod runs;
mod stored;

#[derive(Drop)]
struct Tally {
    cases: u64,
    differ: u64,
}

// An unread case counts as differing too: no case may pass unseen. After one nothing says where the next one starts.
// A proved loop has to end, and nothing says that a file does: the count of cases is the bound.
fn replay_cases(rt: &impl Print, file: &mut File, name: &str) -> io::Result<Tally> {
    let mut tally = Tally {
        cases: 0,
        differ: 0,
    };
    for case in 1..u64::MAX {
        let Some(outcome) = reader::next(file)? else {
            break;
        };
        tally.cases = case;
        if let Err(fault) = outcome {
            if tally.differ < 10 {
                println!(rt; "{name} case {case}: {fault}")?;
            }
            tally.differ += 1;
            if fault == Fault::Unread {
                break;
            }
        }
    }
    Ok(tally)
}

// A file that cannot be opened is told on the standard error, and the next one comes.
fn replay(rt: &HostRuntime, name: &str) -> io::Result<()> {
    match File::open(rt, name) {
        Ok(mut file) => {
            let tally = replay_cases(rt, &mut file, name)?;
            let cases = tally.cases;
            let differ = tally.differ;
            println!(rt; "{name}: {cases} cases, {differ} differ")
        }
        Err(e) => eprintln!(rt; "{name}: {e}"),
    }
}

fn main(rt: HostRuntime) -> io::Result<()> {
    replay(&rt, "pieces.bin")?;
    replay(&rt, "small.bin")?;
    replay(&rt, "large.bin")
}
