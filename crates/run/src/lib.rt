// The call run of document 01: it takes any sheet and any offset, and answers as its definition does.
#![tactic(auto)]

ghost use Rattle.run.specs.Promises.{RunPromise};

use chart::{ChartMemory, WideChart};
use chart_run::run_in;
use flow::{Ran, Refusal};

// The node of an offset, if there is one, and whether its code can run.
pub fn run(sheet: &[u64], offset: u32) -> Result<Ran, Refusal>
    ensures { RunPromise sheet.now offset result }
{
    let sheet = admission::admit_sheet(false, sheet)?;
    let mut memory = ChartMemory::filled(0);
    let mut columns = memory.lend();
    let chart = WideChart {
        columns: &mut columns,
    };
    Ok(run_in(sheet, offset, chart))
}
