// A sheet and a use sheet in, the printed lines out.
#![tactic(auto)]

ghost use Rattle.std.specs.Prelude.{◌≤◌, length};
ghost use Rattle.flow.specs.Listing.{sheets_print};
ghost use Rattle.line_writer.specs.Output.{Printed};
ghost use Rattle.lines.specs.Report.{room_for_all};

use chart::ChartMemory;
use findings::FoundMemory;

// What a sheet and a use sheet print. The room stays a clause, as `lines::ROOM` says.
pub fn of_sheets(sheet: &[u64], uses: &[u64], output: &mut [u8]) -> usize
    requires { room_for_all ≤ length output.old }
    ensures { Printed (sheets_print sheet.now uses.now) output.old output.new result }
{
    // The program takes no scope sheet.
    let scopes = [0u64; 0];
    let mut memory = ChartMemory::filled(0);
    let mut chart = memory.lend();
    let mut found_memory = FoundMemory::filled(0);
    let mut found = found_memory.lend();
    let answer = judge::judge(sheet, uses, &scopes, &mut chart, &mut found);
    let reachable = chart.reachable;
    let words = found.word;
    let spans = found.span;
    lines::answered(output, answer, reachable, words, spans)
}
