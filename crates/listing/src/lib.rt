// A file's bytes in, the printed lines out.
#![tactic(auto)]

ghost use Rattle.std.specs.Prelude.{◌≤◌, length};
ghost use Rattle.flow.specs.Listing;
ghost use Rattle.line_writer.specs.Output.{Printed};
ghost use Rattle.lines.specs.Report.{room_for_all};
ghost use Rattle.listing.specs.Listed.{listed};

use flow::Refusal;

// What a file's words print: the sheet ends where they say. The room stays a clause, as `lines::ROOM` says.
fn of_words(words: &[u64], output: &mut [u8]) -> usize
    requires { room_for_all ≤ length output.old }
    ensures { Printed (Listing.printed_words words.now) output.old output.new result }
{
    let end = file_words::sheet_end(words);
    pair_listing::of_sheets(&words[..end], &words[end..], output)
}

// What a file's bytes print.
fn of_bytes(input: &[u8], output: &mut [u8]) -> usize
    requires { room_for_all ≤ length output.old }
    ensures { Printed (Listing.printed input.now) output.old output.new result }
{
    if file_words::lost_or_spare(input) {
        return lines::refused(output, Refusal::Miscount);
    }
    // No heap: fixed memory for the longest input.
    let mut room = [0u64; file_words::WORDS];
    let words = &mut room[..input.len() / 8];
    file_words::read_words(input, words);
    of_words(words, output)
}

// What a file prints, in an output with room for all that can be printed; nothing in a shorter one. The result is how many bytes of the output that takes.
pub fn listing(input: &[u8], output: &mut [u8]) -> usize
    ensures { Printed (listed input.now output.old) output.old output.new result }
{
    let short = output.len() < lines::ROOM;
    if short {
        // A count of bytes: none is printed.
        return 0;
    }
    of_bytes(input, output)
}
