// Lines appended to lent bytes.
#![tactic(auto)]

ghost use Rattle.std.specs.Prelude.{◌≡◌, ◌∷◌, ◌++◌};
ghost use Rattle.flow.specs.Listing;
ghost use Rattle.line_writer.specs.Output.{HasRoom, Appends};

use itoa::Buffer;

// Lent bytes, the first `len` of which are printed. No `fmt::Write`: what std promises of a `write!` has no word on when it succeeds, and a listing cannot fail.
// As FindingList over words: what is promised of either speaks of its own items, and a struct of both would lie in another.
#[derive(Drop)]
pub struct Output<'a> {
    pub bytes: &'a mut [u8],
    pub len: usize,
}

impl<'a> Output<'a> {
    // Nothing is printed yet.
    pub fn new(bytes: &'a mut [u8]) -> Output<'a>
        ensures same { result.bytes.ghost_name ≡ bytes.entry.ghost_name }
        ensures held { result.bytes.now ≡ bytes.old }
        ensures empty { result.len ≡ 0 }
    {
        Output { bytes, len: 0 }
    }

    fn push(&mut self, text: &[u8])
        requires { HasRoom text.now self.old }
        ensures same { self.new.bytes.ghost_name ≡ self.old.bytes.ghost_name }
        ensures appended { Appends text.now self.old self.new }
    {
        let end = self.len + text.len();
        let bytes = &mut *self.bytes;
        bytes[self.len..end].copy_from_slice(text);
        self.len = end;
    }

    // A number in decimal, with the space before it.
    fn push_number(&mut self, n: u64)
        requires { HasRoom (32 ∷ Listing.decimal n) self.old }
        ensures same { self.new.bytes.ghost_name ≡ self.old.bytes.ghost_name }
        ensures appended { Appends (32 ∷ Listing.decimal n) self.old self.new }
    {
        let mut digits = Buffer::new();
        self.push(b" ");
        self.push(digits.format(n).as_bytes());
    }

    // A line: its word and its numbers.
    pub fn line(&mut self, word: &[u8], values: &[u64])
        requires { HasRoom (word.now ++ Listing.numbers values.now) self.old }
        ensures same { self.new.bytes.ghost_name ≡ self.old.bytes.ghost_name }
        ensures appended { Appends (word.now ++ Listing.numbers values.now) self.old self.new }
    {
        self.push(word);
        for n in values {
            self.push_number(*n);
        }
        self.push(b"\n");
    }
}
