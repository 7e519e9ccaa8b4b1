// A lent sheet as its parts: both arrays start inside their sheet, word beside span. A sheet is taken apart once it is counted right, and
// what its verdict shows goes on with it as a type.
#![tactic(auto)]

ghost use Rattle.std.specs.Prelude.{◌≡◌, ◌≤◌, false, length, Ok};
ghost use Rattle.std.proofs.Props.{props};
ghost use Rattle.flow.specs.Sheet.{kind_words, span_words, outer_end, zip, items};
ghost use Rattle.flow.specs.Scopes.{use_sheet, bad_scopes};
ghost use Rattle.flow.specs.Refusals.{sheet_verdict};
ghost use Rattle.flow.specs.Admitted.{AdmittedUses};
ghost use Rattle.sheet_parts.specs.Parts.{Counted, first_array, second_array};

// Words that stand before a sheet's two arrays, and before a use sheet's.
pub const SHEET_HEAD: usize = 2;

pub const USE_HEAD: usize = 1;

// The items of a sheet, or the uses of a use sheet: a word and a span for each, in two arrays of one length.
#[derive(Clone, Copy)]
pub struct Items<'a> {
    pub words: &'a [u64],
    pub spans: &'a [u64],
    ghost paired: { length words.now ≡ length spans.now },
    ghost few: { length words.now ≤ 1024 },
}

// A sheet that is counted right, with so many words before its two arrays.
#[derive(Clone, Copy)]
pub struct CountedWords<'a, const HEAD: usize> {
    pub words: &'a [u64],
    ghost some_head: { (1 ≤ HEAD) × (HEAD ≤ 2) },
    ghost counted: { Counted HEAD words.now },
}

impl<'a, const HEAD: usize> CountedWords<'a, HEAD> {
    // Its two arrays.
    pub fn items(self) -> Items<'a>
        ensures words { result.words.now ≡ first_array HEAD self.entry.words.now }
        ensures spans { result.spans.now ≡ second_array HEAD self.entry.words.now }
        ensures items { zip result.words.now result.spans.now ≡ zip (first_array HEAD self.entry.words.now) (second_array HEAD self.entry.words.now) }
    {
        let end = HEAD + self.words[0] as usize;
        Items {
            words: &self.words[HEAD..end],
            spans: &self.words[end..],
        }
    }
}

// A sheet that is admitted.
#[derive(Clone, Copy)]
pub struct Sheet<'a> {
    pub words: &'a [u64],
    ghost admitted: { sheet_verdict false words.now ≡ Ok tt } by { Prim.hlevel props },
}

impl<'a> Sheet<'a> {
    // Kinds with their arguments, and spans.
    pub fn items(self) -> Items<'a>
        ensures words { result.words.now ≡ kind_words self.entry.words.now }
        ensures spans { result.spans.now ≡ span_words self.entry.words.now }
        ensures items { zip result.words.now result.spans.now ≡ items self.entry.words.now }
    {
        let counted: CountedWords<'a, SHEET_HEAD> = CountedWords { words: self.words };
        counted.items()
    }

    // Where the names of the outer block go out of scope.
    #[tactic(auto, using(crate::proofs::Parts::two_words))]
    pub fn scope_end(self) -> u64
        ensures { result ≡ outer_end self.entry.words.now }
    {
        self.words[1]
    }
}

// An admitted sheet and uses of its locals, which a lent use sheet has, or one with its crossings replaced.
#[derive(Clone, Copy)]
pub struct SheetPair<'a> {
    pub sheet: Sheet<'a>,
    pub uses: Items<'a>,
    ghost admitted: { AdmittedUses sheet.words.now (use_sheet uses.words.now uses.spans.now) },
}

// A pair with a scope sheet that fits it. One of 0 words is none.
#[derive(Clone, Copy)]
pub struct ScopedPair<'a> {
    pub pair: SheetPair<'a>,
    pub scopes: &'a [u64],
    ghost fit: { bad_scopes pair.sheet.words.now (use_sheet pair.uses.words.now pair.uses.spans.now) scopes.now ≡ false },
}
