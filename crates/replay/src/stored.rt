// What a case stores of the calls' answers, behind its sheet and its uses: chart's number, judge's and the label check's.
// Where chart's is 0 there follow three counts, the cells of the nodes, codes and names, the runs, and the findings.

// What each lent cell holds before the call.
pub const OLD: u64 = 7;

// The words of a case that are not read yet.
#[derive(Clone, Copy)]
pub struct Rest<'a> {
    words: &'a [u64],
}

impl<'a> Rest<'a> {
    pub fn new(words: &'a [u64]) -> Rest<'a> {
        Rest { words }
    }

    pub fn is_empty(self) -> bool {
        self.words.is_empty()
    }

    pub fn word(&mut self) -> Option<u64> {
        let (word, words) = self.words.split_first()?;
        self.words = words;
        Some(*word)
    }

    // The next n words.
    fn words(&mut self, n: u64) -> Option<&'a [u64]> {
        let (front, words) = self.words.split_at_checked(usize::try_from(n).ok()?)?;
        self.words = words;
        Some(front)
    }

    // A number of entries, and so many times k words.
    pub fn list(&mut self, k: u64) -> Option<&'a [u64]> {
        let n = self.word()?;
        self.words(n.checked_mul(k)?)
    }

    // Passes over k columns of n cells.
    fn pass(&mut self, k: u64, n: u64) -> Option<()> {
        self.words(n.checked_mul(k)?)?;
        Some(())
    }

    // Passes over the cells of a chart's nodes, codes and names.
    pub fn pass_cells(&mut self, chart: Stored) -> Option<()> {
        self.pass(4, chart.nodes)?;
        self.pass(2, chart.codes)?;
        self.pass(3, chart.names)
    }

    // Whether a column holds the next n words, and nothing new behind them.
    pub fn are_in(&mut self, column: &[u64], n: u64) -> bool {
        match self.words(n) {
            Some(cells) => is_column(column, cells),
            None => false,
        }
    }
}

fn is_column(column: &[u64], cells: &[u64]) -> bool {
    match column.strip_prefix(cells) {
        Some(behind) => behind.iter().all(|cell| *cell == OLD),
        None => false,
    }
}

// An answer's number, and how many entries of each sort the chart has: none beside a refusal. 0 is the file's number of an accepted call,
// whose stored word has no room for an Option.
#[derive(Clone, Copy)]
pub struct Stored {
    pub number: u64,
    pub nodes: u64,
    pub codes: u64,
    pub names: u64,
}

impl Stored {
    // What is stored beside a number, and the words that follow it: of a refusal none.
    pub fn read<'a>(number: u64, rest: Rest<'a>) -> Option<(Stored, Rest<'a>)> {
        if number != 0 {
            let none = Stored {
                number,
                nodes: 0,
                codes: 0,
                names: 0,
            };
            return Some((none, Rest::new(&[])));
        }
        let mut rest = rest;
        let nodes = rest.word()?;
        let codes = rest.word()?;
        let names = rest.word()?;
        Some((
            Stored {
                number,
                nodes,
                codes,
                names,
            },
            rest,
        ))
    }
}
