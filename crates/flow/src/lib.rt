// The answers that the definitions of `specs/` and the calls share.
#![tactic(auto)]

ghost use Rattle.std.specs.Prelude.{◌≡◌, ◌≤◌};
ghost use Rattle.flow.specs.Refusals.{number};

// Why a call is refused, with the table's number of each.
#[derive(Clone, Copy)]
pub enum Refusal {
    BenchTooSmall = 1,
    Miscount = 2,
    BadItem = 3,
    TooDeep = 4,
    BadNesting = 5,
    OffTheLine = 6,
    BadName = 7,
    BadUse = 8,
    BadScope = 9,
}

impl From<Refusal> for u64 {
    ghost from_gives = { λ refusal n. (n ≡ number refusal) × (1 ≤ n) × (n ≤ 15) };

    fn from(refusal: Refusal) -> u64 {
        refusal as u64
    }
}

// How many entries a chart has: what chart answers.
#[derive(Clone, Copy)]
pub struct Counts {
    pub nodes: usize,
    pub codes: usize,
    pub names: usize,
}

// What run answers: the node of the offset's code, if there is one, and whether that code can run.
#[derive(Clone, Copy)]
pub struct Ran {
    pub node: Option<usize>,
    // Yes also where there is no node, so it is no flag beside the node.
    pub can_run: bool,
}

// What judge answers: a chart's counts, and the number of findings.
#[derive(Clone, Copy)]
pub struct Judgement {
    pub counts: Counts,
    pub findings: usize,
}
