// What a kind word says, asked here and nowhere else: whether an item is code, gives its node a start or is a label that has a name, whether its kind opens, closes or ends a block, what a condition is known to be and may turn out to be, and whether a call raises.
#![tactic(auto)]

ghost use Rattle.std.specs.Prelude.{◌≡◌, ℕ};
ghost use Rattle.flow.specs.Sheet.{kind_of};
ghost use Rattle.flow.specs.Kinds.{is_code, opens, closes, literal_truth, raises};
ghost use Rattle.kinds.specs.Ends.{ends_block};
ghost use Rattle.kinds.specs.Label.{is_label};
ghost use Rattle.kinds.specs.Numbers.{kind_number, Decoded};
ghost use Rattle.kinds.specs.Starts.{has_start};
ghost use Rattle.kinds.specs.Truths.{may_fail, may_hold};

use words::ARGUMENT;

// The conditions 0 and 1 are false, those up to 8 true, and no other is known. An enum of the nineteen would be asked this alone.
const LAST_FALSE: u64 = 1;

const LAST_TRUE: u64 = 8;

// The argument of a CALL that raises: of bare `error`, whose span holds a reference of that name.
const RAISES: u64 = 6;

// The kinds of the sheet's table, in the order of its numbers. EMPTY fills the places of an array of kinds that are not in use.
#[derive(Clone, Copy, PartialEq, Eq, Default)]
pub enum Kind {
    Do,
    While,
    Repeat,
    For,
    If,
    ElseIf,
    Else,
    End,
    Until,
    Local,
    Name,
    Label,
    Goto,
    Break,
    Continue,
    Return,
    Call,
    Plain,
    #[default]
    Empty,
}

impl Kind {
    // The kind of an item by its word, or none where its number is not one of the table. No TryFrom: an error would say no more than none.
    #[inline]
    pub fn of(word: u64) -> Option<Self>
        ensures { Decoded (kind_of word) result }
    {
        match word % ARGUMENT {
            1 => Some(Kind::Do),
            2 => Some(Kind::While),
            3 => Some(Kind::Repeat),
            4 => Some(Kind::For),
            5 => Some(Kind::If),
            6 => Some(Kind::ElseIf),
            7 => Some(Kind::Else),
            8 => Some(Kind::End),
            9 => Some(Kind::Until),
            10 => Some(Kind::Local),
            11 => Some(Kind::Name),
            12 => Some(Kind::Label),
            13 => Some(Kind::Goto),
            14 => Some(Kind::Break),
            15 => Some(Kind::Continue),
            16 => Some(Kind::Return),
            17 => Some(Kind::Call),
            18 => Some(Kind::Plain),
            19 => Some(Kind::Empty),
            _ => None,
        }
    }

    // One match each: a table of what a kind opens, closes and ends would be longer.
    pub fn is_opener(self) -> bool
        ensures { result ≡ opens (kind_number self) }
    {
        matches!(
            self,
            Kind::Do | Kind::While | Kind::Repeat | Kind::For | Kind::If
        )
    }

    pub fn is_closer(self) -> bool
        ensures { result ≡ closes (kind_number self) }
    {
        matches!(self, Kind::End | Kind::Until)
    }

    // Whether the block that an item of this kind stands behind ends there.
    pub fn ends_block(self) -> bool
        ensures { result ≡ ends_block (kind_number self) }
    {
        matches!(self, Kind::ElseIf | Kind::Else | Kind::End | Kind::Until)
    }
}

// Whether a number is that of a kind that opens a block, closes one, or ends the block that it stands behind. Numbers past the table do neither.
pub fn is_opener(kind: u64) -> bool
    ensures { result ≡ opens kind }
{
    kind < ARGUMENT && Kind::of(kind).is_some_and(Kind::is_opener)
}

pub fn is_closer(kind: u64) -> bool
    ensures { result ≡ closes kind }
{
    kind < ARGUMENT && Kind::of(kind).is_some_and(Kind::is_closer)
}

#[tactic(auto, using(std::proofs::lemmas::Bool::Decides::nat_tests))]
pub fn ends_block(kind: u64) -> bool
    ensures { result ≡ ends_block kind }
{
    kind < ARGUMENT && Kind::of(kind).is_some_and(Kind::ends_block)
}

// Whether an item is code, whatever its span: of the labels those that have a name.
#[tactic(auto, unfolding(flow::specs::Kinds::is_code))]
pub fn is_code(word: u64) -> bool
    ensures { (s : ℕ) → result ≡ is_code (record { word = word; span = s }) }
{
    match Kind::of(word) {
        Some(Kind::While | Kind::For | Kind::If | Kind::ElseIf | Kind::Until | Kind::Local) => true,
        Some(Kind::Goto | Kind::Break | Kind::Continue | Kind::Return | Kind::Call | Kind::Plain) =>
            true,
        Some(Kind::Label) => word / ARGUMENT != 0,
        _ => false,
    }
}

// Whether an item is a label that has a name.
pub fn is_label(w: u64) -> bool
    ensures { result ≡ is_label w }
{
    Kind::of(w) == Some(Kind::Label) && w / ARGUMENT != 0
}

// Whether a code gives its node a start, by its item's word: not where the item closes a block or is a label.
pub fn has_start(word: u64) -> bool
    ensures { result ≡ has_start word }
{
    !matches!(Kind::of(word), Some(Kind::End | Kind::Until | Kind::Label))
}

// Whether the block that an item stands behind ends there, by its word.
#[tactic(auto, using(std::proofs::lemmas::Bool::Decides::nat_tests))]
pub fn is_block_end(word: u64) -> bool
    ensures { result ≡ ends_block (kind_of word) }
{
    Kind::of(word).is_some_and(|kind| kind.ends_block())
}

// What a condition code is known to be.
pub fn literal_truth(condition: u64) -> Option<bool>
    ensures { result ≡ literal_truth condition }
{
    if condition <= LAST_FALSE {
        return Some(false);
    }
    if condition <= LAST_TRUE {
        return Some(true);
    }
    None
}

// Whether a condition may fail, and whether it may hold. One comparison each: a function of both would take the value that is compared with.
pub fn may_fail(truth: Option<bool>) -> bool
    ensures { result ≡ may_fail truth }
{
    truth != Some(true)
}

pub fn may_hold(truth: Option<bool>) -> bool
    ensures { result ≡ may_hold truth }
{
    truth != Some(false)
}

// Whether a call with this argument raises.
pub fn call_raises(argument: u64) -> bool
    ensures { result ≡ raises argument }
{
    argument == RAISES
}
