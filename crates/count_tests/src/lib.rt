// Refusal 2: "fewer than 2 words (use sheet: 1), n or m above 1,024, or length not 2n + 2 (2m + 1)".
#![tactic(auto)]

ghost use Rattle.std.specs.Prelude.{◌≡◌, ◌≤◌, IfOk, [], ◌∷◌};
ghost use Rattle.flow.specs.Refusals.{miscount, first_applying};
ghost use Rattle.sheet_parts.specs.Sheets.{verdict_of};

use flow::Refusal;
use sheet_parts::CountedWords;
use words::limit;

// The most items or uses.
const ITEMS: u64 = limit::ITEMS as u64;

// A sheet with `head` words before its two arrays. The limit on n comes first, so that the product cannot wrap.
#[tactic(auto, using(std::proofs::lemmas::Bool::Decides::nat_tests), unfolding(flow::specs::Refusals::miscount))]
pub fn miscounted(words: &[u64], head: usize) -> bool
    requires { (1 ≤ head) × (head ≤ 2) }
    ensures { result ≡ miscount head words.now }
{
    words.len() < head || words[0] > ITEMS || words.len() != 2 * words[0] as usize + head
}

// A sheet that is counted right, with HEAD words before its two arrays, or the refusal.
#[tactic(auto, using(sheet_parts::proofs::Parts::counted), unfolding(flow::specs::Refusals::first_applying))]
pub fn counted<'a, const HEAD: usize>(words: &'a [u64]) -> Result<CountedWords<'a, HEAD>, Refusal>
    requires { (1 ≤ HEAD) × (HEAD ≤ 2) }
    ensures verdict { verdict_of result ≡ first_applying ((Refusal.Miscount, miscount HEAD words.now) ∷ []) }
    ensures same { IfOk result (λ s. s.words.now ≡ words.now) }
{
    if miscounted(words, HEAD) {
        return Err(Refusal::Miscount);
    }
    Ok(CountedWords { words })
}
