// The words of a built graph's codes, taken apart in place into the columns of its chart: the nodes and spans of codes, and the starts of nodes.
#![tactic(auto)]

ghost use Rattle.std.specs.Prelude.{◌≡◌, [], ◌∷◌, map, ℕ, ◌<◌, length, get_or, replicate};
ghost use Rattle.cfg_edges.specs.Halves.{lo, hi};
ghost use Rattle.cfg_steps.specs.Columns.{painted};
ghost use Rattle.code_columns.specs.Words.{CodeWithin};

use kinds::has_start;
use words::HALF;

// The code of a word starts its node, if its item's kind gives a start.
fn set_start(kinds: &[u64], spans: &[u64], word: u64, start: &mut [u64])
    requires { CodeWithin (length start.old) kinds.now spans.now word }
    ensures { start.new ≡ painted kinds.now spans.now (word ∷ []) start.old }
{
    let item = (word / HALF) as usize;
    if has_start(kinds[item]) {
        start[(word % HALF) as usize] = spans[item] % HALF;
    }
}

// The nodes and spans of the codes, whose words stand in `code_node`, and the code starts of the nodes, 0 where no code gives one.
pub fn split_codes(
    kinds: &[u64],
    spans: &[u64],
    code_node: &mut [u64],
    code_span: &mut [u64],
    start: &mut [u64],
)
    requires same_length { length code_span.old ≡ length code_node.old }
    requires by_index { (k : ℕ) → k < length code_node.old → CodeWithin (length start.old) kinds.now spans.now (get_or code_node.old k 0) }
    ensures code_node_after { code_node.new ≡ map lo code_node.old }
    ensures code_span_after { code_span.new ≡ map (λ c. get_or spans.now (hi c) 0) code_node.old }
    ensures start_after { start.new ≡ painted kinds.now spans.now code_node.old (replicate (length start.old) 0) }
{
    start.fill(0);
    // By index. Tried with a zip of `iter_mut`: a proof knows nothing of the columns behind the loop.
    for (k, word) in code_node.iter_mut().enumerate() {
        let code = *word;
        set_start(kinds, spans, code, start);
        *word = code % HALF;
        code_span[k] = spans[(code / HALF) as usize];
    }
}
