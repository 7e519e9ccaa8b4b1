// Where the nodes of a loop stand, by the first of them: in a row, as they are made.
#![tactic(auto)]

ghost use Rattle.std.specs.Prelude.{◌≡◌, ◌+◌, ◌≤◌};

// Where BREAK and CONTINUE go.
#[derive(Clone, Copy)]
pub struct LoopTargets {
    pub break_target: usize,
    pub continue_target: usize,
}

// FOR's head, past its code.
pub fn for_head(code: usize) -> usize
    requires { code ≤ 1600 }
    ensures { result ≡ code + 1 }
{
    code + 1
}

// REPEAT's nodes: its body, its condition, and the node after it.
pub fn repeat_targets(body: usize) -> LoopTargets
    requires { body ≤ 1600 }
    ensures { result ≡ record { break_target = body + 2; continue_target = body + 1 } }
{
    LoopTargets {
        break_target: body + 2,
        continue_target: body + 1,
    }
}
