// What holds inside a block: "Break target, continue target and scope end return to their outer settings when a body closes". The form is
// prescribed, "Builder settings are a struct; methods taking mut self hand it back": so `enter_loop` sets fields, and `return_to` assigns the whole.
#![tactic(auto)]

ghost use Rattle.std.specs.Prelude.{◌≡◌};
ghost use Rattle.block_settings.specs.Settings.{scope_settings, loop_settings};

use loop_nodes::LoopTargets;

#[derive(Clone, Copy)]
pub struct BlockSettings {
    // How many labels are in force.
    pub labels: usize,
    pub scope_end: u64,
    pub break_target: usize,
    pub continue_target: usize,
}

impl BlockSettings {
    // Inside a scope that ends at scope_end.
    pub fn enter_scope(mut self, scope_end: u64) -> BlockSettings
        ensures { result ≡ scope_settings scope_end self }
    {
        self.scope_end = scope_end;
        self
    }

    // Inside a loop: where BREAK and CONTINUE go.
    pub fn enter_loop(mut self, targets: LoopTargets) -> BlockSettings
        ensures { result ≡ loop_settings targets.break_target targets.continue_target self }
    {
        self.break_target = targets.break_target;
        self.continue_target = targets.continue_target;
        self
    }

    // Outside again, with the labels in force there.
    pub fn return_to(mut self, outer: BlockSettings) -> BlockSettings
        ensures { result ≡ outer }
    {
        self = outer;
        self
    }
}
