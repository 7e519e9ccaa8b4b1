// An IF between two of its arms.
#![tactic(auto)]

ghost use Rattle.std.specs.Prelude.{◌≡◌, false};

// Its last test, and whether that test goes on to the join past all arms. Not an Option: an ELSEIF comes from the test past an ELSE, too.
#[derive(Clone, Copy)]
pub struct IfBuilder {
    pub test: usize,
    pub falls: bool,
}

impl IfBuilder {
    // Past an ELSEIF, whose test is the last one now.
    pub fn past_elseif(&mut self, test: usize)
        ensures { self.new ≡ record { test = test; falls = self.old.falls } }
    {
        self.test = test;
    }

    // Past ELSE: no test goes on to the join.
    pub fn past_else(&mut self)
        ensures { self.new ≡ record { test = self.old.test; falls = false } }
    {
        self.falls = false;
    }
}
