// What the passes over locals ask of each name (local_flow.rs).
#![tactic(auto)]

ghost use Rattle.std.specs.Prelude.{◌≡◌, ◌&&◌, not};
ghost use Rattle.std.specs.List.{list_any};
ghost use Rattle.facts.specs.Facts.{judges_writes, tracks, dues, judges};

// Whether a name begins with underscore, is modified, is captured and has an initial value, and whether every use of it finds a node.
#[derive(Clone, Copy, Default)]
pub struct NameFacts {
    pub underscore: bool,
    pub modified: bool,
    pub captured: bool,
    pub has_value: bool,
    pub all_found: bool,
}

impl NameFacts {
    // Whether the local's writes are judged: it is modified and not captured.
    fn writes_judged(self) -> bool
        ensures { result ≡ judges_writes self }
    {
        self.modified && !self.captured
    }

    fn is_tracked(self) -> bool
        ensures { result ≡ tracks self }
    {
        !self.underscore && (!self.has_value || self.writes_judged())
    }

    // The walk of a local is due if it is tracked, no use of it is lost, and it has no value.
    pub fn is_due(self) -> bool
        ensures { result ≡ dues self }
    {
        self.is_tracked() && self.all_found && !self.has_value
    }

    // A local's values are judged if it is tracked, no use of it is lost, and it is modified and not captured.
    pub fn is_judged(self) -> bool
        ensures { result ≡ judges self }
    {
        self.is_tracked() && self.all_found && self.writes_judged()
    }
}

// Whether some local is tracked. Where none is, nothing is searched and no memory is needed for it. This and the next are one line of
// `any` each: one function over the test would be no shorter.
pub fn any_tracked(names: &[NameFacts]) -> bool
    ensures { result ≡ list_any tracks names.now }
{
    names.iter().any(|name| name.is_tracked())
}

// Whether the values of some local are judged. Where none are, nothing is searched back.
pub fn any_judged(names: &[NameFacts]) -> bool
    ensures { result ≡ list_any judges names.now }
{
    names.iter().any(|name| name.is_judged())
}
