// Runs: a lead-in, and a cycle that comes again and again.
ghost use Rattle.std.specs.Prelude.{◌≡◌, ◌+◌, ◌<◌, length};
ghost use Rattle.truth.specs.Passes.{PositionAt};

// The masks of the positions.
#[derive(Clone, Copy)]
pub(crate) struct Run<'a> {
    pub(crate) lead: &'a [u16],
    pub(crate) cycle: &'a [u16],
    ghost lasts: { 0 < length cycle.now },
}

impl Run<'_> {
    // How many positions there are.
    pub(crate) fn len(&self) -> usize
        ensures { result ≡ length self.now.lead.now + length self.now.cycle.now }
    {
        self.lead.len() + self.cycle.len()
    }

    // The position at time i.
    pub(crate) fn position(&self, i: usize) -> u16
        requires { i < length self.now.lead.now + length self.now.cycle.now }
        ensures { PositionAt self.now.lead.now self.now.cycle.now i result }
    {
        if i < self.lead.len() {
            self.lead[i]
        } else {
            self.cycle[i - self.lead.len()]
        }
    }
}
