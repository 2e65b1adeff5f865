// Writing the records of runs and of graphs.
ghost use Rattle.std.specs.Prelude.{◌+◌, ◌*◌, ◌≤◌, length};
ghost use Rattle.records.specs.Appending.{Room, Wrote, opening};
ghost use Rattle.records.specs.Claims.{Claim, Counts, laid};

use crate::kind::Kind;
use crate::writer::Writer;
use graph::node::Ranked;

impl Writer<'_> {
    // How the record of a run begins: its map, and its lead-in where it has one.
    fn opening(&mut self, lead: &[u16])
        requires few { length lead.now ≤ 1023 }
        requires room { Room self.old (3 + 2 * length lead.now) }
        ensures { Wrote self.old self.new (opening lead.now) }
    {
        if lead.is_empty() {
            self.byte(Kind::Cycle.into());
        } else {
            self.byte(Kind::LeadAndCycle.into());
            self.list(lead);
        }
    }

    // The record of a run.
    pub(crate) fn run(&mut self, lead: &[u16], cycle: &[u16])
        requires counts { Counts (Claim.run lead.now cycle.now) }
        requires room { Room self.old 4099 }
        ensures { Wrote self.old self.new (laid (Claim.run lead.now cycle.now)) }
    {
        self.opening(lead);
        self.list(cycle);
    }

    // The record of a graph.
    pub(crate) fn graph(&mut self, nodes: &[Ranked])
        requires counts { Counts (Claim.graph nodes.now) }
        requires room { Room self.old 23555 }
        ensures { Wrote self.old self.new (laid (Claim.graph nodes.now)) }
    {
        self.byte(Kind::Graph.into());
        self.list(nodes);
    }
}
