// What a record lists: masks of positions, and nodes.
ghost use Rattle.std.specs.Prelude.{◌≡◌, ◌^◌, Bool, List, ℕ, nat_lt, refl};
ghost use Rattle.records.specs.declared.limits.Limits.{Limits};
ghost use Rattle.records.specs.Parsing.{Got, next, check, got, fitting, mask, node};
ghost use Rattle.records.specs.NodeCodes.{node_means};

use crate::coded::Coded;
use crate::limits::Limits;
use crate::within::fits;
use graph::node::Ranked;

// An item is one that is read from its bytes, and has no bit that the limits do not allow.
pub(crate) trait Item: Coded {
    ghost parsed_within: { Limits → List ℕ → Got Self };

    ghost allowed: { Limits → Self → Bool };

    // Does every bit stand for something?
    fn is_allowed(self, limits: Limits) -> bool
        ensures { result ≡ allowed limits self };

    ghost means: { (l : Limits) (bs : List ℕ) → parsed_within l bs ≡ next (Self.parsed bs) (λ item r. check (allowed l item) (got item r)) };
}

// The mask of a position: bit k for signal k.
impl Item for u16 {
    ghost parsed_within = { mask };

    ghost allowed = { λ l m. nat_lt m (2 ^ l.signals) };

    ghost means = { λ l bs. refl };

    fn is_allowed(self, limits: Limits) -> bool {
        fits(self.into(), limits.signals)
    }
}

// A node with its rank.
impl Item for Ranked {
    ghost parsed_within = { node };

    ghost allowed = { λ l n. fitting l n.node };

    ghost means = { node_means };

    fn is_allowed(self, limits: Limits) -> bool {
        limits.allow(self.node)
    }
}
