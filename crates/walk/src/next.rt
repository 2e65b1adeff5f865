// The next branch of a walk.
ghost use Rattle.std.specs.Prelude.{◌≡◌, ℕ, ◌+◌, ◌^◌, ◌<◌, ◌≤◌, ◌++◌};
ghost use Rattle.arrayvec.specs.ArrayVec.{array_vec_len};
ghost use Rattle.graph.specs.Numbers.{choice_of};
ghost use Rattle.walk.specs.Outlines.{outlined};
ghost use Rattle.walk.specs.Walk.{from_pass, finish};
ghost use Rattle.walk.specs.Remain.{ends, remaining, work, first_of, Taken};

use crate::branches::Branches;
use crate::found::{Branch, Found, Pass, Step};
use graph::node::Node;
use graph::sets::has;

impl Branches<'_> {
    // Follows one pass to its end, and leaves what it passes by on the stack.
    fn descend(&mut self, pass: Pass) -> Option<Found>
        requires within { pass.line ≤ self.old.outline.now.len }
        requires room { array_vec_len self.old.stack + choice_of (outlined self.old.outline.now) pass.line ≤ 16 }
        ensures outline { self.new.outline.now ≡ self.old.outline.now }
        ensures node { self.new.node ≡ self.old.node }
        ensures list { first_of result (ends self.new) ≡ from_pass (outlined self.old.outline.now) pass ++ ends self.old }
        ensures work { work self.new < 2 ^ pass.line + work self.old }
    {
        let mut found = pass.found;
        for k in (0..pass.line).rev() {
            if has(found.seen, k) {
                match self.outline.at(k).step(found) {
                    Step::Dead => return None,
                    Step::One(f) => found = f,
                    Step::Two(f, g) => {
                        self.stack.push(Pass { line: k, found: g });
                        found = f;
                    }
                }
            }
        }
        Some(found)
    }

    fn finish(&self, found: Found) -> Branch
        ensures { result ≡ finish (outlined self.now.outline.now) self.now.node found }
    {
        let label = self.outline.put(found.next);
        let history = self.outline.history(self.node, found.later);
        Branch {
            on: found.on,
            off: found.off,
            successor: Node {
                label,
                marks: found.later,
                history,
            },
        }
    }

    // Hands out the next branch; `None` when all were handed out.
    pub fn next_branch(&mut self) -> Option<Branch>
        ensures { Taken result (remaining self.old) (remaining self.new) }
    {
        while let Some(pass) = self.stack.pop() {
            if let Some(found) = self.descend(pass) {
                return Some(self.finish(found));
            }
        }
        None
    }
}

// A walk can also be gone through as an iterator, once.
impl Iterator for Branches<'_> {
    ghost use Rattle.std.specs.Iterator.{YieldsFirst, item_count};
    ghost use Rattle.walk.specs.Remain.{remaining as left};

    type Item = Branch;

    ghost next_gives = { YieldsFirst left };

    ghost remaining = { item_count left };

    fn next(&mut self) -> Option<Branch> {
        self.next_branch()
    }
}
