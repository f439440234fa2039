//! Whether two dependencies are one and the same. O(their trees and bytes before the first that differs), down at most 64 groups,
//! without memory.
ghost use Rattle.std.specs.Prelude.{◌≡◌, true};
ghost use Rattle.gv_expr.specs.DepView.{dep_of};

use crate::{DepExpr, DepTree};

impl DepExpr {
    /// Whether both have the same trees.
    #[cycle(same)]
    pub fn is_same(&self, other: &DepExpr) -> bool
        ensures yes { result ≡ true → self.now ≡ other.now }
        ensures no { self.now ≡ other.now → result ≡ true }
    {
        let mut rest = other.items();
        for tree in &self.items {
            let [first, more @ ..] = rest else {
                return false;
            };
            if !tree.is_same(first) {
                return false;
            }
            rest = more;
        }
        rest.is_empty()
    }
}

impl DepTree {
    #[cycle(same)]
    fn is_same(&self, other: &DepTree) -> bool
        ensures yes { result ≡ true → dep_of self.now ≡ dep_of other.now }
        ensures no { dep_of self.now ≡ dep_of other.now → result ≡ true }
    {
        match (self, other) {
            (DepTree::Leaf { atom: a }, DepTree::Leaf { atom: b }) => a.is_same(b),
            (DepTree::All { items: a }, DepTree::All { items: b }) => a.is_same(b),
            (DepTree::Any { items: a }, DepTree::Any { items: b }) => a.is_same(b),
            (
                DepTree::If {
                    flag: f,
                    negated: m,
                    items: a,
                },
                DepTree::If {
                    flag: g,
                    negated: n,
                    items: b,
                },
            ) => *m == *n && f == g && a.is_same(b),
            _ => false,
        }
    }
}
