// Who is below a namespace, for one search: the climbs of a tree to it, of which those that came there are remembered.
ghost use Rattle.std.specs.Prelude.{true, false, ◌≡◌, eqb, get_or, set};
ghost use Rattle.rules.specs.Read.{climb};
ghost use Rattle.table.specs.Tests.{◌and◌, when◌then◌else◌};
ghost use Rattle.tree.specs.Tree.{level_in};
ghost use Rattle.numbers.specs.Climbs.{up_in, below_in};

use std::marker::Model;
use table::{NAMESPACE_SLOTS, NsSlot, at, set_at};
use tree::Tree;

// ---- the marks: which are read and which are put, of which a contract of Climbs says nothing

// Whether a has its mark, and the steps are as many as its level. (In a sound table they are. In any other the mark
// says nothing about so many.)
fn is_known(tree: &Tree, known: &[bool; NAMESPACE_SLOTS], a: NsSlot, steps: u8) -> bool
    ensures { result ≡ (eqb (level_in tree.now.levels a.0) steps and get_or known.now a.0 false) }
{
    tree.level(a) == steps && at(known, a.0, false)
}

// Gives a its mark, where the steps are as many as its level.
fn mark(tree: &Tree, known: &mut [bool; NAMESPACE_SLOTS], a: NsSlot, steps: u8)
    ensures { known.new ≡ (when eqb (level_in tree.now.levels a.0) steps then set known.old a.0 true else known.old) }
{
    if tree.level(a) == steps {
        set_at(known, a.0, true);
    }
}

// ---- the climbs

// The climbs of a tree to the namespace n. A namespace with a mark in `known` comes there, in as many steps as its
// level, so that no two climbs go the same way. A contract sees the tree and n, and nothing of what is known.
#[derive(Drop)]
pub(crate) struct Climbs<'a> {
    tree: &'a Tree,
    n: NsSlot,
    known: [bool; NAMESPACE_SLOTS],
}

impl<'a> Model for Climbs<'a> {
    ghost use Rattle.std.specs.Prelude.{ℕ};
    ghost use Rattle.tree.specs.declared.Tree.{Tree};
    ghost use Rattle.numbers.specs.Climbs.{Known};

    ghost Value = { Tree × ℕ };

    ghost view = { λ c. (c.tree.now, c.n.0) };

    ghost invariant = { λ c. Known (c.tree.now, c.n.0) c.known };
}

impl<'a> Climbs<'a> {
    // Those to n. Nothing is known yet.
    pub(crate) fn new(tree: &'a Tree, n: NsSlot) -> Climbs<'a>
        ensures { result ≡ (tree.now, n.0) }
    {
        Climbs {
            tree,
            n,
            known: [false; NAMESPACE_SLOTS],
        }
    }

    // Whether a climb from a, with so many steps left, is known to come to n: a is n itself, or it has its mark.
    fn knows(&self, a: NsSlot, steps: u8) -> bool
        ensures { result ≡ true → climb (up_in self.now) steps a.0 self.now.1 ≡ true }
    {
        a == self.n || is_known(self.tree, &self.known, a, steps)
    }

    // Keeps for later climbs that this one comes to n.
    fn keep(&mut self, a: NsSlot, steps: u8)
        requires { climb (up_in self.old) steps a.0 self.old.1 ≡ true }
        ensures { self.new ≡ self.old }
    {
        mark(self.tree, &mut self.known, a, steps);
    }

    // Whether the climb from a comes to n, in so many steps at most. Most parents are known to, and need no call.
    fn comes(&mut self, a: NsSlot, steps: u8) -> bool
        ensures answer { result ≡ climb (up_in self.old) steps a.0 self.old.1 }
        ensures same { self.new ≡ self.old }
    {
        if a == self.n {
            return true;
        }
        if steps == 0 {
            return false;
        }
        let parent = self.tree.parent(a);
        let found = self.knows(parent, steps - 1) || self.comes(parent, steps - 1);
        if found {
            self.keep(a, steps);
        }
        found
    }

    // Whether a namespace is in the subtree of n, as `below` in a table says: the steps are as many as its level.
    pub(crate) fn is_below(&mut self, a: NsSlot) -> bool
        ensures answer { result ≡ below_in self.old a.0 }
        ensures same { self.new ≡ self.old }
    {
        let level = self.tree.level(a);
        self.knows(a, level) || self.comes(a, level)
    }
}
