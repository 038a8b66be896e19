//! Classes of equal numbers.

ghost use Rattle.std.specs.Prelude.{◌≡◌, ◌≢◌, ◌<◌, [], ◌∷◌, ◌++◌, length, map, IfOk, OnOk, OnErr};
ghost use Rattle.lk_classes.specs.Classes.{AreClasses, class_at, relabeled};

use crate::forest::{Link, Member, by_size, root_of};
use lk_ast::NoMemory;
use std::alloc::Global;
use std::marker::Model;

/// Which of the numbers 0, 1, .. are equal. Contracts see the name of each number's class, which is one of its members.
#[derive(Drop)]
pub struct Classes {
    members: Vec<Member>,
}

impl Model for Classes {
    ghost use Rattle.std.specs.Prelude.{List, ℕ};
    ghost use Rattle.lk_classes.specs.Forest.{IsForest, names_of};

    ghost Value = { List ℕ };

    ghost view = { λ classes. names_of classes.members.items };

    ghost invariant = { λ classes. IsForest classes.members.items (names_of classes.members.items) };
}

impl Classes {
    /// No number yet.
    pub fn new(alloc: Global) -> Classes
        ensures { result ≡ [] }
    {
        Classes {
            members: Vec::new(alloc),
        }
    }

    /// How many numbers there are.
    pub fn count(&self) -> usize
        ensures count { result ≡ length self.now }
        ensures classes { AreClasses (length self.now) self.now }
    {
        self.members.len()
    }

    /// Adds a number, in a class of its own that it names.
    pub fn add(&mut self) -> Result<usize, NoMemory>
        ensures number { IfOk result (λ number. number ≡ length self.old) }
        ensures ok { OnOk result (self.new ≡ self.old ++ length self.old ∷ []) }
        ensures err { OnErr result (self.new ≡ self.old) }
        ensures classes { AreClasses (length self.new) self.new }
    {
        let count = self.count();
        self.members.push(Member {
            size: 1,
            link: Link::Name(count),
        })?;
        Ok(count)
    }

    /// The name of a number's class.
    pub fn name_of(&self, i: usize) -> usize
        requires { i < length self.now }
        ensures name { result ≡ class_at self.now i }
        ensures classes { AreClasses (length self.now) self.now }
    {
        root_of(self.members.as_slice(), i).name
    }

    /// Makes two classes one. The name of the second is the name of both from then on.
    pub fn unite(&mut self, from: usize, to: usize)
        requires from_below { from < length self.old }
        requires to_below { to < length self.old }
        requires from_names { class_at self.old from ≡ from }
        requires to_names { class_at self.old to ≡ to }
        requires apart { from ≢ to }
        ensures names { self.new ≡ map (relabeled from to) self.old }
        ensures classes { AreClasses (length self.new) self.new }
    {
        let first = root_of(self.members.as_slice(), from);
        let second = root_of(self.members.as_slice(), to);
        let (below, above) = by_size(first, second);
        self.members[below.at] = Member {
            size: below.size,
            link: Link::Parent(above.at),
        };
        self.members[above.at] = Member {
            size: below.size + above.size,
            link: Link::Name(to),
        };
    }
}
