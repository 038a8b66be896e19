//! The trees of a forest, and the way up to a root.

ghost use Rattle.std.specs.Prelude.{◌≡◌, ◌<◌, ◌≤◌, ◌⊎◌, length};
ghost use Rattle.lk_classes.specs.Forest.{IsForest, IsRootOf, names_of};

/// What stands above a member.
#[derive(Clone, Copy)]
pub enum Link {
    /// Nothing: it is a root, and its class has this name.
    Name(usize),
    Parent(usize),
}

/// A member of a class.
#[derive(Clone, Copy)]
pub struct Member {
    /// How many members its class has, or had when it was put below another.
    pub size: usize,
    pub link: Link,
}

/// The root of a class.
#[derive(Clone, Copy)]
pub struct Root {
    pub at: usize,
    pub size: usize,
    pub name: usize,
}

/// The root with the smaller class, and then the other.
pub fn by_size(first: Root, second: Root) -> (Root, Root)
    ensures both { (result ≡ record { 0 = first; 1 = second }) ⊎ (result ≡ record { 0 = second; 1 = first }) }
    ensures ordered { result.0.size ≤ result.1.size }
{
    if first.size < second.size {
        (first, second)
    } else {
        (second, first)
    }
}

/// The root above a member.
pub fn root_of(members: &[Member], i: usize) -> Root
    requires below { i < length members.now }
    requires forest { IsForest members.now (names_of members.now) }
    ensures { IsRootOf members.now i result }
{
    let mut at = i;
    'up: loop {
        let member = members[at];
        match member.link {
            Link::Name(name) => {
                return Root {
                    at,
                    size: member.size,
                    name,
                };
            }
            Link::Parent(parent) => at = parent,
        }
    }
}
