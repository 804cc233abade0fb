//! The rings of a graph.

ghost use Rattle.std.specs.Prelude.{◌≡◌, ◌≢◌, ◌↔◌, ◌<◌, ◌≤◌, ◌^◌, ◌++◌, ◌∷◌, [], ℕ, true};
ghost use Rattle.std.specs.Prelude.{List, length, fold, slice_get, slice_set, slice_index_or};
ghost use Rattle.std.specs.Prelude.{Some, IfOk, OnOk, IfSome, IfNone, All};
ghost use Rattle.dy_rings.specs.declared.ring.State.TheVariants.{Closed};
ghost use Rattle.dy_rings.specs.declared.ring.Group.{Group};
ghost use Rattle.dy_rings.specs.Rings.{In, Leads, IsBehindUsed};
ghost use Rattle.dy_rings.specs.Walks.{progress, at_start, opening, closing, Joins};

use dy_base::Items;
use std::alloc::{AllocError, Global};

/// What is known of the nodes of a graph.
#[derive(Debug, Drop)]
pub struct Rings {
    /// For each node whether a chain of uses leads from it to itself.
    pub on_ring: Items<bool>,
    /// The nodes, each behind all that it uses, but for those on one ring with it.
    pub order: Items<u32>,
}

/// How far a walk has come with a node.
#[derive(Clone, Copy, Debug)]
enum State {
    /// It was not met yet.
    Unseen,
    /// It stands at this place among the open nodes.
    Open(usize),
    /// All that it leads to was met.
    Closed,
}

/// Open nodes of which each leads to each other one.
#[derive(Clone, Copy, Debug)]
struct Group {
    /// Where its nodes begin among the open ones. They end where those of the next group begin.
    first: usize,
    /// Where its uses begin among those that are left.
    left: usize,
    /// Whether its nodes stand on a ring.
    ring: bool,
}

/// A walk through a graph.
#[derive(Debug, Drop)]
struct Walk {
    states: Vec<State>,
    /// The open nodes, in the order in which they were met.
    opened: Vec<u32>,
    /// The groups of the open nodes. Each leads to the next one.
    groups: Vec<Group>,
    /// The nodes that are left to look at: those that a walk begins with, and then what the open
    /// nodes use.
    todo: Vec<u32>,
    on_ring: Vec<bool>,
    /// The closed nodes.
    order: Vec<u32>,
}

impl Walk {
    /// A walk that begins with any node.
    fn new(alloc: Global, count: usize) -> Result<Walk, AllocError>
        requires { count < 2 ^ 32 }
        ensures { IfOk result (λ walk. progress walk ≡ at_start count) }
    {
        let mut todo = Vec::new(alloc);
        for node in 0..count {
            todo.push(node as u32)?;
        }
        Ok(Walk {
            states: vec![in alloc; State::Unseen; count]?,
            opened: Vec::new(alloc),
            groups: Vec::new(alloc),
            todo,
            on_ring: vec![in alloc; false; count]?,
            order: Vec::new(alloc),
        })
    }

    /// Opens a node that was not met yet.
    fn open(&mut self, uses: &[Items<u32>], node: u32) -> Result<(), AllocError>
        requires { node < length self.old.states.items }
        ensures { OnOk result (progress self.new ≡ opening uses.now node (progress self.old)) }
    {
        let place = self.opened.len();
        self.states[node as usize] = State::Open(place);
        self.opened.push(node)?;
        self.groups.push(Group {
            first: place,
            left: self.todo.len(),
            ring: false,
        })?;
        if let Some(used) = uses.get(node as usize) {
            self.todo.extend_from_slice(used.as_slice())?;
        }
        Ok(())
    }

    /// The last group, where all that its nodes use was looked at.
    fn followed(&self) -> Option<Group>
        ensures some { IfSome result (λ group. (group.left ≡ length self.now.todo.items)
            × (under : List Group) × (self.now.groups.items ≡ under ++ group ∷ [])) }
        ensures none { IfNone result ((under : List Group) (group : Group)
            → self.now.groups.items ≡ under ++ group ∷ []
            → group.left ≢ length self.now.todo.items) }
    {
        let group = *self.groups.last()?;
        if group.left == self.todo.len() {
            Some(group)
        } else {
            None
        }
    }

    /// Closes the nodes of the last group.
    fn close(&mut self, group: Group) -> Result<(), AllocError>
        requires begins { group.first ≤ length self.old.opened.items }
        requires states { All (λ node. node < length self.old.states.items) self.old.opened.items }
        requires marks { All (λ node. node < length self.old.on_ring.items) self.old.opened.items }
        ensures { OnOk result (progress self.new ≡ closing group (progress self.old)) }
    {
        self.groups.pop();
        let nodes = &self.opened[group.first..];
        close_nodes(nodes, group.ring, &mut self.states, &mut self.on_ring);
        self.order.extend_from_slice(nodes)?;
        self.opened.truncate(group.first);
        Ok(())
    }

    /// How far the walk has come with a node. A number that names none counts as a closed node.
    fn state_of(&self, node: u32) -> State
        ensures { result ≡ slice_index_or self.now.states.items node Closed }
    {
        match self.states.get(node as usize) {
            Some(state) => *state,
            None => State::Closed,
        }
    }
}

/// Closes nodes, and tells of each whether it stands on a ring.
fn close_nodes(nodes: &[u32], ring: bool, states: &mut Vec<State>, on_ring: &mut Vec<bool>)
    requires states { All (λ node. node < length states.old.items) nodes.now }
    requires marks { All (λ node. node < length on_ring.old.items) nodes.now }
    ensures states { states.new.items
        ≡ fold (λ states node. slice_set states node Closed) states.old.items nodes.now }
    ensures marks { on_ring.new.items
        ≡ fold (λ marks node. slice_set marks node ring) on_ring.old.items nodes.now }
{
    for node in nodes {
        states[*node as usize] = State::Closed;
        on_ring[*node as usize] = ring;
    }
}

/// Joins all groups from that of a place on, since the last one leads to that place.
fn join(groups: &mut Vec<Group>, place: usize) -> Result<(), AllocError>
    requires { (group : Group) × In group groups.old.items × (group.first ≤ place) }
    ensures { OnOk result (Joins place groups.old.items groups.new.items) }
{
    while let Some(group) = groups.pop() {
        if group.first <= place {
            groups.push(Group {
                ring: true,
                ..group
            })?;
            break;
        }
    }
    Ok(())
}

/// Which nodes of a graph stand on a ring, and an order in which each node stands behind what it
/// uses. Node `i` uses the nodes that `uses[i]` lists; a number there that is not below the count
/// of nodes names none, and is passed over. It takes time in proportion to nodes and uses, and
/// memory from the heap alone. The only error is want of memory.
pub fn find_rings(alloc: Global, uses: &[Items<u32>]) -> Result<Rings, AllocError>
    requires { length uses.now < 2 ^ 32 }
    ensures count { IfOk result (λ rings. length rings.on_ring ≡ length uses.now) }
    ensures rings { IfOk result (λ rings. (i : ℕ) → (slice_get rings.on_ring i ≡ Some true)
        ↔ Leads uses.now i i) }
    ensures order { IfOk result (λ rings. IsBehindUsed uses.now rings.order) }
{
    let mut walk = Walk::new(alloc, uses.len())?;
    loop {
        if let Some(group) = walk.followed() {
            walk.close(group)?;
            continue;
        }
        let Some(node) = walk.todo.pop() else {
            break;
        };
        match walk.state_of(node) {
            State::Unseen => walk.open(uses, node)?,
            State::Open(place) => join(&mut walk.groups, place)?,
            State::Closed => {}
        }
    }
    let Walk { on_ring, order, .. } = walk;
    Ok(Rings {
        on_ring: Items::from_vec(on_ring),
        order: Items::from_vec(order),
    })
}
