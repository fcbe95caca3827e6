// The node that each number stands for.
ghost use Rattle.std.specs.Prelude.{◌≡◌, ◌+◌, ◌≤◌, ◌<◌, IsOk, OnErr, OnOk, option_copied};
ghost use Rattle.model.specs.FiniteMap as map;
ghost use Rattle.std.specs.HashMap.{spare};
ghost use Rattle.nodes.specs.Parts.{nodes_in};
ghost use Rattle.nodes.specs.Tables.{counted, lessened, with_entry};

use crate::directory_entry::DirectoryEntry;
use crate::node::Node;
use heap::Heap;
use std::alloc::AllocError;
use std::collections::HashMap;
use std::hash::{BuildHasherDefault, FoldHasher};
use std::marker::Model;

// Nodes under their numbers, found by a hash whose seed is fixed.
type ByNumber = HashMap<u64, Node, BuildHasherDefault<FoldHasher>, Heap>;

/// The node that each number stands for. Contracts also see for how many more there is room.
pub(crate) struct NodeList {
    nodes: ByNumber,
}

impl Drop for NodeList {
    fn drop(self) {
        let NodeList { nodes: _ } = self;
    }
}

impl Model for NodeList {
    ghost use Rattle.std.specs.HashMap.{spare};
    ghost use Rattle.nodes.specs.Parts.{Listed, listed_code, nodes_in};

    ghost Value = { Listed };

    ghost coded = { listed_code };

    ghost view = { λ l. record {
      nodes = nodes_in l.nodes;
      room = spare l.nodes;
    } };
}

// A node is looked up once more.
fn count_in(nodes: &mut ByNumber, number: u64)
    ensures nodes { nodes_in nodes.new ≡ counted number (map.get (nodes_in nodes.old) number) (nodes_in nodes.old) }
    ensures room { spare nodes.new ≡ spare nodes.old }
{
    match nodes.get_mut(&number) {
        Some(node) => node.count(),
        None => {}
    }
}

// So many look-ups of a node are forgotten.
fn lessen_in(nodes: &mut ByNumber, number: u64, count: u64)
    ensures nodes { nodes_in nodes.new ≡ lessened number count (map.get (nodes_in nodes.old) number) (nodes_in nodes.old) }
    ensures room { spare nodes.new ≡ spare nodes.old }
{
    match nodes.get_mut(&number) {
        Some(node) => node.forget(count),
        None => {}
    }
}

// A node has another entry.
fn put_in(nodes: &mut ByNumber, number: u64, entry: DirectoryEntry)
    ensures nodes { nodes_in nodes.new ≡ with_entry number entry (map.get (nodes_in nodes.old) number) (nodes_in nodes.old) }
    ensures room { spare nodes.new ≡ spare nodes.old }
{
    match nodes.get_mut(&number) {
        Some(node) => node.put(entry),
        None => {}
    }
}

impl NodeList {
    // No node. It takes no memory.
    pub(crate) fn new(heap: Heap) -> NodeList
        ensures { result.nodes ≡ map.empty }
    {
        NodeList {
            nodes: HashMap::new(heap),
        }
    }

    // The node of a number.
    pub(crate) fn get(&self, number: u64) -> Option<&Node>
        ensures { option_copied result ≡ map.get self.now.nodes number }
    {
        self.nodes.get(&number)
    }

    // Makes room for one node more. Refused memory changes nothing.
    pub(crate) fn reserve(&mut self) -> Result<(), AllocError>
        ensures nodes { self.new.nodes ≡ self.old.nodes }
        ensures ok { OnOk result (0 < self.new.room) }
        ensures room { self.old.room ≤ self.new.room }
        ensures succeeds { 0 < self.old.room → IsOk result }
    {
        self.nodes.reserve(1)
    }

    // A number stands for a node. Refused memory changes nothing.
    pub(crate) fn insert(&mut self, number: u64, node: Node) -> Result<(), AllocError>
        ensures ok { OnOk result (self.new.nodes ≡ map.insert self.old.nodes number node) }
        ensures err { OnErr result (self.new.nodes ≡ self.old.nodes) }
        ensures room { self.old.room ≤ self.new.room + 1 }
        ensures succeeds { 0 < self.old.room → IsOk result }
    {
        self.nodes.insert(number, node)?;
        Ok(())
    }

    // A node is looked up once more. It takes no memory.
    pub(crate) fn count(&mut self, number: u64)
        ensures nodes { self.new.nodes
            ≡ counted number (map.get self.old.nodes number) self.old.nodes }
        ensures room { self.new.room ≡ self.old.room }
    {
        count_in(&mut self.nodes, number);
    }

    // So many look-ups of a node are forgotten. It takes no memory.
    pub(crate) fn lessen(&mut self, number: u64, count: u64)
        ensures nodes { self.new.nodes
            ≡ lessened number count (map.get self.old.nodes number) self.old.nodes }
        ensures room { self.new.room ≡ self.old.room }
    {
        lessen_in(&mut self.nodes, number, count);
    }

    // A node has another entry. It takes no memory.
    pub(crate) fn put(&mut self, number: u64, entry: DirectoryEntry)
        ensures nodes { self.new.nodes
            ≡ with_entry number entry (map.get self.old.nodes number) self.old.nodes }
        ensures room { self.new.room ≡ self.old.room }
    {
        put_in(&mut self.nodes, number, entry);
    }

    // A number stands for nothing any more. It gives the node. It takes no memory.
    pub(crate) fn remove(&mut self, number: u64) -> Option<Node>
        ensures nodes { self.new.nodes ≡ map.remove self.old.nodes number }
        ensures node { result ≡ map.get self.old.nodes number }
        ensures room { self.old.room ≤ self.new.room }
    {
        self.nodes.remove(&number)
    }
}
