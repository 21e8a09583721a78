// How nodes compare by the values that they have for keys.
ghost use Rattle.std.specs.Prelude.{◌≡◌, ◌⊎◌};
ghost use Rattle.std.specs.Cmp.Lexicographic.{slice_cmp};
ghost use Rattle.std.specs.Ordering.{nat_cmp};
ghost use Rattle.std.specs.Str.{bytes_eq};
ghost use Rattle.swarm_objects.specs.Nodes.BestNode.{agrees};
ghost use Rattle.swarm_objects.specs.Nodes.Constraints.{key_value};

use itoa::Buffer;
use std::cmp::Ordering;
use swarm_objects::{Key, Node};
use swarm_spread::{key_value, label_value};

/// How the values of two nodes for the key compare.
pub fn value_cmp(key: &Key, a: &Node, b: &Node) -> Ordering
    ensures { result ≡ slice_cmp nat_cmp (key_value a.now key.now) (key_value b.now key.now) }
{
    let mut first = Buffer::new();
    let mut second = Buffer::new();
    key_value(a, key, &mut first).cmp(key_value(b, key, &mut second))
}

/// The text that the node holds for the key, which is its value; the empty one for its id.
pub fn text_of<'a>(node: &'a Node, key: &Key) -> &'a str
    ensures { (key.now ≡ Key.NodeId) ⊎ (result.now ≡ key_value node.now key.now) }
{
    match key {
        Key::NodeId => "",
        Key::Hostname => node.name.as_str(),
        Key::Role => node.role.as_str(),
        Key::Os => node.os.as_str(),
        Key::Arch => node.arch.as_str(),
        Key::Label(name) => label_value(&node.labels, name.as_str()),
        Key::Engine(name) => label_value(&node.engine, name.as_str()),
    }
}

// The two nodes have the same value for the key.
fn has_same_value(key: &Key, a: &Node, b: &Node) -> bool
    ensures { result ≡ bytes_eq (key_value a.now key.now) (key_value b.now key.now) }
{
    let mut first = Buffer::new();
    let mut second = Buffer::new();
    key_value(a, key, &mut first) == key_value(b, key, &mut second)
}

/// The node agrees with the other on the values of these keys.
pub fn agrees(keys: &[Key], node: &Node, other: &Node) -> bool
    ensures { result ≡ agrees keys.now node.now other.now }
{
    keys.iter().all(|key| has_same_value(key, other, node))
}
