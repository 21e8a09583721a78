// Which nodes a constraint admits.
ghost use Rattle.std.specs.Prelude.{◌≡◌, decimal};
ghost use Rattle.std.specs.Str.{str_eq_ignore_ascii_case};
ghost use Rattle.swarm_objects.specs.Nodes.Constraints.{has_value, label_value, meets};
ghost use Rattle.swarm_objects.specs.Nodes.Words.{meets_all};

use itoa::Buffer;
use swarm_objects::{Constraint, Key, Labels, Node};

/// Whether a node meets a constraint.
pub fn matches(constraint: &Constraint, node: &Node) -> bool
    ensures { result ≡ meets constraint.now node.now }
{
    has_value(node, &constraint.key, constraint.value.as_str()) == constraint.equal
}

// Whether a node has this text for a key, in letters of either case.
fn has_value(node: &Node, key: &Key, value: &str) -> bool
    ensures { result ≡ has_value node.now key.now value.now }
{
    match key {
        Key::NodeId => is_number(node.id, value),
        Key::Hostname => is_same_text(node.name.as_str(), value),
        Key::Role => is_same_text(node.role.as_str(), value),
        Key::Os => is_same_text(node.os.as_str(), value),
        Key::Arch => is_same_text(node.arch.as_str(), value),
        Key::Label(name) => is_same_text(value_of(&node.labels, name.as_str()), value),
        Key::Engine(name) => is_same_text(value_of(&node.engine, name.as_str()), value),
    }
}

// Whether two texts are equal in letters of either case.
fn is_same_text(one: &str, two: &str) -> bool
    ensures { result ≡ str_eq_ignore_ascii_case one.now two.now }
{
    one.eq_ignore_ascii_case(two)
}

// Whether a text is this number as it is written.
fn is_number(number: u64, text: &str) -> bool
    ensures { result ≡ str_eq_ignore_ascii_case (decimal number) text.now }
{
    is_same_text(Buffer::new().format(number), text)
}

// The value of a label, or the empty one.
fn value_of<'a>(labels: &'a Labels, name: &str) -> &'a str
    ensures { result.now ≡ label_value labels.now name.now }
{
    for label in labels.as_slice() {
        if label.0.as_str() == name {
            return label.1.as_str();
        }
    }
    ""
}

/// The node meets each of the constraints.
pub fn meets_all(constraints: &[Constraint], node: &Node) -> bool
    ensures { result ≡ meets_all constraints.now node.now }
{
    constraints
        .iter()
        .all(|constraint| matches(constraint, node))
}
