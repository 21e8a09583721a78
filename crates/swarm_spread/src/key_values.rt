// The values that nodes have for the keys of preferences.
ghost use Rattle.std.specs.Prelude.{◌≡◌, List as Seq, ℕ, find};
ghost use Rattle.std.specs.Option.{option_copied};
ghost use Rattle.std.specs.Str.{bytes_eq};
ghost use Rattle.swarm_objects.specs.Nodes.Constraints.{key_value, label_value};

use itoa::Buffer;
use swarm_objects::{Key, Labels, Name, Node};

// The first label with this key.
fn label_of<'a>(labels: &'a Labels, name: &str) -> Option<&'a (Name, Name)>
    ensures { let has_name = λ (label : Seq ℕ × Seq ℕ). bytes_eq label.0 name.now in
        option_copied result ≡ find has_name labels.now }
{
    labels
        .as_slice()
        .iter()
        .find(|label| label.0.as_str() == name)
}

/// The value of the first label with this key, which is empty where there is none.
#[tactic(auto, using(swarm_objects::proofs::LabelValues::label_value_is))]
pub fn label_value<'a>(labels: &'a Labels, name: &str) -> &'a str
    ensures { result.now ≡ label_value labels.now name.now }
{
    match label_of(labels, name) {
        Some(label) => label.1.as_str(),
        None => "",
    }
}

/// The text that the node has for the key of a preference; that of a missing label is empty. The digits of its id stand
/// in the buffer.
pub fn key_value<'a>(node: &'a Node, key: &Key, digits: &'a mut Buffer) -> &'a str
    ensures { result.now ≡ key_value node.now key.now }
{
    match key {
        Key::NodeId => digits.format(node.id),
        Key::Hostname => node.name.as_str(),
        Key::Role => node.role.as_str(),
        Key::Os => node.os.as_str(),
        Key::Arch => node.arch.as_str(),
        Key::Label(name) => label_value(&node.labels, name.as_str()),
        Key::Engine(name) => label_value(&node.engine, name.as_str()),
    }
}
