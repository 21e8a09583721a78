// The ids of nodes, and their values for the keys of preferences.
ghost use Rattle.std.specs.Prelude.{◌≡◌, ◌↔◌, IfOk, IsTrue, map};
ghost use Rattle.swarm_objects.specs.Nodes.Constraints.{key_value};
ghost use Rattle.swarm_objects.specs.Rows.{node_id};
ghost use Rattle.swarm_objects.specs.Usable.{IsUsable};
ghost use Rattle.swarm_spread.specs.Counts.{path_of};

use crate::key_values::key_value;
use itoa::Buffer;
use std::alloc::Global;
use swarm_objects::walks::nodes;
use swarm_objects::{Duplicate, Id, Key, List, Name, NoMemory, Node, Rows, add};

fn value_of(alloc: Global, node: &Node, key: &Key) -> Result<Name, NoMemory>
    ensures { IfOk result (λ value. value ≡ key_value node.now key.now) }
{
    let mut digits = Buffer::new();
    Name::new(alloc, key_value(node, key, &mut digits))
}

// The same keys, made anew.
pub fn keys_again(alloc: Global, keys: &[Key]) -> Result<List<Key>, NoMemory>
    ensures { IfOk result (λ again. again ≡ keys.now) }
{
    let mut again = List::new(alloc);
    for key in keys {
        add(&mut again, key.duplicate(alloc)?)?;
    }
    Ok(again)
}

// The node's values for the keys.
fn path_of(alloc: Global, node: &Node, keys: &[Key]) -> Result<List<Name>, NoMemory>
    ensures { IfOk result (λ path. path ≡ path_of keys.now node.now) }
{
    let mut path = List::new(alloc);
    for key in keys {
        add(&mut path, value_of(alloc, node, key)?)?;
    }
    Ok(path)
}

// Those of all nodes.
pub fn paths_of<R: Rows>(
    alloc: Global,
    rows: &R,
    keys: &[Key],
) -> Result<List<List<Name>>, NoMemory>
    requires { IsUsable (R.tables rows.now) }
    ensures { IfOk result (λ paths. paths ≡ map (path_of keys.now) (R.tables rows.now).nodes) }
{
    let mut paths = List::new(alloc);
    for node in nodes(rows) {
        add(&mut paths, path_of(alloc, node, keys)?)?;
    }
    Ok(paths)
}

// The ids of all nodes.
pub fn nodes_of<R: Rows>(alloc: Global, rows: &R) -> Result<List<Id>, NoMemory>
    requires { IsUsable (R.tables rows.now) }
    ensures { IfOk result (λ ids. ids ≡ map node_id (R.tables rows.now).nodes) }
{
    let mut ids = List::new(alloc);
    for node in nodes(rows) {
        add(&mut ids, node.id)?;
    }
    Ok(ids)
}

// The text is the node's value for the key.
fn has_value(node: &Node, key: &Key, text: &str) -> bool
    ensures { IsTrue result ↔ (text.now ≡ key_value node.now key.now) }
{
    let mut digits = Buffer::new();
    text == key_value(node, key, &mut digits)
}

// The texts are the node's values for the keys.
pub fn has_path(node: &Node, keys: &[Key], path: &[Name]) -> bool
    ensures { IsTrue result ↔ (path.now ≡ path_of keys.now node.now) }
{
    if keys.len() != path.len() {
        return false;
    }
    for place in 0..keys.len() {
        if !has_value(node, &keys[place], path[place].as_str()) {
            return false;
        }
    }
    true
}
