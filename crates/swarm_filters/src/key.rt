// Keys from their texts.
ghost use Rattle.std.specs.Prelude.{◌≡◌, IfOk, IfSome, IsTrue, option_copied};
ghost use Rattle.std.specs.Str.{str_to_ascii_lowercase};
ghost use Rattle.swarm_filters.specs.Grammar.{HoldsExactly, IsKey};
ghost use Rattle.swarm_filters.specs.Keys.{fixed_key, key_of, label_of, name_behind};
ghost use Rattle.swarm_objects.specs.Names.{is_name};

use crate::machine::is_word;
use std::alloc::Global;
use swarm_objects::names::{is_name, name_of};
use swarm_objects::{Key, NoMemory};

/// The key that a text is, if it is one: a fixed word, or a prefix and the name of a label.
pub fn parse_key(alloc: Global, text: &str) -> Result<Option<Key>, NoMemory>
    ensures form { IfOk result (λ key. HoldsExactly (IsKey text.now) key) }
    ensures meaning { IfOk result (λ key. key ≡ key_of text.now) }
{
    read_key(alloc, text.as_bytes())
}

/// The key that a word's bytes are, if they are one.
pub fn read_key(alloc: Global, word: &[u8]) -> Result<Option<Key>, NoMemory>
    ensures form { IfOk result (λ key. HoldsExactly (IsKey word.now) key) }
    ensures meaning { IfOk result (λ key. key ≡ key_of word.now) }
{
    match fixed_key(word) {
        Some(key) => Ok(Some(key)),
        None => label_of(alloc, word),
    }
}

fn fixed_key(word: &[u8]) -> Option<Key>
    ensures { result ≡ fixed_key (str_to_ascii_lowercase word.now) }
{
    if is_word(b"node.id", word) {
        Some(Key::NodeId)
    } else if is_word(b"node.hostname", word) {
        Some(Key::Hostname)
    } else if is_word(b"node.role", word) {
        Some(Key::Role)
    } else if is_word(b"node.platform.os", word) {
        Some(Key::Os)
    } else if is_word(b"node.platform.arch", word) {
        Some(Key::Arch)
    } else {
        None
    }
}

fn label_of(alloc: Global, word: &[u8]) -> Result<Option<Key>, NoMemory>
    ensures { IfOk result (λ key. key ≡ label_of word.now) }
{
    if let Some(name) = name_behind(b"node.labels.", word) {
        return Ok(Some(Key::Label(name_of(alloc, name)?)));
    }
    match name_behind(b"engine.labels.", word) {
        Some(name) => Ok(Some(Key::Engine(name_of(alloc, name)?))),
        None => Ok(None),
    }
}

// The name behind a prefix that stands in letters of either case.
fn name_behind<'a>(prefix: &[u8], word: &'a [u8]) -> Option<&'a [u8]>
    requires { str_to_ascii_lowercase prefix.now ≡ prefix.now }
    ensures name { option_copied result ≡ name_behind prefix.now word.now }
    ensures named { IfSome result (λ name. IsTrue (is_name name.now)) }
{
    let (front, rest) = word.split_at_checked(prefix.len())?;
    if is_word(prefix, front) && is_name(rest) {
        Some(rest)
    } else {
        None
    }
}
