// The labels that fields name, by rising key.
ghost use Rattle.std.specs.Prelude.{◌≡◌, ◌≤◌, length, IfOk, OnOk, filter_map};
ghost use Rattle.script_grammar.specs.Drafts.{label_in, engine_in, label_place, with_label, labels_onto, labels_of};

use crate::tables::comes_first;
use script_grammar::Field;
use std::alloc::Global;
use swarm_objects::{Duplicate, Labels, List, Name, NoMemory};

// How many labels come before this one.
fn label_place(key: &Name, labels: &[(Name, Name)]) -> usize
    ensures place { result ≡ label_place key.now labels.now }
    ensures bound { result ≤ length labels.now }
{
    let mut place = 0;
    for label in labels {
        if comes_first(key, &label.0) {
            return place;
        }
        place += 1;
    }
    place
}

// Puts the label among those that stand by rising key.
fn put_label(labels: &mut Labels, label: (Name, Name)) -> Result<(), NoMemory>
    ensures { OnOk result (labels.new ≡ with_label label labels.old) }
{
    let place = label_place(&label.0, labels.as_slice());
    match labels.insert(place, label) {
        Ok(()) => Ok(()),
        Err(_) => Err(NoMemory),
    }
}

/// The labels of a node that the fields name, by rising key.
pub fn labels_named(alloc: Global, fields: &[Field]) -> Result<Labels, NoMemory>
    ensures { IfOk result (λ labels. labels ≡ labels_of (filter_map label_in fields.now)) }
{
    let mut labels = List::new(alloc);
    for field in fields {
        if let Field::Label(key, value) = field {
            put_label(
                &mut labels,
                (key.duplicate(alloc)?, value.duplicate(alloc)?),
            )?;
        }
    }
    Ok(labels)
}

/// The labels of the engine that the fields name, by rising key.
pub fn engines_named(alloc: Global, fields: &[Field]) -> Result<Labels, NoMemory>
    ensures { IfOk result (λ labels. labels ≡ labels_of (filter_map engine_in fields.now)) }
{
    let mut labels = List::new(alloc);
    for field in fields {
        if let Field::Engine(key, value) = field {
            put_label(
                &mut labels,
                (key.duplicate(alloc)?, value.duplicate(alloc)?),
            )?;
        }
    }
    Ok(labels)
}
