// The events of an entry: what happened to the rows between the worlds before and after it.
ghost use Rattle.std.specs.Prelude.{◌≡◌, ◌++◌, Bool, IfOk, OnOk};
ghost use Rattle.swarm_model.specs.Changed.{changes_between, events_of};
ghost use Rattle.swarm_objects.specs.Rows.{IsRising};
ghost use Rattle.swarm_plain.specs.Entries.{HasOrder};
ghost use Rattle.swarm_plain.specs.Plain.{tables_of};
ghost use Rattle.swarm_plain.specs.Inside.Merging.{DecidesRows};
ghost use Rattle.events_text.specs.Inside.Events.{events_at};

use std::alloc::Global;
use swarm_objects::{Event, Id, Keyed, Kind, List, NoMemory, Same, Verb, Version, add};
use swarm_plain::Plain;
use swarm_plain::events::{change_at, least_key, rest_at};

// Puts the event of what happened, if anything did.
fn put_event(
    events: &mut List<Event>,
    entry: Version,
    kind: Kind,
    id: Id,
    verb: Option<Verb>,
) -> Result<(), NoMemory>
    ensures { OnOk result (events.new ≡ events.old ++ events_at entry kind id verb) }
{
    match verb {
        Some(verb) => add(
            events,
            Event {
                entry,
                verb,
                kind,
                id,
            },
        ),
        None => Ok(()),
    }
}

// Puts the events between two lists of rows, each by rising id.
fn put_changes<T: Keyed + Same>(
    events: &mut List<Event>,
    entry: Version,
    kind: Kind,
    old: &[T],
    new: &[T],
) -> Result<(), NoMemory>
    requires old { IsRising T.key_of old.now }
    requires new { IsRising T.key_of new.now }
    ensures { (same : T → T → Bool) → DecidesRows T.key_of same →
        OnOk result (events.new ≡ events.old ++ events_of entry kind T.key_of same old.now new.now) }
{
    let mut old = old;
    let mut new = new;
    while let Some(id) = least_key(old, new) {
        let verb = change_at(old, new, id);
        put_event(events, entry, kind, id, verb)?;
        old = rest_at(old, id);
        new = rest_at(new, id);
    }
    Ok(())
}

// Puts the events between two worlds.
fn put_all(
    events: &mut List<Event>,
    entry: Version,
    old: &Plain,
    new: &Plain,
) -> Result<(), NoMemory>
    requires old { HasOrder (tables_of old.now) }
    requires new { HasOrder (tables_of new.now) }
    ensures { OnOk result (events.new ≡ events.old ++ changes_between entry (tables_of old.now) (tables_of new.now)) }
{
    put_changes(
        events,
        entry,
        Kind::Node,
        old.nodes.as_slice(),
        new.nodes.as_slice(),
    )?;
    put_changes(
        events,
        entry,
        Kind::Service,
        old.services.as_slice(),
        new.services.as_slice(),
    )?;
    put_changes(
        events,
        entry,
        Kind::Task,
        old.tasks.as_slice(),
        new.tasks.as_slice(),
    )?;
    put_changes(
        events,
        entry,
        Kind::Network,
        old.networks.as_slice(),
        new.networks.as_slice(),
    )
}

/// The events of the entry with this number, by kind and then id.
pub fn changes(
    alloc: Global,
    entry: Version,
    old: &Plain,
    new: &Plain,
) -> Result<List<Event>, NoMemory>
    requires old { HasOrder (tables_of old.now) }
    requires new { HasOrder (tables_of new.now) }
    ensures { IfOk result (λ events. events ≡ changes_between entry (tables_of old.now) (tables_of new.now)) }
{
    let mut events = List::new(alloc);
    put_all(&mut events, entry, old, new)?;
    Ok(events)
}
