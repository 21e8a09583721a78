// The events of an entry: what changed between the rows before and after it.
ghost use Rattle.std.specs.Prelude.{◌≡◌, ◌++◌, Bool, filter, OnOk};
ghost use Rattle.std.specs.Option.{option_copied, option_map, option_to_list};
ghost use Rattle.swarm_objects.specs.Watches.{filter_admits};
ghost use Rattle.swarm_model.specs.Calls.Watches.{is_waited_for, waits_for};
ghost use Rattle.swarm_model.specs.Changed.{changes_between, event, events_of, verb_of};
ghost use Rattle.swarm_objects.specs.Rows.{IsRising};
ghost use Rattle.swarm_plain.specs.Entries.{HasOrder};
ghost use Rattle.swarm_plain.specs.Plain.{tables_of};
ghost use Rattle.swarm_plain.specs.Inside.Merging.{DecidesRows, head_at, least_key, rest_at};

use crate::Plain;
use swarm_objects::watches::filter_admits;
use swarm_objects::{Event, Id, Keyed, Kind, List, NoMemory, Same, Verb, Version, Watcher, add};

// Whether the watcher waits for the event.
pub(crate) fn waits_for(watcher: &Watcher, event: &Event) -> bool
    ensures { result ≡ waits_for watcher.now event.now }
{
    watcher.cursor < event.entry && filter_admits(&watcher.filter, event)
}

// Whether some watcher waits for the event.
pub(crate) fn is_waited_for(watchers: &[Watcher], event: &Event) -> bool
    ensures { result ≡ is_waited_for watchers.now event.now }
{
    watchers.iter().any(|watcher| waits_for(watcher, event))
}

// Puts the event, if there is one and a watcher waits for it.
fn put_awaited(
    events: &mut List<Event>,
    watchers: &[Watcher],
    event: Option<Event>,
) -> Result<(), NoMemory>
    ensures { OnOk result (events.new ≡ events.old ++ filter (is_waited_for watchers.now) (option_to_list event)) }
{
    match event {
        Some(event) if is_waited_for(watchers, &event) => add(events, event),
        _ => Ok(()),
    }
}

/// The least id of the first rows.
pub fn least_key<T: Keyed>(old: &[T], new: &[T]) -> Option<Id>
    ensures { result ≡ least_key T.key_of old.now new.now }
{
    match (old, new) {
        ([], []) => None,
        ([], [row, ..]) | ([row, ..], []) => Some(row.key()),
        ([one, ..], [two, ..]) => Some(one.key().min(two.key())),
    }
}

// The first row, where it has this id.
fn head_at<T: Keyed>(rows: &[T], id: Id) -> Option<&T>
    ensures { option_copied result ≡ head_at T.key_of id rows.now }
{
    match rows {
        [row, ..] if row.key() == id => Some(row),
        _ => None,
    }
}

/// The rows without the first one, where that has this id.
pub fn rest_at<T: Keyed>(rows: &[T], id: Id) -> &[T]
    ensures { result.now ≡ rest_at T.key_of id rows.now }
{
    match rows {
        [row, rest @ ..] if row.key() == id => rest,
        _ => rows,
    }
}

/// What happened to the row with this id, which is the least one.
pub fn change_at<T: Keyed + Same>(old: &[T], new: &[T], id: Id) -> Option<Verb>
    ensures { (same : T → T → Bool) → DecidesRows T.key_of same →
        option_to_list result ≡ verb_of same (head_at T.key_of id old.now) (head_at T.key_of id new.now) }
{
    match (head_at(old, id), head_at(new, id)) {
        (None, None) => None,
        (None, Some(_)) => Some(Verb::Created),
        (Some(_), None) => Some(Verb::Deleted),
        (Some(old), Some(new)) if old.same(new) => None,
        (Some(_), Some(_)) => Some(Verb::Updated),
    }
}

// The event of what happened, if anything did.
fn event_of(version: Version, kind: Kind, id: Id, verb: Option<Verb>) -> Option<Event>
    ensures { result ≡ option_map (event version kind id) verb }
{
    match verb {
        Some(verb) => Some(Event {
            entry: version,
            verb,
            kind,
            id,
        }),
        None => None,
    }
}

// Puts the events between two lists of rows, each by rising id, that a watcher waits for.
fn put_changes<T: Keyed + Same>(
    events: &mut List<Event>,
    watchers: &[Watcher],
    version: Version,
    kind: Kind,
    old: &[T],
    new: &[T],
) -> Result<(), NoMemory>
    requires old { IsRising T.key_of old.now }
    requires new { IsRising T.key_of new.now }
    ensures { (same : T → T → Bool) → DecidesRows T.key_of same → OnOk result (
        events.new
        ≡ events.old ++ filter (is_waited_for watchers.now) (events_of version kind T.key_of same old.now new.now)
        ) }
{
    let mut old = old;
    let mut new = new;
    while let Some(id) = least_key(old, new) {
        let verb = change_at(old, new, id);
        put_awaited(events, watchers, event_of(version, kind, id, verb))?;
        old = rest_at(old, id);
        new = rest_at(new, id);
    }
    Ok(())
}

// The events that a watcher waits for.
pub(crate) fn awaited(events: List<Event>, watchers: &[Watcher]) -> List<Event>
    ensures { result ≡ filter (is_waited_for watchers.now) events }
{
    let mut events = events.into_vec();
    events.retain(|event| is_waited_for(watchers, event));
    List::from_vec(events)
}

// Puts the events of the entry with this number that a watcher of the new world waits for.
pub(crate) fn put_all_changes(
    events: &mut List<Event>,
    version: Version,
    old: &Plain,
    new: &Plain,
) -> Result<(), NoMemory>
    requires old { HasOrder (tables_of old.now) }
    requires new { HasOrder (tables_of new.now) }
    ensures { OnOk result (
        events.new ≡ events.old
        ++ filter (is_waited_for new.now.watchers) (changes_between version (tables_of old.now) (tables_of new.now))
        ) }
{
    let watchers = new.watchers.as_slice();
    put_changes(
        events,
        watchers,
        version,
        Kind::Node,
        old.nodes.as_slice(),
        new.nodes.as_slice(),
    )?;
    put_changes(
        events,
        watchers,
        version,
        Kind::Service,
        old.services.as_slice(),
        new.services.as_slice(),
    )?;
    put_changes(
        events,
        watchers,
        version,
        Kind::Task,
        old.tasks.as_slice(),
        new.tasks.as_slice(),
    )?;
    put_changes(
        events,
        watchers,
        version,
        Kind::Network,
        old.networks.as_slice(),
        new.networks.as_slice(),
    )
}
