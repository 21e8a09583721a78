// Watchers as places in one list of events. An event is kept as long as a watcher waits for it.
ghost use Rattle.std.specs.Prelude.{◌≡◌, ◌==◌, ◌≤◌, ◌<◌, ◌+◌, ◌++◌, drop, filter, length, map, IfOk, OnErr, OnOk};
ghost use Rattle.std.specs.List.{position};
ghost use Rattle.std.specs.Option.{option_copied};
ghost use Rattle.std.specs.Vec.{vec_capacity, vec_len};
ghost use Rattle.swarm_objects.specs.Watches.{filter_admits};
ghost use Rattle.swarm_objects.specs.Rows.{change_row, drop_row, row_at};
ghost use Rattle.swarm_watch.specs.Calls.{without_waiting};
ghost use Rattle.swarm_watch.specs.Inside.Cursors.{IsSwept, IsTidy, cursor_id, is_admitted, is_waited_at, stepped_back};
ghost use Rattle.swarm_watch.specs.Inside.Cursors.{waits_at, watchings};
ghost use Rattle.swarm_watch.specs.Watchings.{watching_id};

use std::alloc::Global;
use swarm_objects::watches::filter_admits;
use swarm_objects::{Event, Filter, Id, List, NoMemory, add};

// A watcher, and the place among the kept events from which on it wasn't told of any.
#[derive(Clone, Copy)]
pub struct Cursor {
    pub id: Id,
    pub filter: Filter,
    pub from: usize,
}

// Whether the watcher waits for the event at this place.
fn waits_at(cursor: &Cursor, place: usize, event: &Event) -> bool
    ensures { result ≡ waits_at place event.now cursor.now }
{
    cursor.from <= place && filter_admits(&cursor.filter, event)
}

// Whether some watcher waits for the event at this place.
fn is_waited_at(cursors: &[Cursor], place: usize, event: &Event) -> bool
    ensures { result ≡ is_waited_at cursors.now place event.now }
{
    cursors.iter().any(|cursor| waits_at(cursor, place, event))
}

// The watcher with this id.
pub fn cursor_at(cursors: &[Cursor], id: Id) -> Option<&Cursor>
    ensures { option_copied result ≡ row_at cursor_id id cursors.now }
{
    cursors.iter().find(|cursor| cursor.id == id)
}

// Its place among the others.
fn place_of(cursors: &[Cursor], id: Id) -> Option<usize>
    ensures { result ≡ position (λ cursor. cursor_id cursor == id) cursors.now }
{
    cursors.iter().position(|cursor| cursor.id == id)
}

// The events from a place on.
pub fn events_from(kept: &[Event], from: usize) -> &[Event]
    requires { from ≤ length kept.now }
    ensures { result.now ≡ drop from kept.now }
{
    &kept[from..]
}

// How many of the events the filter lets pass.
pub fn count_admitted(asked: &Filter, events: &[Event]) -> usize
    ensures { result ≡ length (filter (filter_admits asked.now) events.now) }
{
    events
        .iter()
        .filter(|event| filter_admits(asked, event))
        .count()
}

// The events that the filter lets pass, of which there are so many.
pub fn admitted(
    alloc: Global,
    asked: &Filter,
    events: &[Event],
    count: usize,
) -> Result<List<Event>, NoMemory>
    ensures { IfOk result (λ admitted. admitted ≡ filter (filter_admits asked.now) events.now) }
{
    let mut admitted = List::from_vec(Vec::with_capacity(alloc, count)?);
    for event in events {
        if filter_admits(asked, event) {
            add(&mut admitted, *event)?;
        }
    }
    Ok(admitted)
}

// Whether some watcher's filter lets the event pass.
fn is_admitted(cursors: &[Cursor], event: &Event) -> bool
    ensures { result ≡ is_admitted cursors.now event.now }
{
    cursors
        .iter()
        .any(|cursor| filter_admits(&cursor.filter, event))
}

// How many of the events some watcher's filter lets pass.
fn count_awaited(cursors: &[Cursor], events: &[Event]) -> usize
    ensures { result ≡ length (filter (is_admitted cursors.now) events.now) }
{
    events
        .iter()
        .filter(|event| is_admitted(cursors, event))
        .count()
}

// Keeps the events that some watcher's filter lets pass. All memory is taken before the first.
pub fn keep(kept: &mut Vec<Event>, cursors: &[Cursor], events: &[Event]) -> Result<(), NoMemory>
    ensures ok { OnOk result (kept.new.items ≡ kept.old.items ++ filter (is_admitted cursors.now) events.now) }
    ensures err { OnErr result (kept.new.items ≡ kept.old.items) }
    ensures err_capacity { OnErr result (vec_capacity kept.new ≡ vec_capacity kept.old) }
    ensures capacity { vec_capacity kept.old ≤ vec_capacity kept.new }
    ensures full { let count = length (filter (is_admitted cursors.now) events.now) in
        OnErr result (vec_capacity kept.old < vec_len kept.old + count) }
{
    kept.reserve(count_awaited(cursors, events))?;
    for event in events {
        if is_admitted(cursors, event) {
            kept.push_reserved(*event);
        }
    }
    Ok(())
}

// Where an event at the place was given up, those who wait behind it have their place one lower.
fn step_back(cursors: &mut [Cursor], place: usize)
    ensures { cursors.new ≡ map (stepped_back place) cursors.old }
{
    for cursor in cursors.iter_mut() {
        if cursor.from > place {
            cursor.from -= 1;
        }
    }
}

// Gives up the events from a place on that no watcher waits for.
fn give_up(cursors: &mut [Cursor], kept: &mut Vec<Event>, start: usize)
    requires start { start ≤ vec_len kept.old }
    requires swept { IsSwept cursors.old kept.old.items start }
    ensures tidy { IsTidy cursors.new kept.new.items }
    ensures same { watchings kept.new.items cursors.new ≡ watchings kept.old.items cursors.old }
    ensures capacity { vec_capacity kept.new ≡ vec_capacity kept.old }
    ensures fewer { vec_len kept.new ≤ vec_len kept.old }
{
    let mut end = start;
    for place in start..kept.len() {
        let event = kept[place];
        if is_waited_at(cursors, end, &event) {
            kept[end] = event;
            end += 1;
        } else {
            step_back(cursors, end);
        }
    }
    kept.truncate(end);
}

// The watcher with this id was told all. What waited for it alone is given up.
pub fn tell_all(cursors: &mut [Cursor], kept: &mut Vec<Event>, id: Id)
    requires { IsTidy cursors.old kept.old.items }
    ensures tidy { IsTidy cursors.new kept.new.items }
    ensures told { let before = watchings kept.old.items cursors.old in
        watchings kept.new.items cursors.new ≡ change_row watching_id id without_waiting before }
    ensures capacity { vec_capacity kept.new ≡ vec_capacity kept.old }
    ensures fewer { vec_len kept.new ≤ vec_len kept.old }
{
    let Some(place) = place_of(cursors, id) else {
        return;
    };
    let cursor = cursors[place];
    cursors[place] = Cursor {
        from: kept.len(),
        ..cursor
    };
    give_up(cursors, kept, cursor.from);
}

// The watcher with this id goes, and what waited for it alone is given up.
pub fn end(cursors: &mut Vec<Cursor>, kept: &mut Vec<Event>, id: Id)
    requires { IsTidy cursors.old.items kept.old.items }
    ensures tidy { IsTidy cursors.new.items kept.new.items }
    ensures gone { let before = watchings kept.old.items cursors.old.items in
        watchings kept.new.items cursors.new.items ≡ drop_row watching_id id before }
    ensures capacity { vec_capacity kept.new ≡ vec_capacity kept.old }
    ensures fewer { vec_len kept.new ≤ vec_len kept.old }
{
    let Some(place) = place_of(cursors.as_slice(), id) else {
        return;
    };
    let cursor = cursors.remove(place);
    give_up(cursors.as_mut_slice(), kept, cursor.from);
}
