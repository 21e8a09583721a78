// Watchers: who waits for events, and what each is told.
ghost use Rattle.std.specs.Prelude.{◌≡◌, ◌+◌, ◌<◌, filter, length, IfOk};
ghost use Rattle.std.specs.Option.{option_copied};
ghost use Rattle.swarm_model.specs.Calls.Watches.{told_all, waits_for, watch_begin, watch_finish, watch_poll};
ghost use Rattle.swarm_objects.specs.Bounds.{IsSmall};
ghost use Rattle.swarm_objects.specs.Rows.{change_row, row_at, watcher_id};
ghost use Rattle.swarm_plain.specs.Plain.{AnswersCall, world_of};

use crate::Plain;
use crate::events::waits_for;
use crate::reads::row_at;
use std::alloc::Global;
use swarm_objects::limits::{MOST_EVENTS, MOST_WATCHERS};
use swarm_objects::{
    Event, Filter, Id, Kind, List, NoMemory, Refusal, Reply, Version, Watcher, add, drop_row,
};

// The watcher with this id.
fn watcher_at(watchers: &[Watcher], id: Id) -> Option<&Watcher>
    ensures { option_copied result ≡ row_at watcher_id id watchers.now }
{
    row_at(watchers, id)
}

// How many events wait for the watcher.
fn count_waiting(events: &[Event], watcher: &Watcher) -> usize
    ensures { result ≡ length (filter (waits_for watcher.now) events.now) }
{
    events
        .iter()
        .filter(|event| waits_for(watcher, event))
        .count()
}

// The events that wait for the watcher.
fn waiting(alloc: Global, events: &[Event], watcher: &Watcher) -> Result<List<Event>, NoMemory>
    ensures { IfOk result (λ waiting. waiting ≡ filter (waits_for watcher.now) events.now) }
{
    let mut waiting = List::new(alloc);
    for event in events {
        if waits_for(watcher, event) {
            add(&mut waiting, *event)?;
        }
    }
    Ok(waiting)
}

// The watcher with this id was told all up to the entry with this number.
fn tell_all(watchers: &mut [Watcher], entry: Version, id: Id)
    ensures { watchers.new ≡ change_row watcher_id id (told_all entry) watchers.old }
{
    for watcher in watchers.iter_mut() {
        if watcher.id == id {
            watcher.cursor = entry;
        }
    }
}

impl Plain {
    // Somebody begins to watch, from this entry on.
    pub(crate) fn watch_begin(&mut self, filter: &Filter) -> Result<Reply, Refusal>
        requires { IsSmall (world_of self.old) }
        ensures { AnswersCall (watch_begin (self.old.entries + 1) (world_of self.old) filter.now) self.old result
            self.new }
    {
        let count = self.watchers.len();
        if count >= MOST_WATCHERS {
            return Err(Refusal::TooMany(Kind::Watcher, count as u64));
        }
        let id = self.next_id;
        let watcher = Watcher {
            id,
            filter: *filter,
            cursor: self.entries + 1,
        };
        add(&mut self.watchers, watcher)?;
        self.next_id += 1;
        Ok(Reply::WatchBegun(id))
    }

    // Tells the watcher what waits for it, and that once. One that has too much waiting goes.
    pub(crate) fn watch_poll(&mut self, id: Id) -> Result<Reply, Refusal>
        requires { IsSmall (world_of self.old) }
        ensures { let w = world_of self.old in
            AnswersCall (watch_poll (self.old.entries + 1) w id (row_at watcher_id id w.watchers)) self.old result
            self.new }
    {
        let Some(watcher) = watcher_at(self.watchers.as_slice(), id) else {
            return Err(Refusal::UnknownWatcher(id));
        };
        let count = count_waiting(self.events.as_slice(), watcher);
        if count > MOST_EVENTS {
            drop_row(&mut self.watchers, id);
            return Ok(Reply::Refused(Refusal::Lagged(count as u64)));
        }
        let events = waiting(self.alloc, self.events.as_slice(), watcher)?;
        tell_all(self.watchers.as_mut_slice(), self.entries + 1, id);
        Ok(Reply::Events(events))
    }

    // The watcher ends.
    pub(crate) fn watch_finish(&mut self, id: Id) -> Result<Reply, Refusal>
        ensures { let w = world_of self.old in
            AnswersCall (watch_finish w id (row_at watcher_id id w.watchers)) self.old result self.new }
    {
        if watcher_at(self.watchers.as_slice(), id).is_none() {
            return Err(Refusal::UnknownWatcher(id));
        }
        drop_row(&mut self.watchers, id);
        Ok(Reply::WatchFinished(id))
    }
}
