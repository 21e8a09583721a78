// Watchers of rows, and the events that they wait for.
ghost use Rattle.std.specs.Prelude.{◌≡◌, ◌↔◌, ◌≤◌, ◌<◌, ◌+◌, [], List, None, filter, length, map, IsTrue, OnErr, OnOk};
ghost use Rattle.swarm_objects.specs.Rows.{row_at};
ghost use Rattle.swarm_watch.specs.Calls.{AnswersAs, MayAnswerAs, begin_answer, finish_answer, hears, is_awaited, poll_answer};
ghost use Rattle.swarm_watch.specs.Watchings.{watching_id};

use crate::cursors::{
    Cursor, admitted, count_admitted, cursor_at, end, events_from, keep, tell_all,
};
use std::alloc::Global;
use std::marker::Model;
use swarm_objects::limits::{MOST_EVENTS, MOST_WATCHERS};
use swarm_objects::{Event, Filter, Id, Kind, List, NoMemory, Refusal};

/// Watchers, each with the events that wait for it. Contracts see these, and the room: how many events more can be
/// noted without taking memory.
///
/// The events stand in one list for all watchers. One that no watcher waits for any more is given up at once, and
/// without watchers none is kept.
#[derive(Drop)]
pub struct Watches {
    alloc: Global,
    // in the order in which they began
    cursors: Vec<Cursor>,
    kept: Vec<Event>,
}

impl Model for Watches {
    ghost use Rattle.std.specs.Prelude.{◌-◌};
    ghost use Rattle.std.specs.Vec.{vec_capacity, vec_len};
    ghost use Rattle.swarm_watch.specs.Inside.Cursors.{IsTidy, watchings};
    ghost use Rattle.swarm_watch.specs.Watchings.{Watchings};

    ghost Value = { Watchings };

    ghost view = { λ w. record {
      watchers = watchings w.kept.items w.cursors.items;
      room = vec_capacity w.kept - vec_len w.kept;
    } };

    ghost invariant = { λ w. IsTidy w.cursors.items w.kept.items };
}

impl Watches {
    /// No watchers. It takes no memory.
    pub fn new(alloc: Global) -> Watches
        ensures { result ≡ record { watchers = []; room = 0 } }
    {
        Watches {
            alloc,
            cursors: Vec::new(alloc),
            kept: Vec::new(alloc),
        }
    }

    /// Whether nobody watches. Then nothing is waited for, and no room is needed.
    pub fn is_empty(&self) -> bool
        ensures nobody { IsTrue result ↔ (self.now.watchers ≡ []) }
        ensures quiet { IsTrue result → (events : List Event) → filter (is_awaited self.now.watchers) events ≡ [] }
    {
        self.cursors.is_empty()
    }

    /// Somebody begins to watch: it is told of what its filter lets pass from now on. It is refused as `TooMany` where
    /// there are 100 watchers.
    pub fn begin(&mut self, id: Id, filter: Filter) -> Result<(), Refusal>
        requires { row_at watching_id id self.old.watchers ≡ None }
        ensures { MayAnswerAs (begin_answer self.old.watchers id filter) self.old result self.new }
    {
        let count = self.cursors.len();
        if count >= MOST_WATCHERS {
            return Err(Refusal::TooMany(Kind::Watcher, count as u64));
        }
        let cursor = Cursor {
            id,
            filter,
            from: self.kept.len(),
        };
        match self.cursors.push(cursor) {
            Ok(()) => Ok(()),
            Err(_) => Err(Refusal::NoMemory),
        }
    }

    /// The events of an entry come to wait for each watcher whose filter lets them pass. Memory is taken only for those
    /// that some watcher waits for, and where the room is less.
    pub fn note(&mut self, events: &[Event]) -> Result<(), NoMemory>
        ensures ok { OnOk result (self.new.watchers ≡ map (hears events.now) self.old.watchers) }
        ensures err { OnErr result (self.new ≡ self.old) }

        ensures room { self.old.room ≤ self.new.room + length (filter (is_awaited self.old.watchers) events.now) }
        ensures full { OnErr result (self.old.room < length (filter (is_awaited self.old.watchers) events.now)) }
    {
        keep(&mut self.kept, self.cursors.as_slice(), events)
    }

    /// Tells the watcher the events that wait for it, in order, and each once. One that has more than 10,000 waiting
    /// goes, and is answered their number as `Lagged`; one that isn't there is an `UnknownWatcher`.
    pub fn poll(&mut self, id: Id) -> Result<List<Event>, Refusal>
        ensures { let watcher = row_at watching_id id self.old.watchers in
            MayAnswerAs (poll_answer self.old.watchers id watcher) self.old result self.new }
    {
        let Some(cursor) = cursor_at(self.cursors.as_slice(), id) else {
            return Err(Refusal::UnknownWatcher(id));
        };
        let unseen = events_from(self.kept.as_slice(), cursor.from);
        let count = count_admitted(&cursor.filter, unseen);
        if count > MOST_EVENTS {
            end(&mut self.cursors, &mut self.kept, id);
            return Err(Refusal::Lagged(count as u64));
        }
        let events = admitted(self.alloc, &cursor.filter, unseen, count)?;
        tell_all(self.cursors.as_mut_slice(), &mut self.kept, id);
        Ok(events)
    }

    /// The watcher ends, and what waited for it alone is given up. One that isn't there is an `UnknownWatcher`.
    /// It takes no memory.
    pub fn finish(&mut self, id: Id) -> Result<(), Refusal>
        ensures { let watcher = row_at watching_id id self.old.watchers in
            AnswersAs (finish_answer self.old.watchers id watcher) self.old result self.new }
    {
        if cursor_at(self.cursors.as_slice(), id).is_none() {
            return Err(Refusal::UnknownWatcher(id));
        }
        end(&mut self.cursors, &mut self.kept, id);
        Ok(())
    }

    /// Makes room for so many events more.
    pub fn reserve(&mut self, events: u64) -> Result<(), NoMemory>
        ensures ok { OnOk result (events ≤ self.new.room) }
        ensures err { OnErr result (self.new ≡ self.old) }

        ensures watchers { self.new.watchers ≡ self.old.watchers }
        ensures room { self.old.room ≤ self.new.room }
        ensures full { OnErr result (self.old.room < events) }
    {
        self.kept.reserve(events as usize)?;
        Ok(())
    }
}
