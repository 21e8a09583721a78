// Watchers, and what waits for them.
ghost use Rattle.std.specs.Prelude.{◌≡◌, [], ◌∷◌, None, IfOk, OnOk};
ghost use Rattle.swarm_objects.specs.Rows.{row_at};
ghost use Rattle.swarm_watch.specs.Calls.{new_watching};
ghost use Rattle.swarm_watch.specs.Watchings.{watching_id};

use std::alloc::Global;
use std::test::Fail;
use swarm_objects::{Event, Filter, Id, Kind, List, NoMemory, Refusal, Verb};
use swarm_watch::Watches;

const ALL: Filter = Filter {
    kind: None,
    id: None,
};

const SERVICES: Filter = Filter {
    kind: Some(Kind::Service),
    id: None,
};

const TASK_7: Filter = Filter {
    kind: Some(Kind::Task),
    id: Some(7),
};

// What a call was answered.
#[derive(Clone, Copy, Debug, PartialEq, Eq)]
enum Answer {
    Done,
    Events(usize),
    Lagged(u64),
    Unknown(Id),
    TooMany(Kind, u64),
    Other,
}

fn refused(refusal: &Refusal) -> Result<Answer, NoMemory> {
    match refusal {
        Refusal::Lagged(count) => Ok(Answer::Lagged(*count)),
        Refusal::UnknownWatcher(id) => Ok(Answer::Unknown(*id)),
        Refusal::TooMany(kind, count) => Ok(Answer::TooMany(*kind, *count)),
        Refusal::NoMemory => Err(NoMemory),
        _ => Ok(Answer::Other),
    }
}

fn told(polled: &Result<List<Event>, Refusal>) -> Result<Answer, NoMemory> {
    match polled {
        Ok(events) => Ok(Answer::Events(events.len())),
        Err(refusal) => refused(refusal),
    }
}

fn polled(watches: &mut Watches, id: Id) -> Result<Answer, NoMemory> {
    let polled = watches.poll(id);
    let answer = told(&polled);
    drop(polled);
    answer
}

fn are(polled: &Result<List<Event>, Refusal>, events: &[Event]) -> Result<bool, NoMemory> {
    match polled {
        Ok(told) => Ok(told.as_slice() == events),
        Err(_) => Err(NoMemory),
    }
}

// Whether the watcher is told these events, in this order.
fn is_told(watches: &mut Watches, id: Id, events: &[Event]) -> Result<bool, NoMemory> {
    let polled = watches.poll(id);
    let is_told = are(&polled, events);
    drop(polled);
    is_told
}

fn done(answer: &Result<(), Refusal>) -> Result<Answer, NoMemory> {
    match answer {
        Ok(()) => Ok(Answer::Done),
        Err(refusal) => refused(refusal),
    }
}

fn finished(watches: &mut Watches, id: Id) -> Result<Answer, NoMemory> {
    let finished = watches.finish(id);
    let answer = done(&finished);
    drop(finished);
    answer
}

// The one watcher is 1.
fn watch(watches: &mut Watches, filter: Filter) -> Result<(), NoMemory>
    requires { watches.old.watchers ≡ [] }
    ensures { OnOk result (watches.new.watchers ≡ new_watching 1 filter ∷ []) }
{
    match watches.begin(1, filter) {
        Ok(()) => Ok(()),
        Err(_) => Err(NoMemory),
    }
}

// The watchers are 1 and 2.
fn watch_both(watches: &mut Watches, one: Filter, two: Filter) -> Result<(), NoMemory>
    requires { watches.old.watchers ≡ [] }
{
    watch(watches, one)?;
    match watches.begin(2, two) {
        Ok(()) => Ok(()),
        Err(_) => Err(NoMemory),
    }
}

// Whose watchers are 1 to 100.
fn crowd(alloc: Global) -> Result<Watches, NoMemory>
    ensures { IfOk result (λ watches. row_at watching_id 101 watches.watchers ≡ None) }
{
    let mut watches = Watches::new(alloc);
    for id in 1..101 {
        match watches.begin(id, ALL) {
            Ok(()) => {}
            Err(_) => return Err(NoMemory),
        }
    }
    Ok(watches)
}

fn event(verb: Verb, kind: Kind, id: Id) -> Event {
    Event {
        entry: 3,
        verb,
        kind,
        id,
    }
}

// So many services, each made.
fn make_services(events: &mut Vec<Event>, count: u64) -> Result<(), NoMemory> {
    for id in 0..count {
        events.extend_from_slice(&[event(Verb::Created, Kind::Service, id)])?;
    }
    Ok(())
}

// A second try, where memory was wanting at the first.
fn noted(watches: &mut Watches, events: &[Event]) -> Result<(), NoMemory> {
    match watches.note(events) {
        Ok(()) => Ok(()),
        Err(NoMemory) => watches.note(events),
    }
}

// The watches are told that so many services were made.
fn note_services(alloc: Global, watches: &mut Watches, count: u64) -> Result<(), NoMemory> {
    let mut events = Vec::new(alloc);
    let noted = match make_services(&mut events, count) {
        Ok(()) => noted(watches, events.as_slice()),
        Err(NoMemory) => Err(NoMemory),
    };
    drop(events);
    noted
}

fn poll_twice(
    alloc: Global,
    watches: &mut Watches,
    count: u64,
) -> Result<(Answer, Answer), NoMemory>
    requires { watches.old.watchers ≡ [] }
{
    watch(watches, ALL)?;
    note_services(alloc, watches, count)?;
    Ok((polled(watches, 1)?, polled(watches, 1)?))
}

// What two polls of a watcher of everything are answered, where so many services were made.
fn polled_after(alloc: Global, count: u64) -> Result<(Answer, Answer), NoMemory> {
    let mut watches = Watches::new(alloc);
    let answers = poll_twice(alloc, &mut watches, count);
    drop(watches);
    answers
}

#[test]
fn most_events_at_once(rt: HostRuntime) -> Result<(), Fail> {
    let answers = polled_after(rt.alloc(), 10_000)?;
    assert_eq!(rt; answers, (Answer::Events(10_000), Answer::Events(0)));
    Ok(())
}

#[test]
fn one_event_too_many(rt: HostRuntime) -> Result<(), Fail> {
    let answers = polled_after(rt.alloc(), 10_001)?;
    assert_eq!(rt; answers, (Answer::Lagged(10_001), Answer::Unknown(1)));
    Ok(())
}

fn tell_life(watches: &mut Watches) -> Result<(bool, bool), NoMemory>
    requires { watches.old.watchers ≡ [] }
{
    watch_both(watches, SERVICES, TASK_7)?;
    let made = event(Verb::Created, Kind::Service, 7);
    let task = event(Verb::Updated, Kind::Task, 7);
    let gone = event(Verb::Deleted, Kind::Service, 7);
    let other = event(Verb::Created, Kind::Task, 8);
    noted(watches, &[made, task, gone, other])?;
    let service = is_told(watches, 1, &[made, gone])?;
    Ok((service, is_told(watches, 2, &[task])?))
}

// Whether a watcher of services and one of task 7 are each told what is theirs.
fn is_life_told(alloc: Global) -> Result<(bool, bool), NoMemory> {
    let mut watches = Watches::new(alloc);
    let told = tell_life(&mut watches);
    drop(watches);
    told
}

#[test]
fn a_life_is_told_in_order(rt: HostRuntime) -> Result<(), Fail> {
    assert_eq!(rt; is_life_told(rt.alloc())?, (true, true));
    Ok(())
}

fn poll_in_turn(watches: &mut Watches) -> Result<[Answer; 3], NoMemory>
    requires { watches.old.watchers ≡ [] }
{
    watch_both(watches, SERVICES, ALL)?;
    let made = event(Verb::Created, Kind::Service, 7);
    let task = event(Verb::Created, Kind::Task, 8);
    noted(watches, &[task, made])?;
    let early = polled(watches, 2)?;
    noted(watches, &[made, task])?;
    let slow = polled(watches, 1)?;
    Ok([early, slow, polled(watches, 2)?])
}

// What the second watcher is answered, then the first, and the second again, where two events come before and two
// after.
fn polled_in_turn(alloc: Global) -> Result<[Answer; 3], NoMemory> {
    let mut watches = Watches::new(alloc);
    let answers = poll_in_turn(&mut watches);
    drop(watches);
    answers
}

#[test]
fn slow_watcher_is_told_all(rt: HostRuntime) -> Result<(), Fail> {
    let answers = polled_in_turn(rt.alloc())?;
    let two = Answer::Events(2);
    assert_eq!(rt; answers, [two, two, two]);
    Ok(())
}

fn finish_twice(watches: &mut Watches) -> Result<(Answer, Answer), NoMemory>
    requires { watches.old.watchers ≡ [] }
{
    watch(watches, ALL)?;
    Ok((finished(watches, 1)?, finished(watches, 1)?))
}

fn finished_twice(alloc: Global) -> Result<(Answer, Answer), NoMemory> {
    let mut watches = Watches::new(alloc);
    let answers = finish_twice(&mut watches);
    drop(watches);
    answers
}

#[test]
fn a_watcher_ends(rt: HostRuntime) -> Result<(), Fail> {
    let answers = finished_twice(rt.alloc())?;
    assert_eq!(rt; answers, (Answer::Done, Answer::Unknown(1)));
    Ok(())
}

fn begun_beside_a_crowd(alloc: Global) -> Result<Answer, NoMemory> {
    let mut watches = crowd(alloc)?;
    let begun = watches.begin(101, ALL);
    drop(watches);
    let answer = done(&begun);
    drop(begun);
    answer
}

#[test]
fn one_watcher_too_many(rt: HostRuntime) -> Result<(), Fail> {
    let answer = begun_beside_a_crowd(rt.alloc())?;
    assert_eq!(rt; answer, Answer::TooMany(Kind::Watcher, 100));
    Ok(())
}

fn make_room(watches: &mut Watches) -> Result<(bool, bool, Answer), NoMemory>
    requires { watches.old.watchers ≡ [] }
{
    watch(watches, ALL)?;
    let few = watches.reserve(3).is_ok();
    let most = watches.reserve(u64::MAX).is_ok();
    Ok((few, most, polled(watches, 1)?))
}

// Whether there is room for 3 events more, and for all numbers of events; and a poll after it.
fn room_made(alloc: Global) -> Result<(bool, bool, Answer), NoMemory> {
    let mut watches = Watches::new(alloc);
    let room = make_room(&mut watches);
    drop(watches);
    room
}

#[test]
fn room_is_made(rt: HostRuntime) -> Result<(), Fail> {
    let answers = room_made(rt.alloc())?;
    assert_eq!(rt; answers, (true, false, Answer::Events(0)));
    Ok(())
}
