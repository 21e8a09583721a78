// Leases, reports and the dispatcher's duties, each answer once.
ghost use Rattle.std.specs.Prelude.{◌≡◌, ◌<◌};
ghost use Rattle.swarm_objects.specs.Bounds.{far_end};
ghost use Rattle.swarm_objects.specs.Kinds.{role_of};
ghost use Rattle.swarm_objects.specs.declared.loops.Role.TheVariants as role;

use crate::small_rows::{pair, task};
use std::alloc::Global;
use std::test::Fail;
use swarm_objects::{Change, Desired, Duty, Id, List, Ms, NoMemory, NodeState, Refusal, TaskState};
use swarm_sessions::{Sessions, changes, least_dispatcher, status_check};

// Leases. An answer is 0 with the deadline, or the refusal's place in the list of refusals with what it carries.

fn number_of(refusal: &Refusal) -> (u64, u64) {
    match refusal {
        Refusal::InvalidSession(None) => (12, 0),
        Refusal::InvalidSession(Some(session)) => (12, *session),
        Refusal::SessionExpired(deadline) => (13, *deadline),
        Refusal::NotThisNode(task) => (14, *task),
        Refusal::BadState(_) => (15, 0),
        _ => (99, 0),
    }
}

// Session 3 of node 1, begun at 0.
fn begin(sessions: &mut Sessions) -> Result<(), NoMemory> {
    sessions.begin(1, 3, 0, 5_000)
}

fn beat(sessions: &mut Sessions, session: Id, now: Ms) -> (u64, u64)
    requires { now < far_end }
{
    match sessions.beat(1, session, now, 5_000) {
        Ok(deadline) => (0, deadline),
        Err(refusal) => number_of(&refusal),
    }
}

fn admitted(sessions: &Sessions, node: Id, session: Id, now: Ms) -> (u64, u64) {
    match sessions.admit(node, session, now) {
        Ok(()) => (0, 0),
        Err(refusal) => number_of(&refusal),
    }
}

// What a beat before the deadline is answered, one at it, and one of another session.
fn beats(alloc: Global) -> Result<[(u64, u64); 3], NoMemory> {
    let mut sessions = Sessions::new(alloc);
    let begun = begin(&mut sessions);
    let answers = [
        beat(&mut sessions, 3, 14_999),
        beat(&mut sessions, 3, 29_999),
        beat(&mut sessions, 2, 0),
    ];
    drop(sessions);
    begun?;
    Ok(answers)
}

#[test]
fn beats_until_the_deadline(rt: HostRuntime) -> Result<(), Fail> {
    let answers = beats(rt.alloc())?;
    assert_eq!(rt; answers, [(0, 29_999), (13, 29_999), (12, 3)]);
    Ok(())
}

// Whether the session is admitted before its deadline and at it, and another one, and one of another node.
fn admissions(alloc: Global) -> Result<[(u64, u64); 4], NoMemory> {
    let mut sessions = Sessions::new(alloc);
    let begun = begin(&mut sessions);
    let answers = [
        admitted(&sessions, 1, 3, 14_999),
        admitted(&sessions, 1, 3, 15_000),
        admitted(&sessions, 1, 2, 0),
        admitted(&sessions, 2, 3, 0),
    ];
    drop(sessions);
    begun?;
    Ok(answers)
}

#[test]
fn admits_the_live_session(rt: HostRuntime) -> Result<(), Fail> {
    let answers = admissions(rt.alloc())?;
    assert_eq!(rt; answers, [(0, 0), (13, 15_000), (12, 3), (12, 0)]);
    Ok(())
}

// The id of the node's session, 0 where it has none.
fn held(sessions: &Sessions, node: Id) -> Id {
    match sessions.get(node) {
        Some(session) => session.id,
        None => 0,
    }
}

// The sessions of nodes 1, 2 and 5.
fn all_held(sessions: &Sessions) -> [Id; 3] {
    [held(sessions, 1), held(sessions, 2), held(sessions, 5)]
}

fn hold(sessions: &mut Sessions) -> Result<([Id; 3], [Id; 3]), NoMemory> {
    begin(sessions)?;
    sessions.begin(5, 7, 0, 5_000)?;
    sessions.begin(2, 8, 0, 5_000)?;
    sessions.begin(1, 9, 0, 5_000)?;
    let all = all_held(sessions);
    sessions.remove(2);
    Ok((all, all_held(sessions)))
}

// Which sessions there are where the first node's began anew, and where the second node's was removed.
fn held_then(alloc: Global) -> Result<([Id; 3], [Id; 3]), NoMemory> {
    let mut sessions = Sessions::new(alloc);
    let held = hold(&mut sessions);
    drop(sessions);
    held
}

#[test]
fn sessions_come_and_go(rt: HostRuntime) -> Result<(), Fail> {
    let answers = held_then(rt.alloc())?;
    assert_eq!(rt; answers, ([9, 8, 7], [9, 0, 7]));
    Ok(())
}

fn held_in_room(alloc: Global) -> Result<Id, NoMemory> {
    let mut sessions = Sessions::new(alloc);
    let reserved = sessions.reserve(2);
    let held = held(&sessions, 1);
    drop(sessions);
    reserved?;
    Ok(held)
}

#[test]
fn room_is_taken_before(rt: HostRuntime) -> Result<(), Fail> {
    assert_eq!(rt; held_in_room(rt.alloc())?, 0);
    Ok(())
}

// The dispatcher's duties, in a world of node 1 and task 2 on it.

// 1 and the node that expires, 2 and the task that is orphaned, or 0.
fn number_and_row(duty: Option<Duty>) -> (u64, Id) {
    match duty {
        Some(Duty::Expire(node)) => (1, node),
        Some(Duty::Orphan(task)) => (2, task),
        _ => (0, 0),
    }
}

fn first(alloc: Global, now: Ms, up: NodeState) -> Result<(u64, Id), NoMemory>
    requires { now < far_end }
{
    let pair = pair(alloc, now, up, TaskState::Running, Desired::Running)?;
    let duty = least_dispatcher(&pair);
    drop(pair);
    Ok(number_and_row(duty))
}

#[test]
fn node_without_a_live_session_falls(rt: HostRuntime) -> Result<(), Fail> {
    assert_eq!(rt; first(rt.alloc(), 0, NodeState::Ready)?, (1, 1));
    Ok(())
}

#[test]
fn tasks_of_a_fallen_node_are_orphaned(rt: HostRuntime) -> Result<(), Fail> {
    assert_eq!(rt; first(rt.alloc(), 1_499, NodeState::Down)?, (0, 0));
    assert_eq!(rt; first(rt.alloc(), 1_500, NodeState::Down)?, (2, 2));
    Ok(())
}

// 1 and since when the node is down, 2 and since when the task is orphaned, or 0, of the first change.
fn seen(changes: &[Change]) -> (u64, Ms) {
    match changes {
        [Change::PutNode(node)] if node.is_down() => (1, node.down_since),
        [Change::PutTask(task)] if task.state == TaskState::Orphaned => (2, task.since),
        _ => (0, 0),
    }
}

fn seen_of(changes: &Result<List<Change>, NoMemory>) -> Result<(u64, Ms), NoMemory> {
    match changes {
        Ok(changes) => Ok(seen(changes.as_slice())),
        Err(NoMemory) => Err(NoMemory),
    }
}

// What the duty changes at 2,000.
fn changed(alloc: Global, duty: Duty) -> Result<(u64, Ms), NoMemory>
    requires { role_of duty ≡ role.Dispatcher }
{
    let pair = pair(
        alloc,
        2_000,
        NodeState::Ready,
        TaskState::Running,
        Desired::Running,
    )?;
    let changes = changes(alloc, &pair, 9, duty);
    drop(pair);
    let seen = seen_of(&changes);
    drop(changes);
    seen
}

#[test]
fn what_the_duties_change(rt: HostRuntime) -> Result<(), Fail> {
    assert_eq!(rt; changed(rt.alloc(), Duty::Expire(1))?, (1, 2_000));
    assert_eq!(rt; changed(rt.alloc(), Duty::Orphan(2))?, (2, 2_000));
    assert_eq!(rt; changed(rt.alloc(), Duty::Expire(4))?, (0, 0));
    Ok(())
}

// Reports.

fn reported(
    alloc: Global,
    node: Id,
    seen: TaskState,
    state: TaskState,
) -> Result<(u64, u64), NoMemory> {
    let task = task(alloc, Some(1), seen, Desired::Running)?;
    let checked = status_check(&task, node, state);
    drop(task);
    match checked {
        Ok(()) => Ok((0, 0)),
        Err(refusal) => Ok(number_of(&refusal)),
    }
}

#[test]
fn reports_of_a_node(rt: HostRuntime) -> Result<(), Fail> {
    let alloc = rt.alloc();
    let running = TaskState::Running;
    assert_eq!(rt; reported(alloc, 1, running, TaskState::Accepted)?, (0, 0));
    assert_eq!(rt; reported(alloc, 1, running, TaskState::Rejected)?, (0, 0));
    assert_eq!(rt; reported(alloc, 1, running, TaskState::Assigned)?, (15, 0));
    assert_eq!(rt; reported(alloc, 1, running, TaskState::Remove)?, (15, 0));
    Ok(())
}

#[test]
fn reports_of_another_node(rt: HostRuntime) -> Result<(), Fail> {
    let alloc = rt.alloc();
    let running = TaskState::Running;
    assert_eq!(rt; reported(alloc, 4, running, running)?, (14, 2));
    assert_eq!(rt; reported(alloc, 1, TaskState::Pending, running)?, (14, 2));
    Ok(())
}
