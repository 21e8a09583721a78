// The duties on replicated services, and on tasks whose service is gone.
ghost use Rattle.std.specs.Prelude.{◌≡◌, ◌==◌, ◌&&◌, ◌++◌, IfOk, None, OnErr, OnOk, flat_map, option_to_list};
ghost use Rattle.std.specs.List.{list_any};
ghost use Rattle.swarm_objects.specs.Bounds.{IsSmall};
ghost use Rattle.swarm_objects.specs.Duties.{effect_by, is_due};
ghost use Rattle.swarm_objects.specs.Kinds.{bit, same_duty};
ghost use Rattle.swarm_objects.specs.Loops.Replicated.{create_duty, crowd, down_cmp, down_duty, first_to_go, is_gone, is_up, place_crowd, replicated};
ghost use Rattle.swarm_objects.specs.Loops.Words.{duty_where};
ghost use Rattle.swarm_objects.specs.Rows.{keep_least};
ghost use Rattle.swarm_objects.specs.Tasks.Places.{is_in_place};
ghost use Rattle.swarm_objects.specs.Tasks.Words.{is_live, is_of, is_on, is_running};
ghost use Rattle.swarm_plain.specs.Plain.{world_of};

use std::cmp::Ordering;
use swarm_objects::{
    Desired, Duty, Id, List, Mode, NoMemory, Place, Rows, Service, Task, Version, add,
};
use swarm_plain::Plain;
use swarm_plain::held::{is_at, slots, tally};
use swarm_plain::tasks::{create_task, remove_place, want};

// The service of the task is gone, and the task isn't to be removed yet.
fn is_gone<R: Rows>(rows: &R, task: &Task) -> bool
    ensures { result ≡ is_gone (R.tables rows.now) task.now }
{
    !task.has_service(rows) && task.is_kept()
}

// It is live, and runs.
fn is_live_running(task: &Task) -> bool
    ensures { result ≡ (is_live task.now && is_running task.now) }
{
    task.is_live() && task.is_running()
}

// A live task that runs stands in the place; by the scan.
fn any_up(service: &Service, place: Place, tasks: &[Task]) -> bool
    ensures { result ≡ list_any
        (λ x. is_in_place service.now place x && (is_live x && is_running x)) tasks.now }
{
    tasks.iter().any(|task| task.is_in_place(service, place) && is_live_running(task))
}

// A live task that runs stands in the place.
fn is_up(plain: &Plain, service: &Service, number: u64) -> bool
    ensures { result ≡ is_up (world_of plain.now).tables service.now number }
{
    let place = service.spec.mode.place_at(number);
    any_up(service, place, plain.tasks.as_slice())
}

// It is a live task of the service on the node.
fn is_crowding(service: Id, node: Id, task: &Task) -> bool
    ensures { result ≡ (is_of service task.now && is_live task.now && is_on node task.now) }
{
    task.is_of(service) && task.is_live() && task.is_on(node)
}

// The service's live tasks on the node.
fn crowd(plain: &Plain, service: &Service, node: Option<Id>) -> usize
    ensures { result ≡ crowd (world_of plain.now).tables service.now node }
{
    let Some(node) = node else {
        return 0;
    };
    plain
        .tasks
        .as_slice()
        .iter()
        .filter(|task| is_crowding(service.id, node, task))
        .count()
}

// The most of these on a node of the place's live tasks.
fn place_crowd(plain: &Plain, service: &Service, number: u64) -> usize
    ensures { result ≡ place_crowd (world_of plain.now).tables service.now number }
{
    let mut most = 0;
    for task in plain.tasks.as_slice() {
        if is_at(service, number, task) && task.is_live() {
            most = most.max(crowd(plain, service, task.node));
        }
    }
    most
}

// Yes is 1, and no is 0.
fn bit(yes: bool) -> u8
    ensures { result ≡ bit yes }
{
    if yes { 1 } else { 0 }
}

// Which of two places is given up first: one without a running task, then one on a fuller node, then the greater slot.
fn compare(plain: &Plain, service: &Service, a: u64, b: u64) -> Ordering
    ensures { result ≡ down_cmp (world_of plain.now).tables service.now a b }
{
    bit(is_up(plain, service, a))
        .cmp(&bit(is_up(plain, service, b)))
        .then(place_crowd(plain, service, b).cmp(&place_crowd(plain, service, a)))
        .then(b.cmp(&a))
}

// The first to go so far, or this one where it goes before.
fn sooner(plain: &Plain, service: &Service, first: Option<u64>, number: u64) -> Option<u64>
    ensures { result ≡ keep_least (down_cmp (world_of plain.now).tables service.now) first number }
{
    match first {
        Some(held) if compare(plain, service, number, held) != Ordering::Less => first,
        _ => Some(number),
    }
}

// The first of the held places to go.
fn first_to_go(plain: &Plain, service: &Service) -> Option<u64>
    ensures { result ≡ first_to_go (world_of plain.now).tables service.now }
{
    let mut first = None;
    for slot in slots(plain, service) {
        if slot.is_held {
            first = sooner(plain, service, first, slot.number);
        }
    }
    first
}

// The place that the service gives up, where more are held than there are to be replicas.
fn down_duty(plain: &Plain, service: &Service) -> Option<Duty>
    ensures { let t = (world_of plain.now).tables in
        option_to_list result ≡ down_duty t service.now service.now.spec.mode }
{
    let Mode::Replicated(replicas) = service.spec.mode else {
        return None;
    };
    if tally(plain, service, 1).held <= replicas {
        return None;
    }
    first_to_go(plain, service).map(|slot| Duty::Down(service.id, slot))
}

// The slot in which the service gets a new task, where fewer are held than there are to be replicas.
fn create_duty(plain: &Plain, service: &Service) -> Option<Duty>
    ensures { let t = (world_of plain.now).tables in
        option_to_list result ≡ create_duty t service.now service.now.spec.mode }
{
    let Mode::Replicated(replicas) = service.spec.mode else {
        return None;
    };
    let tally = tally(plain, service, 1);
    if replicas <= tally.held {
        return None;
    }
    Some(Duty::ReplicatedCreate(service.id, tally.gap))
}

// The tasks that go with their services.
fn put_gone(plain: &Plain, duties: &mut List<Duty>) -> Result<(), NoMemory>
    ensures { let t = (world_of plain.now).tables in
        OnOk result (duties.new ≡ duties.old ++ duty_where (is_gone t) (λ x. Duty.Gone x.id) t.tasks) }
{
    for task in plain.tasks.as_slice() {
        if is_gone(plain, task) {
            add(duties, Duty::Gone(task.id))?;
        }
    }
    Ok(())
}

// The places that are given up.
fn put_downs(plain: &Plain, duties: &mut List<Duty>) -> Result<(), NoMemory>
    ensures { let t = (world_of plain.now).tables in
        OnOk result (duties.new ≡ duties.old ++ flat_map (λ s. down_duty t s s.spec.mode) t.services) }
{
    for service in plain.services.as_slice() {
        if let Some(duty) = down_duty(plain, service) {
            add(duties, duty)?;
        }
    }
    Ok(())
}

// The new tasks.
fn put_creates(plain: &Plain, duties: &mut List<Duty>) -> Result<(), NoMemory>
    ensures { let t = (world_of plain.now).tables in
        OnOk result (duties.new ≡ duties.old ++ flat_map (λ s. create_duty t s s.spec.mode) t.services) }
{
    for service in plain.services.as_slice() {
        if let Some(duty) = create_duty(plain, service) {
            add(duties, duty)?;
        }
    }
    Ok(())
}

/// What there is to do about replicated services.
pub fn replicated_duties(plain: &Plain) -> Result<List<Duty>, NoMemory>
    ensures { IfOk result (λ duties. duties ≡ replicated (world_of plain.now).tables) }
{
    let mut duties = List::new(plain.alloc);
    put_gone(plain, &mut duties)?;
    put_downs(plain, &mut duties)?;
    put_creates(plain, &mut duties)?;
    Ok(duties)
}

// A task with this id is to go with its service; by the scan.
fn any_gone(plain: &Plain, id: Id) -> bool
    ensures { let t = (world_of plain.now).tables in result ≡ list_any (λ x. x.id == id && is_gone t x) t.tasks }
{
    plain
        .tasks
        .as_slice()
        .iter()
        .any(|task| task.id == id && is_gone(plain, task))
}

/// The task with this id is to go with its service.
pub fn is_gone_due(plain: &Plain, id: Id) -> bool
    ensures { result ≡ is_due (world_of plain.now) (Duty.Gone id) }
{
    any_gone(plain, id)
}

// The duty is that this service gives up this slot.
fn is_down(due: Option<Duty>, service: Id, slot: u64) -> bool
    ensures { result ≡ list_any (same_duty (Duty.Down service slot)) (option_to_list due) }
{
    match due {
        Some(Duty::Down(id, place)) => id == service && place == slot,
        _ => false,
    }
}

// The service is this one, and gives up this slot.
fn gives_up(plain: &Plain, service: &Service, id: Id, slot: u64) -> bool
    ensures { let t = (world_of plain.now).tables in let duties = down_duty t service.now service.now.spec.mode in
        result ≡ list_any (same_duty (Duty.Down id slot)) duties }
{
    if service.id != id {
        return false;
    }
    is_down(down_duty(plain, service), id, slot)
}

/// The service with this id is to give up this slot.
pub fn is_down_due(plain: &Plain, id: Id, slot: u64) -> bool
    ensures { result ≡ is_due (world_of plain.now) (Duty.Down id slot) }
{
    for service in plain.services.as_slice() {
        if gives_up(plain, service, id, slot) {
            return true;
        }
    }
    false
}

// The duty is a new task in this slot of the service.
fn is_create(due: Option<Duty>, service: Id, slot: u64) -> bool
    ensures { result ≡ list_any (same_duty (Duty.ReplicatedCreate service slot)) (option_to_list due) }
{
    match due {
        Some(Duty::ReplicatedCreate(id, place)) => id == service && place == slot,
        _ => false,
    }
}

// The service is this one, and gets a new task in this slot.
fn gets_slot(plain: &Plain, service: &Service, id: Id, slot: u64) -> bool
    ensures { let t = (world_of plain.now).tables in let duties = create_duty t service.now service.now.spec.mode in
        result ≡ list_any (same_duty (Duty.ReplicatedCreate id slot)) duties }
{
    if service.id != id {
        return false;
    }
    is_create(create_duty(plain, service), id, slot)
}

/// The service with this id is to get a new task in this slot.
pub fn is_replicated_create_due(plain: &Plain, id: Id, slot: u64) -> bool
    ensures { result ≡ is_due (world_of plain.now) (Duty.ReplicatedCreate id slot) }
{
    for service in plain.services.as_slice() {
        if gets_slot(plain, service, id, slot) {
            return true;
        }
    }
    false
}

/// The task goes with its service.
pub fn remove_gone(plain: &mut Plain, version: Version, task: Id)
    ensures { world_of plain.new ≡ effect_by version (world_of plain.old) (Duty.Gone task) }
{
    want(plain, version, task, Desired::Remove);
}

/// The service gives up the slot.
pub fn scale_down(plain: &mut Plain, version: Version, service: Id, slot: u64)
    ensures { world_of plain.new ≡ effect_by version (world_of plain.old) (Duty.Down service slot) }
{
    remove_place(plain, version, service, slot);
}

/// The service gets a new task in the slot.
pub fn create_replica(
    plain: &mut Plain,
    version: Version,
    service: Id,
    slot: u64,
) -> Result<(), NoMemory>
    requires { IsSmall (world_of plain.old) }
    ensures ok { OnOk result
        (world_of plain.new ≡ effect_by version (world_of plain.old) (Duty.ReplicatedCreate service slot)) }
    ensures err { OnErr result (world_of plain.new ≡ world_of plain.old) }
{
    create_task(plain, version, service, slot, Desired::Running)
}
