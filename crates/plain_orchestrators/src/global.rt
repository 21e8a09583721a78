// The duties on global services.
ghost use Rattle.std.specs.Prelude.{◌≡◌, ◌==◌, ◌&&◌, ◌++◌, IfOk, OnErr, OnOk, flat_map};
ghost use Rattle.std.specs.List.{list_any};
ghost use Rattle.swarm_plain.specs.Inside.OfPlace.{is_global, missing_on};
ghost use Rattle.swarm_objects.specs.Bounds.{IsSmall};
ghost use Rattle.swarm_objects.specs.Duties.{effect_by, is_due};
ghost use Rattle.swarm_objects.specs.Loops.Global.{come_duties, global, is_missing, is_to_leave, leave_duties, wants_here};
ghost use Rattle.swarm_plain.specs.Plain.{world_of};

use swarm_global::{may_stay_on, wants_here};
use swarm_objects::{Desired, Duty, Id, List, Mode, NoMemory, Node, Service, Version, add};
use swarm_plain::Plain;
use swarm_plain::held::{is_held_place, place_numbers};
use swarm_plain::tasks::{create_task, remove_place};

// The service's place is held, though it may not stay there.
fn is_to_leave(plain: &Plain, service: &Service, node: Id) -> bool
    ensures { result ≡ is_to_leave (world_of plain.now).tables service.now node }
{
    if may_stay_on(plain, service, node) {
        false
    } else {
        is_held_place(plain, service, node)
    }
}

// The node is to have a task of the service, and its place isn't held.
fn is_missing(plain: &Plain, service: &Service, node: &Node) -> bool
    ensures { result ≡ is_missing (world_of plain.now).tables service.now node.now }
{
    wants_here(service, node) && !is_held_place(plain, service, node.id)
}

// The nodes that the service leaves.
fn put_leaves_of(plain: &Plain, service: &Service, duties: &mut List<Duty>) -> Result<(), NoMemory>
    ensures { let t = (world_of plain.now).tables in
        OnOk result (duties.new ≡ duties.old ++ leave_duties t service.now service.now.spec.mode) }
{
    let Mode::Global = service.spec.mode else {
        return Ok(());
    };
    let numbers = place_numbers(plain, service)?;
    for node in numbers.as_slice() {
        if is_to_leave(plain, service, *node) {
            add(duties, Duty::Leave(service.id, *node))?;
        }
    }
    Ok(())
}

// The nodes that the service comes to.
fn put_comes_of(plain: &Plain, service: &Service, duties: &mut List<Duty>) -> Result<(), NoMemory>
    ensures { let t = (world_of plain.now).tables in
        OnOk result (duties.new ≡ duties.old ++ come_duties t service.now service.now.spec.mode) }
{
    let Mode::Global = service.spec.mode else {
        return Ok(());
    };
    for node in plain.nodes.as_slice() {
        if is_missing(plain, service, node) {
            add(duties, Duty::GlobalCreate(service.id, node.id))?;
        }
    }
    Ok(())
}

// The nodes that services leave.
fn put_leaves(plain: &Plain, duties: &mut List<Duty>) -> Result<(), NoMemory>
    ensures { let t = (world_of plain.now).tables in
        OnOk result (duties.new ≡ duties.old ++ flat_map (λ s. leave_duties t s s.spec.mode) t.services) }
{
    for service in plain.services.as_slice() {
        put_leaves_of(plain, service, duties)?;
    }
    Ok(())
}

// The nodes that services come to.
fn put_comes(plain: &Plain, duties: &mut List<Duty>) -> Result<(), NoMemory>
    ensures { let t = (world_of plain.now).tables in
        OnOk result (duties.new ≡ duties.old ++ flat_map (λ s. come_duties t s s.spec.mode) t.services) }
{
    for service in plain.services.as_slice() {
        put_comes_of(plain, service, duties)?;
    }
    Ok(())
}

/// What there is to do about global services.
pub fn global_duties(plain: &Plain) -> Result<List<Duty>, NoMemory>
    ensures { IfOk result (λ duties. duties ≡ global (world_of plain.now).tables) }
{
    let mut duties = List::new(plain.alloc);
    put_leaves(plain, &mut duties)?;
    put_comes(plain, &mut duties)?;
    Ok(duties)
}

// The service has a task on each node.
fn is_global(mode: Mode) -> bool
    ensures { result ≡ is_global mode }
{
    match mode {
        Mode::Global => true,
        Mode::Replicated(_) | Mode::Job { .. } => false,
    }
}

// The service is this one, and has a task on each node.
fn is_global_with(service: &Service, id: Id) -> bool
    ensures { result ≡ (service.now.id == id && is_global service.now.spec.mode) }
{
    service.id == id && is_global(service.spec.mode)
}

// A service with this id leaves the node; by the scan.
fn any_leaves(plain: &Plain, id: Id, node: Id) -> bool
    ensures { let t = (world_of plain.now).tables in
        result ≡ list_any (λ s. s.id == id && is_global s.spec.mode && is_to_leave t s node) t.services }
{
    plain.services.as_slice().iter().any(|service| is_global_with(service, id)
        && is_to_leave(plain, service, node))
}

/// The service with this id is to leave the node.
pub fn is_leave_due(plain: &Plain, id: Id, node: Id) -> bool
    ensures { result ≡ is_due (world_of plain.now) (Duty.Leave id node) }
{
    any_leaves(plain, id, node)
}

// The node with this id is to have a task of the service.
fn is_missing_on(plain: &Plain, service: &Service, id: Id) -> bool
    ensures { result ≡ missing_on (world_of plain.now).tables service.now id }
{
    plain
        .nodes
        .as_slice()
        .iter()
        .any(|node| node.id == id && is_missing(plain, service, node))
}

// A service with this id comes to the node; by the scan.
fn any_comes(plain: &Plain, id: Id, node: Id) -> bool
    ensures { let t = (world_of plain.now).tables in
        result ≡ list_any (λ s. s.id == id && is_global s.spec.mode && missing_on t s node) t.services }
{
    plain.services.as_slice().iter().any(|service| is_global_with(service, id)
        && is_missing_on(plain, service, node))
}

/// The service with this id is to get a new task on the node.
pub fn is_global_create_due(plain: &Plain, id: Id, node: Id) -> bool
    ensures { result ≡ is_due (world_of plain.now) (Duty.GlobalCreate id node) }
{
    any_comes(plain, id, node)
}

/// The service leaves the node.
pub fn leave_node(plain: &mut Plain, version: Version, service: Id, node: Id)
    ensures { world_of plain.new ≡ effect_by version (world_of plain.old) (Duty.Leave service node) }
{
    remove_place(plain, version, service, node);
}

/// The service gets a new task on the node.
pub fn create_on_node(
    plain: &mut Plain,
    version: Version,
    service: Id,
    node: Id,
) -> Result<(), NoMemory>
    requires { IsSmall (world_of plain.old) }
    ensures ok { OnOk result
        (world_of plain.new ≡ effect_by version (world_of plain.old) (Duty.GlobalCreate service node)) }
    ensures err { OnErr result (world_of plain.new ≡ world_of plain.old) }
{
    create_task(plain, version, service, node, Desired::Running)
}
