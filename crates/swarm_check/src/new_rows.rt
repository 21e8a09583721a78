// Rows that come, and rows that get another specification.
ghost use Rattle.std.specs.Prelude.{◌≡◌, IfOk, IfSome, None};
ghost use Rattle.swarm_objects.specs.NewRows.{first_service, new_node, next_iteration, respecified, respecified_node, same_mode, version_of_template};
ghost use Rattle.swarm_objects.specs.Same.{same_template};

use std::alloc::Global;
use std::mem::replace;
use swarm_objects::ports::kept_numbers;
use swarm_objects::{
    Availability, Duplicate, Id, Labels, List, Mode, Name, NoMemory, Node, NodeDraft, NodeRole,
    NodeState, Same, Service, ServiceSpec, Template, Version,
};

/// The row of a node that joins.
pub fn new_node(
    alloc: Global,
    version: Version,
    id: Id,
    name: &Name,
    draft: &NodeDraft,
) -> Result<Node, NoMemory>
    ensures { IfOk result (λ node. node ≡ new_node version id name.now draft.now) }
{
    let name = name.duplicate(alloc)?;
    let draft = draft.duplicate(alloc)?;
    Ok(Node {
        id,
        version,
        name,
        labels: draft.labels,
        role: draft.role,
        availability: draft.availability,
        state: NodeState::Unknown,
        down_since: 0,
        cpu: draft.cpu,
        mem: draft.mem,
        os: draft.os,
        arch: draft.arch,
        engine: draft.engine,
        remote: draft.remote,
    })
}

/// The row of a service that comes, with this specification.
pub fn first_service(
    alloc: Global,
    version: Version,
    id: Id,
    name: &Name,
    spec: ServiceSpec,
) -> Result<Service, NoMemory>
    ensures { IfOk result (λ service. service ≡ first_service version id name.now spec) }
{
    Ok(Service {
        id,
        version,
        name: name.duplicate(alloc)?,
        spec,
        previous: None,
        template_version: version,
        rolling_back: false,
        iteration: 0,
        numbers: List::new(alloc),
        run: None,
    })
}

/// The node as an update leaves it.
pub fn respecified_node(
    alloc: Global,
    version: Version,
    labels: &Labels,
    role: NodeRole,
    availability: Availability,
    node: &Node,
) -> Result<Node, NoMemory>
    ensures { IfOk result (λ new. new ≡ respecified_node version labels.now role availability node.now) }
{
    let labels = labels.duplicate(alloc)?;
    let mut new = node.duplicate(alloc)?;
    new.version = version;
    new.labels = labels;
    new.role = role;
    new.availability = availability;
    Ok(new)
}

/// The two modes are of one kind.
pub fn same_mode(one: Mode, two: Mode) -> bool
    ensures { result ≡ same_mode one two }
{
    match (one, two) {
        (Mode::Replicated(_), Mode::Replicated(_)) => true,
        (Mode::Global, Mode::Global) => true,
        (Mode::Job { .. }, Mode::Job { .. }) => true,
        _ => false,
    }
}

// The two templates are equal.
fn is_same_template(one: &Template, two: &Template) -> bool
    ensures { result ≡ same_template one.now two.now }
{
    one.same(two)
}

// The version of the template, which changes with its content.
fn version_of_template(version: Version, spec: &ServiceSpec, service: &Service) -> Version
    ensures { result ≡ version_of_template version spec.now service.now }
{
    if is_same_template(&spec.template, &service.spec.template) {
        service.template_version
    } else {
        version
    }
}

// A job is a new one after each change; none where its numbers are at an end.
fn next_iteration(mode: Mode, iteration: u64) -> Option<u64>
    ensures { IfSome result (λ next. next ≡ next_iteration mode iteration) }
{
    match mode {
        Mode::Replicated(_) | Mode::Global => Some(iteration),
        Mode::Job { .. } => iteration.checked_add(1),
    }
}

// What the service keeps as it is respecified: all but the two specifications. The one that it has is copied last, so
// that no way out drops it.
fn kept_service(
    alloc: Global,
    version: Version,
    back: bool,
    spec: &ServiceSpec,
    service: &Service,
) -> Result<Service, NoMemory>
    ensures { let there = service.now in let new = respecified version back spec.now there in
        IfOk result (λ kept. kept ≡ record new { spec = there.spec; previous = None }) }
{
    let Some(iteration) = next_iteration(service.spec.mode, service.iteration) else {
        return Err(NoMemory);
    };
    Ok(Service {
        id: service.id,
        version,
        name: service.name.duplicate(alloc)?,
        previous: None,
        template_version: version_of_template(version, spec, service),
        rolling_back: back,
        iteration,
        numbers: kept_numbers(alloc, service, spec)?,
        run: service.run.duplicate(alloc)?,
        spec: service.spec.duplicate(alloc)?,
    })
}

/// The service with the specification, after a rollback or another change.
pub fn respecified(
    alloc: Global,
    version: Version,
    back: bool,
    spec: ServiceSpec,
    service: &Service,
) -> Result<Service, NoMemory>
    ensures { IfOk result (λ new. new ≡ respecified version back spec service.now) }
{
    let mut new = kept_service(alloc, version, back, &spec, service)?;
    new.previous = Some(replace(&mut new.spec, spec));
    Ok(new)
}
