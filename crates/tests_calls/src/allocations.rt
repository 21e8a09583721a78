// The first duties of the allocator about a service and its new task, and what they change.
ghost use Rattle.std.specs.Prelude.{◌≡◌, IfOk, true};
ghost use Rattle.swarm_objects.specs.Bounds.{is_near_service, is_near_task};
ghost use Rattle.swarm_objects.specs.Kinds.{role_of};
ghost use Rattle.swarm_objects.specs.declared.loops.Role.TheVariants as role;
ghost use Rattle.swarm_plain.specs.Plain.{tables_of};
ghost use Rattle.swarm_objects.specs.Usable.{IsUsable};

use crate::lone_task::task;
use std::alloc::Global;
use std::test::Fail;
use swarm_objects::{
    Change, Desired, Duty, Id, List, Mode, Name, NoMemory, Note, Port, Service, ServiceSpec,
    Settings, Shared, Task, TaskState, Template, UpdateConfig, list_of,
};
use swarm_plain::Plain;

/// A service with id 7 and these ports.
pub fn service(alloc: Global, name: Name, ports: List<Port>) -> Result<Service, NoMemory>
    ensures id { IfOk result (λ service. service.id ≡ 7) }
    ensures near { IfOk result (λ service. is_near_service service ≡ true) }
{
    Ok(Service {
        id: 7,
        version: 1,
        name,
        spec: ServiceSpec {
            mode: Mode::usual(),
            template: Shared::new(alloc, Template::usual(alloc))?,
            ports,
            update: UpdateConfig::usual(),
        },
        previous: None,
        template_version: 1,
        rolling_back: false,
        iteration: 0,
        numbers: List::new(alloc),
        run: None,
    })
}

// Its new task, on these networks.
fn new_task(alloc: Global, networks: List<Id>) -> Result<Task, NoMemory>
    ensures id { IfOk result (λ task. task.id ≡ 1) }
    ensures near { IfOk result (λ task. is_near_task task ≡ true) }
{
    let mut template = Template::usual(alloc);
    template.networks = networks;
    let template = Shared::new(alloc, template)?;
    let mut task = task(alloc, TaskState::New, Desired::Running)?;
    task.template = template;
    Ok(task)
}

// The world with both alone.
#[tactic(auto, using(crate::proofs::Lone::usable_two))]
fn world(alloc: Global, ports: List<Port>, networks: List<Id>) -> Result<Plain, NoMemory>
    ensures { IfOk result (λ plain. IsUsable (tables_of plain)) }
{
    let service = service(alloc, Name::new(alloc, "web")?, ports)?;
    let services = list_of(alloc, service)?;
    let tasks = list_of(alloc, new_task(alloc, networks)?)?;
    Ok(Plain {
        alloc,
        entries: 1,
        clock: 0,
        next_id: 8,
        nodes: List::new(alloc),
        services,
        tasks,
        networks: List::new(alloc),
        attempts: List::new(alloc),
        sessions: List::new(alloc),
        settings: Settings::usual(),
        sent: List::new(alloc),
        agents: List::new(alloc),
        watchers: List::new(alloc),
        events: List::new(alloc),
        halted: false,
    })
}

fn open_port(alloc: Global) -> Result<List<Port>, NoMemory> {
    list_of(
        alloc,
        Port {
            target: 80,
            number: None,
            udp: false,
        },
    )
}

fn first(alloc: Global, ports: List<Port>, networks: List<Id>) -> Result<Option<Duty>, NoMemory> {
    let plain = world(alloc, ports, networks)?;
    let duty = swarm_alloc::least(&plain);
    drop(plain);
    Ok(duty)
}

#[test]
fn a_port_comes_before_an_address(rt: HostRuntime) -> Result<(), Fail> {
    let alloc = rt.alloc();
    assert_eq!(rt;
        first(alloc, open_port(alloc)?, List::new(alloc))?,
        Some(Duty::Port(7, 80, false))
    );
    assert_eq!(rt;
        first(alloc, List::new(alloc), List::new(alloc))?,
        Some(Duty::Address(1))
    );
    Ok(())
}

// Network 9 isn't there.
#[test]
fn a_network_without_addresses_is_noted(rt: HostRuntime) -> Result<(), Fail> {
    let alloc = rt.alloc();
    let networks = list_of(alloc, 9)?;
    assert_eq!(rt;
        first(alloc, List::new(alloc), networks)?,
        Some(Duty::Note(1))
    );
    Ok(())
}

// The number that the one changed service has.
fn number_of(changes: &Result<List<Change>, NoMemory>) -> Result<Option<u16>, NoMemory> {
    let Ok(changes) = changes else {
        return Err(NoMemory);
    };
    match changes.as_slice() {
        [Change::PutService(service)] => match service.numbers.as_slice() {
            [given] => Ok(Some(given.number)),
            _ => Ok(None),
        },
        _ => Ok(None),
    }
}

// The state and the note that the one changed task has.
fn put_in(changes: &Result<List<Change>, NoMemory>) -> Result<Option<(TaskState, Note)>, NoMemory> {
    let Ok(changes) = changes else {
        return Err(NoMemory);
    };
    match changes.as_slice() {
        [Change::PutTask(task)] => Ok(Some((task.state, task.note))),
        _ => Ok(None),
    }
}

fn changes_of(
    alloc: Global,
    ports: List<Port>,
    networks: List<Id>,
    duty: Duty,
) -> Result<List<Change>, NoMemory>
    requires { role_of duty ≡ role.Allocator }
{
    let plain = world(alloc, ports, networks)?;
    let changes = swarm_alloc::changes(alloc, &plain, 2, duty);
    drop(plain);
    changes
}

fn given_number(alloc: Global) -> Result<Option<u16>, NoMemory> {
    let ports = open_port(alloc)?;
    let changes = changes_of(alloc, ports, List::new(alloc), Duty::Port(7, 80, false));
    let number = number_of(&changes);
    drop(changes);
    number
}

fn changed(
    alloc: Global,
    networks: List<Id>,
    duty: Duty,
) -> Result<Option<(TaskState, Note)>, NoMemory>
    requires { role_of duty ≡ role.Allocator }
{
    let changes = changes_of(alloc, List::new(alloc), networks, duty);
    let put = put_in(&changes);
    drop(changes);
    put
}

#[test]
fn the_first_number_is_given(rt: HostRuntime) -> Result<(), Fail> {
    assert_eq!(rt; given_number(rt.alloc())?, Some(30_000));
    Ok(())
}

#[test]
fn an_addressed_task_is_pending(rt: HostRuntime) -> Result<(), Fail> {
    let alloc = rt.alloc();
    assert_eq!(rt;
        changed(alloc, List::new(alloc), Duty::Address(1))?,
        Some((TaskState::Pending, Note::Empty))
    );
    let networks = list_of(alloc, 9)?;
    assert_eq!(rt;
        changed(alloc, networks, Duty::Note(1))?,
        Some((TaskState::New, Note::NoAddress(9)))
    );
    Ok(())
}
