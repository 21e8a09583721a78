// What the fields of a line say together.
ghost use Rattle.std.specs.Prelude.{◌≡◌, IfOk, filter_map};
ghost use Rattle.swarm_objects.specs.Defaults.{usual_mode, usual_node, usual_restart, usual_update, usual_workload};
ghost use Rattle.script_grammar.specs.Drafts.{named_or, number_in, number_named, number_given, mode_in, end_in, restart_in, failure_in, order_in, role_in, availability_in, os_in, arch_in, remote_in, constraint_in, spread_in, net_in, port_in, host_in, platform_in, draft_of, node_draft_of, settings_of};

use crate::labels::{engines_named, labels_named};
use crate::tables::number_default;
use script_grammar::{Field, NumberField, Table};
use std::alloc::Global;
use swarm_objects::{
    Availability, Constraint, Draft, Duplicate, End, FailureAction, Key, List, Mode, Name,
    NoMemory, NodeDraft, NodeRole, Platform, Port, RestartCondition, RestartPolicy, ServiceSpec,
    Settings, Shared, Template, UpdateConfig, UpdateOrder, Workload, add,
};

// The number in the field, if it is this one.
fn number_in(which: NumberField, field: &Field) -> Option<u64>
    ensures { result ≡ number_in which field.now }
{
    match field {
        Field::Number(other, number) if *other == which => Some(*number),
        _ => None,
    }
}

fn number_named(table: Table, which: NumberField, fields: &[Field]) -> u64
    ensures { result ≡ number_named table which fields.now }
{
    for field in fields {
        if let Some(number) = number_in(which, field) {
            return number;
        }
    }
    number_default(table, which)
}

/// The number that the first such field says, where there is one.
pub fn number_given(which: NumberField, fields: &[Field]) -> Option<u64>
    ensures { result ≡ number_given which fields.now }
{
    for field in fields {
        if let Some(number) = number_in(which, field) {
            return Some(number);
        }
    }
    None
}

fn mode_named(fields: &[Field]) -> Mode
    ensures { result ≡ named_or mode_in usual_mode fields.now }
{
    for field in fields {
        if let Field::Mode(value) = field {
            return *value;
        }
    }
    Mode::usual()
}

fn end_named(fields: &[Field]) -> End
    ensures { result ≡ named_or end_in usual_workload.end fields.now }
{
    for field in fields {
        if let Field::End(value) = field {
            return *value;
        }
    }
    Workload::usual().end
}

fn restart_named(fields: &[Field]) -> RestartCondition
    ensures { result ≡ named_or restart_in usual_restart.condition fields.now }
{
    for field in fields {
        if let Field::Restart(value) = field {
            return *value;
        }
    }
    RestartPolicy::usual().condition
}

fn failure_named(fields: &[Field]) -> FailureAction
    ensures { result ≡ named_or failure_in usual_update.action fields.now }
{
    for field in fields {
        if let Field::Failure(value) = field {
            return *value;
        }
    }
    UpdateConfig::usual().action
}

fn order_named(fields: &[Field]) -> UpdateOrder
    ensures { result ≡ named_or order_in usual_update.order fields.now }
{
    for field in fields {
        if let Field::Order(value) = field {
            return *value;
        }
    }
    UpdateConfig::usual().order
}

/// The role that the fields of a node name, or else a worker's.
pub fn role_named(fields: &[Field]) -> NodeRole
    ensures { result ≡ named_or role_in usual_node.role fields.now }
{
    for field in fields {
        if let Field::Role(value) = field {
            return *value;
        }
    }
    NodeDraft::USUAL_ROLE
}

/// The availability that the fields of a node name, or else an active node's.
pub fn availability_named(fields: &[Field]) -> Availability
    ensures { result ≡ named_or availability_in usual_node.availability fields.now }
{
    for field in fields {
        if let Field::Availability(value) = field {
            return *value;
        }
    }
    NodeDraft::USUAL_AVAILABILITY
}

fn os_named(alloc: Global, fields: &[Field]) -> Result<Name, NoMemory>
    ensures { IfOk result (λ name. name ≡ named_or os_in usual_node.os fields.now) }
{
    for field in fields {
        if let Field::Os(name) = field {
            return name.duplicate(alloc);
        }
    }
    Ok(Name::new(alloc, NodeDraft::USUAL_OS)?)
}

fn arch_named(alloc: Global, fields: &[Field]) -> Result<Name, NoMemory>
    ensures { IfOk result (λ name. name ≡ named_or arch_in usual_node.arch fields.now) }
{
    for field in fields {
        if let Field::Arch(name) = field {
            return name.duplicate(alloc);
        }
    }
    Ok(Name::new(alloc, NodeDraft::USUAL_ARCH)?)
}

fn remote_named(fields: &[Field]) -> bool
    ensures { result ≡ named_or remote_in usual_node.remote fields.now }
{
    for field in fields {
        if let Field::Remote = field {
            return true;
        }
    }
    false
}

fn constraints_named(alloc: Global, fields: &[Field]) -> Result<List<Constraint>, NoMemory>
    ensures { IfOk result (λ items. items ≡ filter_map constraint_in fields.now) }
{
    let mut items = List::new(alloc);
    for field in fields {
        if let Field::Constraint(item) = field {
            add(&mut items, item.duplicate(alloc)?)?;
        }
    }
    Ok(items)
}

fn spreads_named(alloc: Global, fields: &[Field]) -> Result<List<Key>, NoMemory>
    ensures { IfOk result (λ items. items ≡ filter_map spread_in fields.now) }
{
    let mut items = List::new(alloc);
    for field in fields {
        if let Field::Spread(item) = field {
            add(&mut items, item.duplicate(alloc)?)?;
        }
    }
    Ok(items)
}

fn nets_named(alloc: Global, fields: &[Field]) -> Result<List<Name>, NoMemory>
    ensures { IfOk result (λ items. items ≡ filter_map net_in fields.now) }
{
    let mut items = List::new(alloc);
    for field in fields {
        if let Field::Net(item) = field {
            add(&mut items, item.duplicate(alloc)?)?;
        }
    }
    Ok(items)
}

fn ports_named(alloc: Global, fields: &[Field]) -> Result<List<Port>, NoMemory>
    ensures { IfOk result (λ items. items ≡ filter_map port_in fields.now) }
{
    let mut items = List::new(alloc);
    for field in fields {
        if let Field::Port(item) = field {
            add(&mut items, item.duplicate(alloc)?)?;
        }
    }
    Ok(items)
}

fn hosts_named(alloc: Global, fields: &[Field]) -> Result<List<Port>, NoMemory>
    ensures { IfOk result (λ items. items ≡ filter_map host_in fields.now) }
{
    let mut items = List::new(alloc);
    for field in fields {
        if let Field::Host(item) = field {
            add(&mut items, item.duplicate(alloc)?)?;
        }
    }
    Ok(items)
}

fn platforms_named(alloc: Global, fields: &[Field]) -> Result<List<Platform>, NoMemory>
    ensures { IfOk result (λ items. items ≡ filter_map platform_in fields.now) }
{
    let mut items = List::new(alloc);
    for field in fields {
        if let Field::Platform(item) = field {
            add(&mut items, item.duplicate(alloc)?)?;
        }
    }
    Ok(items)
}

// How the fields of a service say that it is updated.
fn update_named(fields: &[Field]) -> UpdateConfig
    ensures { result ≡ (draft_of fields.now).spec.update }
{
    UpdateConfig {
        parallelism: number_named(Table::Service, NumberField::Parallelism, fields),
        delay: number_named(Table::Service, NumberField::UpdateDelay, fields),
        monitor: number_named(Table::Service, NumberField::Monitor, fields),
        action: failure_named(fields),
        ratio: number_named(Table::Service, NumberField::Ratio, fields),
        order: order_named(fields),
    }
}

// The template that the fields of a service say.
fn template_named(alloc: Global, fields: &[Field]) -> Result<Template, NoMemory>
    ensures { IfOk result (λ template. template ≡ (draft_of fields.now).spec.template) }
{
    Ok(Template {
        workload: Workload {
            prepare: number_named(Table::Service, NumberField::Prepare, fields),
            start: number_named(Table::Service, NumberField::Start, fields),
            stop: number_named(Table::Service, NumberField::Stop, fields),
            end: end_named(fields),
        },
        cpu: number_named(Table::Service, NumberField::Cpu, fields),
        mem: number_named(Table::Service, NumberField::Mem, fields),
        constraints: constraints_named(alloc, fields)?,
        spread: spreads_named(alloc, fields)?,
        platforms: platforms_named(alloc, fields)?,
        max_replicas: number_named(Table::Service, NumberField::MaxReplicas, fields),
        networks: List::new(alloc),
        host_ports: hosts_named(alloc, fields)?,
        restart: RestartPolicy {
            condition: restart_named(fields),
            delay: number_named(Table::Service, NumberField::RestartDelay, fields),
            max_attempts: number_named(Table::Service, NumberField::RestartMax, fields),
            window: number_named(Table::Service, NumberField::RestartWindow, fields),
        },
    })
}

/// The draft that the fields of a service say.
pub fn draft_of(alloc: Global, fields: &[Field]) -> Result<Draft, NoMemory>
    ensures { IfOk result (λ draft. draft ≡ draft_of fields.now) }
{
    let networks = nets_named(alloc, fields)?;
    let ports = ports_named(alloc, fields)?;
    Ok(Draft {
        spec: ServiceSpec {
            mode: mode_named(fields),
            template: Shared::new(alloc, template_named(alloc, fields)?)?,
            ports,
            update: update_named(fields),
        },
        networks,
    })
}

/// The draft that the fields of a node say.
pub fn node_draft_of(alloc: Global, fields: &[Field]) -> Result<NodeDraft, NoMemory>
    ensures { IfOk result (λ draft. draft ≡ node_draft_of fields.now) }
{
    Ok(NodeDraft {
        labels: labels_named(alloc, fields)?,
        role: role_named(fields),
        availability: availability_named(fields),
        cpu: number_named(Table::NewNode, NumberField::Cpu, fields),
        mem: number_named(Table::NewNode, NumberField::Mem, fields),
        os: os_named(alloc, fields)?,
        arch: arch_named(alloc, fields)?,
        engine: engines_named(alloc, fields)?,
        remote: remote_named(fields),
    })
}

/// The settings that the fields say.
pub fn settings_of(fields: &[Field]) -> Settings
    ensures { result ≡ settings_of fields.now }
{
    Settings {
        heartbeat: number_named(Table::Cluster, NumberField::Heartbeat, fields),
        orphan: number_named(Table::Cluster, NumberField::Orphan, fields),
        history: number_named(Table::Cluster, NumberField::History, fields),
    }
}
