// The fields of drafts, settings and sessions, in the order of the tables.
ghost use Rattle.swarm_objects.specs.Writers.{Puts};
ghost use Rattle.script_grammar.specs.Pieces.{node_pieces, old_node_pieces, service_pieces, session_pieces, settings_pieces};
ghost use Rattle.script_grammar.specs.Texts.{pieces_words};
ghost use Rattle.script_writer.specs.Behind.{behind, rows_text};
ghost use Rattle.script_writer.specs.Groups.{machine_pieces, place_pieces, port_pieces, rest_pieces, restart_pieces, run_pieces, update_pieces};

use crate::rows::{
    put_arch, put_availability, put_condition, put_constraints, put_end, put_engine, put_failure,
    put_given, put_hosts, put_ingress, put_labels, put_mode, put_nets, put_numbers, put_order,
    put_os, put_platforms, put_remote, put_role, put_spread,
};
use script_grammar::{NumberField, Table};
use std::alloc::AllocError;
use swarm_objects::{
    Availability, Draft, Mode, Name, NodeDraft, NodeRole, Port, RestartPolicy, Settings, Template,
    UpdateConfig,
};

fn put_run(text: &mut String, mode: Mode, template: &Template) -> Result<(), AllocError>
    ensures { Puts result text.old text.new (rows_text (run_pieces mode template.now)) }
{
    put_mode(text, mode)?;
    put_end(text, template.workload.end)?;
    let numbers = [
        (NumberField::Prepare, template.workload.prepare),
        (NumberField::Start, template.workload.start),
        (NumberField::Stop, template.workload.stop),
        (NumberField::Cpu, template.cpu),
        (NumberField::Mem, template.mem),
    ];
    put_numbers(text, Table::Service, &numbers)
}

fn put_places(text: &mut String, template: &Template) -> Result<(), AllocError>
    ensures { Puts result text.old text.new (rows_text (place_pieces template.now)) }
{
    put_constraints(text, template.constraints.as_slice())?;
    put_spread(text, template.spread.as_slice())?;
    put_platforms(text, template.platforms.as_slice())?;
    let most = (NumberField::MaxReplicas, template.max_replicas);
    put_numbers(text, Table::Service, &[most])
}

fn put_restart(text: &mut String, policy: RestartPolicy) -> Result<(), AllocError>
    ensures { Puts result text.old text.new (rows_text (restart_pieces policy)) }
{
    put_condition(text, policy.condition)?;
    let numbers = [
        (NumberField::RestartDelay, policy.delay),
        (NumberField::RestartMax, policy.max_attempts),
        (NumberField::RestartWindow, policy.window),
    ];
    put_numbers(text, Table::Service, &numbers)
}

fn put_ports(text: &mut String, ports: &[Port], hosts: &[Port]) -> Result<(), AllocError>
    ensures { Puts result text.old text.new (rows_text (port_pieces ports.now hosts.now)) }
{
    put_ingress(text, ports)?;
    put_hosts(text, hosts)
}

fn put_update(text: &mut String, update: UpdateConfig) -> Result<(), AllocError>
    ensures { Puts result text.old text.new (rows_text (update_pieces update)) }
{
    let numbers = [
        (NumberField::Parallelism, update.parallelism),
        (NumberField::UpdateDelay, update.delay),
        (NumberField::Monitor, update.monitor),
    ];
    put_numbers(text, Table::Service, &numbers)?;
    put_failure(text, update.action)?;
    put_numbers(text, Table::Service, &[(NumberField::Ratio, update.ratio)])?;
    put_order(text, update.order)
}

fn put_rest(text: &mut String, draft: &Draft) -> Result<(), AllocError>
    ensures { Puts result text.old text.new (rows_text (rest_pieces draft.now)) }
{
    let spec = &draft.spec;
    put_nets(text, draft.networks.as_slice())?;
    put_restart(text, spec.template.restart)?;
    put_ports(
        text,
        spec.ports.as_slice(),
        spec.template.host_ports.as_slice(),
    )?;
    put_update(text, spec.update)
}

/// Puts the fields of a service.
pub fn put_service(text: &mut String, draft: &Draft) -> Result<(), AllocError>
    ensures { Puts result text.old text.new (behind (pieces_words (service_pieces draft.now))) }
{
    put_run(text, draft.spec.mode, &draft.spec.template)?;
    put_places(text, &draft.spec.template)?;
    put_rest(text, draft)
}

fn put_status(
    text: &mut String,
    labels: &[(Name, Name)],
    role: NodeRole,
    availability: Availability,
) -> Result<(), AllocError>
    ensures { Puts result text.old text.new (rows_text (old_node_pieces labels.now role availability)) }
{
    put_labels(text, labels)?;
    put_role(text, role)?;
    put_availability(text, availability)
}

/// Puts the fields of an update of a node.
pub fn put_old_node(
    text: &mut String,
    labels: &[(Name, Name)],
    role: NodeRole,
    availability: Availability,
) -> Result<(), AllocError>
    ensures { Puts result text.old text.new (behind (pieces_words (old_node_pieces labels.now role availability))) }
{
    put_status(text, labels, role, availability)
}

fn put_machine(text: &mut String, draft: &NodeDraft) -> Result<(), AllocError>
    ensures { Puts result text.old text.new (rows_text (machine_pieces draft.now)) }
{
    let numbers = [(NumberField::Cpu, draft.cpu), (NumberField::Mem, draft.mem)];
    put_numbers(text, Table::NewNode, &numbers)?;
    put_os(text, &draft.os)?;
    put_arch(text, &draft.arch)?;
    put_engine(text, draft.engine.as_slice())?;
    put_remote(text, draft.remote)
}

/// Puts the fields of a node that joins.
pub fn put_new_node(text: &mut String, draft: &NodeDraft) -> Result<(), AllocError>
    ensures { Puts result text.old text.new (behind (pieces_words (node_pieces draft.now))) }
{
    put_status(
        text,
        draft.labels.as_slice(),
        draft.role,
        draft.availability,
    )?;
    put_machine(text, draft)
}

/// Puts the fields of the cluster.
pub fn put_settings(text: &mut String, settings: &Settings) -> Result<(), AllocError>
    ensures { Puts result text.old text.new (behind (pieces_words (settings_pieces settings.now))) }
{
    let numbers = [
        (NumberField::Heartbeat, settings.heartbeat),
        (NumberField::Orphan, settings.orphan),
        (NumberField::History, settings.history),
    ];
    put_numbers(text, Table::Cluster, &numbers)
}

/// Puts the resources that a session begins with, where they are given.
pub fn put_resources(
    text: &mut String,
    cpu: Option<u64>,
    mem: Option<u64>,
) -> Result<(), AllocError>
    ensures { Puts result text.old text.new (behind (pieces_words (session_pieces cpu mem))) }
{
    put_given(text, NumberField::Cpu, cpu)?;
    put_given(text, NumberField::Mem, mem)
}
