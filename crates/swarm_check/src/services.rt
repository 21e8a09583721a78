// The rules of a service's draft.
ghost use Rattle.std.specs.Prelude.{◌≡◌, find, not};
ghost use Rattle.std.specs.List.{list_any};
ghost use Rattle.std.specs.Str.{bytes_eq};
ghost use Rattle.std.specs.Result.{result_err};
ghost use Rattle.swarm_objects.specs.Rules.Services.{service_breaks, has_alike, has_too_many_items, extent_rules};
ghost use Rattle.swarm_objects.specs.Rules.Services.{field_rules, has_wrong_hosts, has_wrong_ingress, has_wrong_exit};
ghost use Rattle.swarm_objects.specs.Rules.Services.{has_wrong_time, has_wrong_work, is_empty_job, is_host_clash};
ghost use Rattle.swarm_objects.specs.Rules.Services.{is_ingress_clash, is_label, is_too_long, is_wrong_work_time};
ghost use Rattle.swarm_objects.specs.Rules.Services.{is_zero_port, names_twice, service_rules, wants_too_many};

use swarm_objects::limits::{
    LONGEST_TIME, MOST_CPU, MOST_ITEMS, MOST_MEM, MOST_RATIO, MOST_REPLICAS,
};
use swarm_objects::ports::is_host_clash;
use swarm_objects::{Draft, End, Key, Mode, Ms, Name, Port, ServiceSpec, SpecRule, Workload};

/// The first rule that a draft of a service breaks.
pub fn check_service(draft: &Draft) -> Result<(), SpecRule>
    ensures { result_err result ≡ find (service_breaks draft.now) service_rules }
{
    check_extent(draft)?;
    check_fields(draft)
}

fn check_extent(draft: &Draft) -> Result<(), SpecRule>
    ensures { result_err result ≡ find (service_breaks draft.now) extent_rules }
{
    let spec = &draft.spec;
    if wants_too_many(&spec.mode) {
        return Err(SpecRule::Replicas);
    }
    if is_empty_job(&spec.mode) {
        return Err(SpecRule::Concurrent);
    }
    if has_wrong_time(spec) {
        return Err(SpecRule::Time);
    }
    if spec.template.cpu > MOST_CPU || spec.template.mem > MOST_MEM {
        return Err(SpecRule::Reservation);
    }
    Ok(())
}

fn check_fields(draft: &Draft) -> Result<(), SpecRule>
    ensures { result_err result ≡ find (service_breaks draft.now) field_rules }
{
    let spec = &draft.spec;
    if has_too_many_items(draft) || names_twice(draft.networks.as_slice()) {
        return Err(SpecRule::Count);
    }
    if has_wrong_ingress(spec.ports.as_slice())
        || has_wrong_hosts(spec.template.host_ports.as_slice())
    {
        return Err(SpecRule::Ports);
    }
    if has_other_key(spec.template.spread.as_slice()) {
        return Err(SpecRule::Spread);
    }
    if spec.update.ratio > MOST_RATIO {
        return Err(SpecRule::Ratio);
    }
    Ok(())
}

fn wants_too_many(mode: &Mode) -> bool
    ensures { result ≡ wants_too_many mode.now }
{
    match mode {
        Mode::Replicated(replicas) => *replicas > MOST_REPLICAS,
        Mode::Global => false,
        Mode::Job { total, .. } => *total > MOST_REPLICAS,
    }
}

fn is_empty_job(mode: &Mode) -> bool
    ensures { result ≡ is_empty_job mode.now }
{
    match mode {
        Mode::Job { concurrent, total } => *concurrent == 0 || *total == 0,
        _ => false,
    }
}

fn is_too_long(time: Ms) -> bool
    ensures { result ≡ is_too_long time }
{
    time > LONGEST_TIME
}

// Whether a time of a workload is 0 or too long.
fn is_wrong_work_time(time: Ms) -> bool
    ensures { result ≡ is_wrong_work_time time }
{
    time == 0 || is_too_long(time)
}

fn has_wrong_work(workload: &Workload) -> bool
    ensures { result ≡ has_wrong_work workload.now }
{
    is_wrong_work_time(workload.prepare)
        || is_wrong_work_time(workload.start)
        || is_wrong_work_time(workload.stop)
        || has_wrong_exit(&workload.end)
}

fn has_wrong_exit(end: &End) -> bool
    ensures { result ≡ has_wrong_exit end.now }
{
    match end {
        End::Exit(time, _) => is_wrong_work_time(*time),
        _ => false,
    }
}

fn has_wrong_time(spec: &ServiceSpec) -> bool
    ensures { result ≡ has_wrong_time spec.now }
{
    has_wrong_work(&spec.template.workload)
        || is_too_long(spec.template.restart.delay)
        || is_too_long(spec.template.restart.window)
        || is_too_long(spec.update.delay)
        || is_too_long(spec.update.monitor)
}

fn has_too_many_items(draft: &Draft) -> bool
    ensures { result ≡ has_too_many_items draft.now }
{
    let template = &draft.spec.template;
    template.constraints.len() > MOST_ITEMS
        || template.spread.len() > MOST_ITEMS
        || template.platforms.len() > MOST_ITEMS
        || draft.networks.len() > MOST_ITEMS
        || draft.spec.ports.len() > MOST_ITEMS
        || template.host_ports.len() > MOST_ITEMS
}

fn is_among(name: &Name, names: &[Name]) -> bool
    ensures { result ≡ list_any (bytes_eq name.now) names.now }
{
    names.iter().any(|other| name.as_str() == other.as_str())
}

#[tactic(auto, using(crate::proofs::Alike::alike_steps))]
fn names_twice(names: &[Name]) -> bool
    ensures { result ≡ names_twice names.now }
{
    let mut rest = names;
    while let Some((first, others)) = rest.split_first() {
        if is_among(first, others) {
            return true;
        }
        rest = others;
    }
    false
}

fn has_wrong_ingress(ports: &[Port]) -> bool
    ensures { result ≡ has_wrong_ingress ports.now }
{
    has_zero_port(ports) || has_ingress_clash(ports)
}

fn has_wrong_hosts(ports: &[Port]) -> bool
    ensures { result ≡ has_wrong_hosts ports.now }
{
    has_zero_port(ports) || has_host_clash(ports)
}

fn has_zero_port(ports: &[Port]) -> bool
    ensures { result ≡ list_any is_zero_port ports.now }
{
    ports.iter().any(is_zero_port)
}

fn is_zero_port(port: &Port) -> bool
    ensures { result ≡ is_zero_port port.now }
{
    port.target == 0 || port.number == Some(0)
}

fn is_ingress_clash(one: &Port, two: &Port) -> bool
    ensures { result ≡ is_ingress_clash one.now two.now }
{
    one.udp == two.udp && (one.target == two.target || is_host_clash(one, two))
}

fn clashes_as_host(port: &Port, ports: &[Port]) -> bool
    ensures { result ≡ list_any (is_host_clash port.now) ports.now }
{
    ports.iter().any(|other| is_host_clash(port, other))
}

#[tactic(auto, using(crate::proofs::Alike::alike_steps))]
fn has_host_clash(ports: &[Port]) -> bool
    ensures { result ≡ has_alike is_host_clash ports.now }
{
    let mut rest = ports;
    while let Some((first, others)) = rest.split_first() {
        if clashes_as_host(first, others) {
            return true;
        }
        rest = others;
    }
    false
}

fn clashes_as_ingress(port: &Port, ports: &[Port]) -> bool
    ensures { result ≡ list_any (is_ingress_clash port.now) ports.now }
{
    ports.iter().any(|other| is_ingress_clash(port, other))
}

#[tactic(auto, using(crate::proofs::Alike::alike_steps))]
fn has_ingress_clash(ports: &[Port]) -> bool
    ensures { result ≡ has_alike is_ingress_clash ports.now }
{
    let mut rest = ports;
    while let Some((first, others)) = rest.split_first() {
        if clashes_as_ingress(first, others) {
            return true;
        }
        rest = others;
    }
    false
}

fn has_other_key(keys: &[Key]) -> bool
    ensures { result ≡ list_any (λ k. not (is_label k)) keys.now }
{
    keys.iter().any(|key| !is_label(key))
}

fn is_label(key: &Key) -> bool
    ensures { result ≡ is_label key.now }
{
    matches!(key, Key::Label(_) | Key::Engine(_))
}
