// The rules of nodes, networks and settings.
ghost use Rattle.std.specs.Prelude.{◌≡◌, ◌≤◌, find};
ghost use Rattle.std.specs.Result.{result_err};
ghost use Rattle.swarm_objects.specs.Rules.Networks.{has_host_bits, subnet_breaks, subnet_rules};
ghost use Rattle.swarm_objects.specs.Rules.Nodes.{node_breaks, node_rules, resource_rules, resources_break};
ghost use Rattle.swarm_objects.specs.Rules.Settings.{settings_break, settings_rules};

use swarm_objects::limits::{
    FEWEST_BITS, LONGEST_BEAT, LONGEST_TIME, MOST_BITS, MOST_CPU, MOST_ITEMS, MOST_KEPT, MOST_MEM,
    SHORTEST_BEAT,
};
use swarm_objects::{Node, Settings, SpecRule};

/// The first rule that a node breaks.
pub fn check_node(node: &Node) -> Result<(), SpecRule>
    ensures { result_err result ≡ find (node_breaks node.now) node_rules }
{
    check_resources(node.cpu, node.mem)?;
    if node.labels.len() > MOST_ITEMS || node.engine.len() > MOST_ITEMS {
        return Err(SpecRule::Count);
    }
    Ok(())
}

/// The first rule that resources of a node break, in thousandths of a processor and bytes of memory.
pub fn check_resources(cpu: u64, mem: u64) -> Result<(), SpecRule>
    ensures { result_err result ≡ find (resources_break cpu mem) resource_rules }
{
    if cpu > MOST_CPU || mem > MOST_MEM {
        return Err(SpecRule::Resources);
    }
    Ok(())
}

/// The first rule that a subnet breaks, whose addresses share so many leading bits with its base.
pub fn check_network(base: u32, length: u8) -> Result<(), SpecRule>
    ensures { result_err result ≡ find (subnet_breaks base length) subnet_rules }
{
    if length < FEWEST_BITS || MOST_BITS < length || has_host_bits(base, length) {
        return Err(SpecRule::Subnet);
    }
    Ok(())
}

// Whether an address has a bit below its first so many.
fn has_host_bits(base: u32, bits: u8) -> bool
    requires low { FEWEST_BITS ≤ bits }
    requires high { bits ≤ MOST_BITS }
    ensures { result ≡ has_host_bits base bits }
{
    base % 2u32.pow(32 - bits as u32) != 0
}

/// The first rule that settings break.
pub fn check_settings(settings: &Settings) -> Result<(), SpecRule>
    ensures { result_err result ≡ find (settings_break settings.now) settings_rules }
{
    let wrong_beat = settings.heartbeat < SHORTEST_BEAT || LONGEST_BEAT < settings.heartbeat;
    let wrong_orphan = settings.orphan < 1 || LONGEST_TIME < settings.orphan;
    if wrong_beat || wrong_orphan || settings.history > MOST_KEPT {
        return Err(SpecRule::Settings);
    }
    Ok(())
}
