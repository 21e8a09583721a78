// The words that replies have.
ghost use Rattle.std.specs.Prelude.{◌≡◌};
ghost use Rattle.swarm_print.specs.Words.{availability_word, state_word, rule_word, desired_word, mode_word, status_word, update_word, verb_word, cause_word, extent_word, report_word, protocol_word};

use swarm_objects::{Availability, Cause, Desired, Mode, NodeState, RunStatus, SpecRule, Verb};

/// Whether the node takes tasks.
pub fn availability_word(availability: Availability) -> &'static str
    ensures { result.now ≡ availability_word availability }
{
    match availability {
        Availability::Active => "ACTIVE",
        Availability::Pause => "PAUSE",
        Availability::Drain => "DRAIN",
    }
}

/// How a node is.
pub fn state_word(state: NodeState) -> &'static str
    ensures { result.now ≡ state_word state }
{
    match state {
        NodeState::Unknown => "UNKNOWN",
        NodeState::Down => "DOWN",
        NodeState::Ready => "READY",
        NodeState::Disconnected => "DISCONNECTED",
    }
}

/// The rule that a specification breaks.
pub fn rule_word(rule: SpecRule) -> &'static str
    ensures { result.now ≡ rule_word rule }
{
    match rule {
        SpecRule::Replicas => "replicas",
        SpecRule::Concurrent => "concurrent",
        SpecRule::Time => "time",
        SpecRule::Reservation => "reservation",
        SpecRule::Count => "count",
        SpecRule::Ports => "ports",
        SpecRule::Spread => "spread",
        SpecRule::Ratio => "ratio",
        SpecRule::Resources => "resources",
        SpecRule::Subnet => "subnet",
        SpecRule::Settings => "settings",
    }
}

/// How far a task is to come.
pub fn desired_word(desired: Desired) -> &'static str
    ensures { result.now ≡ desired_word desired }
{
    match desired {
        Desired::Ready => "READY",
        Desired::Running => "RUNNING",
        Desired::Complete => "COMPLETE",
        Desired::Shutdown => "SHUTDOWN",
        Desired::Remove => "REMOVE",
    }
}

/// How a service is made up, without its numbers.
pub fn mode_word(mode: Mode) -> &'static str
    ensures { result.now ≡ mode_word mode }
{
    match mode {
        Mode::Replicated(_) => "replicated",
        Mode::Global => "global",
        Mode::Job { .. } => "job",
    }
}

fn status_word(status: RunStatus) -> &'static str
    ensures { result.now ≡ status_word status }
{
    match status {
        RunStatus::Updating => "UPDATING",
        RunStatus::Paused => "PAUSED",
        RunStatus::Completed => "COMPLETED",
        RunStatus::RollbackStarted => "ROLLBACK_STARTED",
        RunStatus::RollbackPaused => "ROLLBACK_PAUSED",
        RunStatus::RollbackCompleted => "ROLLBACK_COMPLETED",
    }
}

/// How the last update stands; a dash where there was none.
pub fn update_word(update: Option<RunStatus>) -> &'static str
    ensures { result.now ≡ update_word update }
{
    match update {
        Some(status) => status_word(status),
        None => "-",
    }
}

/// What happened to a row.
pub fn verb_word(verb: Verb) -> &'static str
    ensures { result.now ≡ verb_word verb }
{
    match verb {
        Verb::Created => "create",
        Verb::Updated => "update",
        Verb::Deleted => "delete",
    }
}

/// What a world waits for.
pub fn cause_word(cause: Cause) -> &'static str
    ensures { result.now ≡ cause_word cause }
{
    match cause {
        Cause::Start => "start",
        Cause::Update => "update",
        Cause::Executor => "executor",
        Cause::Session => "session",
        Cause::Remote => "remote",
    }
}

/// Whether a message has all that is assigned, or the changes alone.
pub fn extent_word(complete: bool) -> &'static str
    ensures { result.now ≡ extent_word complete }
{
    if complete { "COMPLETE" } else { "INCREMENTAL" }
}

/// Whether a report raised the state of its task.
pub fn report_word(raised: bool) -> &'static str
    ensures { result.now ≡ report_word raised }
{
    if raised { "status" } else { "passed" }
}

/// UDP, or else TCP.
pub fn protocol_word(udp: bool) -> &'static str
    ensures { result.now ≡ protocol_word udp }
{
    if udp { "udp" } else { "tcp" }
}
