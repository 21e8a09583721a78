// Words on the update runs and the port numbers of services.
ghost use Rattle.std.specs.Prelude.{◌≡◌};
ghost use Rattle.swarm_objects.specs.Services.Runs.{has_open_run, is_open, is_under_way};

use swarm_objects::{RunStatus, Service, UpdateRun};

// An update that replaces places, back or forth.
fn is_open(status: RunStatus) -> bool
    ensures { result ≡ is_open status }
{
    match status {
        RunStatus::Updating | RunStatus::RollbackStarted => true,
        _ => false,
    }
}

/// The run is under way.
pub fn is_under_way(run: &UpdateRun) -> bool
    ensures { result ≡ is_under_way run.now }
{
    is_open(run.status)
}

/// The service has an update under way.
pub fn has_open_run(service: &Service) -> bool
    ensures { result ≡ has_open_run service.now }
{
    match &service.run {
        Some(run) => is_under_way(run),
        None => false,
    }
}
