//! What there is to do: calls of the control loops that ask.
ghost use Rattle.std.specs.Prelude.{◌≡◌, Some};
ghost use Rattle.swarm_objects.specs.Loops.Allocator.{port_duties};
ghost use Rattle.swarm_objects.specs.Loops.Global.{come_duties, may_stay};
ghost use Rattle.swarm_objects.specs.Loops.Jobs.{next_duty};
ghost use Rattle.swarm_objects.specs.Loops.Reaper.{is_removable, reaper};
ghost use Rattle.swarm_objects.specs.Loops.Replicated.{create_duty, down_duty};
ghost use Rattle.swarm_objects.specs.Loops.Restart.{wants_raise};
ghost use Rattle.swarm_objects.specs.Loops.Scheduler.{scheduler};
ghost use Rattle.swarm_objects.specs.Loops.Update.{update_duties};
ghost use Rattle.swarm_objects.specs.Rows.{first_of, is_row_and, node_id, row_at, service_id};
ghost use Rattle.swarm_objects.specs.Usable.{IsUsable};
ghost use Rattle.swarm_replicated.specs.KnownPlaces.{Knows as KnowsPlaces};
ghost use Rattle.swarm_update.specs.KnownSurvey.{Knows as KnowsSurvey};

use swarm_objects::{Duty, Id, Rows, Service, Task};
use swarm_replicated::KnownPlaces;
use swarm_update::KnownSurvey;

/// `swarm_sched::least`.
pub fn scheduler<R: Rows>(rows: &R) -> Option<Duty>
    requires { IsUsable (R.tables rows.now) }
    ensures { result ≡ first_of (scheduler (R.tables rows.now)) }
{
    let duty = swarm_sched::least(rows);
    duty
}

/// `swarm_alloc::port_of`.
pub fn port_of<R: Rows>(rows: &R, service: &Service) -> Option<Duty>
    requires { IsUsable (R.tables rows.now) }
    ensures { result ≡ first_of (port_duties (R.tables rows.now) service.now) }
{
    let duty = swarm_alloc::port_of(rows, service);
    duty
}

/// `swarm_restart::wants_raise`.
pub fn wants_raise<R: Rows>(rows: &R, task: &Task) -> bool
    requires { IsUsable (R.tables rows.now) }
    ensures { result ≡ wants_raise (R.tables rows.now) task.now }
{
    let wants = swarm_restart::wants_raise(rows, task);
    wants
}

/// `swarm_replicated::create_duty_by`.
pub fn create_duty_by<R: Rows>(rows: &R, known: &mut KnownPlaces, service: &Service) -> Option<Duty>
    requires usable { IsUsable (R.tables rows.now) }
    requires knows { KnowsPlaces (R.tables rows.now) known.old }
    requires row { row_at service_id service.now.id (R.tables rows.now).services ≡ Some service.now }
    ensures duty { result ≡ first_of (create_duty (R.tables rows.now) service.now service.now.spec.mode) }
    ensures knows { KnowsPlaces (R.tables rows.now) known.new }
{
    let duty = swarm_replicated::create_duty_by(rows, known, service);
    duty
}

/// `swarm_replicated::down_duty_by`.
pub fn down_duty_by<R: Rows>(rows: &R, known: &mut KnownPlaces, service: &Service) -> Option<Duty>
    requires usable { IsUsable (R.tables rows.now) }
    requires knows { KnowsPlaces (R.tables rows.now) known.old }
    requires row { row_at service_id service.now.id (R.tables rows.now).services ≡ Some service.now }
    ensures duty { result ≡ first_of (down_duty (R.tables rows.now) service.now service.now.spec.mode) }
    ensures knows { KnowsPlaces (R.tables rows.now) known.new }
{
    let duty = swarm_replicated::down_duty_by(rows, known, service);
    duty
}

/// `swarm_global::may_stay_on`.
pub fn may_stay_on<R: Rows>(rows: &R, service: &Service, node: Id) -> bool
    ensures { result ≡ is_row_and node_id (may_stay service.now) (R.tables rows.now).nodes node }
{
    let may = swarm_global::may_stay_on(rows, service, node);
    may
}

/// `swarm_global::come_of`.
pub fn come_of<R: Rows>(rows: &R, service: &Service) -> Option<Duty>
    requires { IsUsable (R.tables rows.now) }
    ensures { result ≡ first_of (come_duties (R.tables rows.now) service.now service.now.spec.mode) }
{
    let duty = swarm_global::come_of(rows, service);
    duty
}

/// `swarm_jobs::next_duty`.
pub fn next_duty<R: Rows>(rows: &R, service: &Service) -> Option<Duty>
    requires { IsUsable (R.tables rows.now) }
    ensures { result ≡ first_of (next_duty (R.tables rows.now) service.now service.now.spec.mode) }
{
    let duty = swarm_jobs::next_duty(rows, service);
    duty
}

/// `swarm_update::update_duty_by`.
pub fn update_duty_by<R: Rows>(rows: &R, known: &mut KnownSurvey, service: &Service) -> Option<Duty>
    requires usable { IsUsable (R.tables rows.now) }
    requires knows { KnowsSurvey (R.tables rows.now) known.old }
    requires row { row_at service_id service.now.id (R.tables rows.now).services ≡ Some service.now }
    ensures duty { result ≡ first_of (update_duties (R.tables rows.now) service.now service.now.spec.mode) }
    ensures knows { KnowsSurvey (R.tables rows.now) known.new }
{
    let duty = swarm_update::update_duty_by(rows, known, service);
    duty
}

/// `swarm_upkeep::is_removable`.
pub fn is_removable(task: &Task) -> bool
    ensures { result ≡ is_removable task.now }
{
    let removable = swarm_upkeep::is_removable(task);
    removable
}

/// `swarm_upkeep::least_reaper`.
pub fn reaper<R: Rows>(rows: &R) -> Option<Duty>
    requires { IsUsable (R.tables rows.now) }
    ensures { result ≡ first_of (reaper (R.tables rows.now)) }
{
    let duty = swarm_upkeep::least_reaper(rows);
    duty
}
