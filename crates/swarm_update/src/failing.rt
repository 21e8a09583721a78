// Updates that have failed: they are rolled back, or paused.
ghost use Rattle.std.specs.Prelude.{◌≡◌, ◌∷◌, [], IfOk, None, Some};
ghost use Rattle.std.specs.Option.{option_map};
ghost use Rattle.swarm_objects.specs.Loops.Update.{back_at, change_run, fail_run, in_status, is_rollback, is_updating, may_roll_back, new_run, paused, paused_status, rolled_back, with_run};
ghost use Rattle.swarm_objects.specs.Rows.{row_at, service_id};
ghost use Rattle.swarm_objects.specs.Services.Ports.{is_open_in, kept_numbers};
ghost use Rattle.swarm_objects.specs.declared.services.UpdateRun.{UpdateRun as Run};
ghost use Rattle.swarm_objects.specs.ChangeLists.{Makes};
ghost use Rattle.swarm_objects.specs.Usable.{IsUsable};

use crate::starting::{new_run, put_with_run};
use std::alloc::Global;
use swarm_objects::ports::is_open_in;
use swarm_objects::{
    Change, Duplicate, FailureAction, List, NoMemory, PortNumber, Rows, RunStatus, Service,
    ServiceSpec, UpdateRun, Version, add, list_of,
};

/// The status of a run that can't go on.
pub fn paused_status(status: RunStatus) -> RunStatus
    ensures { result ≡ paused_status status }
{
    match status {
        RunStatus::Updating => RunStatus::Paused,
        _ => RunStatus::RollbackPaused,
    }
}

// The run, which can't go on.
fn paused(alloc: Global, run: &UpdateRun) -> Result<UpdateRun, NoMemory>
    ensures { IfOk result (λ new. new ≡ in_status (paused_status run.now.status) run.now) }
{
    let mut new = run.duplicate(alloc)?;
    new.status = paused_status(run.status);
    Ok(new)
}

// The run, which can't go on, where the service has one.
fn run_paused(alloc: Global, service: &Service) -> Result<Option<UpdateRun>, NoMemory>
    ensures { let pause : Run → Run = λ run. in_status (paused_status run.status) run in
        IfOk result (λ new. new ≡ option_map pause service.now.run) }
{
    match &service.run {
        Some(run) => Ok(Some(paused(alloc, run)?)),
        None => Ok(None),
    }
}

fn pausing(alloc: Global, version: Version, service: &Service) -> Result<List<Change>, NoMemory>
    ensures { let pause : Run → Run = λ run. in_status (paused_status run.status) run in
        IfOk result (λ changes. changes ≡ Change.PutService (change_run pause version service.now) ∷ []) }
{
    put_with_run(alloc, service, version, run_paused(alloc, service)?)
}

#[tactic(auto, using(crate::proofs::Running::pause_makes))]
fn pause<R: Rows>(
    alloc: Global,
    rows: &R,
    version: Version,
    service: &Service,
) -> Result<List<Change>, NoMemory>
    requires usable { IsUsable (R.tables rows.now) }
    requires there { Some service.now ≡ row_at service_id service.now.id (R.tables rows.now).services }
    ensures { let t = R.tables rows.now in
        IfOk result (λ changes. Makes t changes (paused version t service.now)) }
{
    pausing(alloc, version, service)
}

fn is_rollback(action: FailureAction) -> bool
    ensures { result ≡ is_rollback action }
{
    match action {
        FailureAction::Rollback => true,
        FailureAction::Pause | FailureAction::Continue => false,
    }
}

fn is_updating(status: RunStatus) -> bool
    ensures { result ≡ is_updating status }
{
    match status {
        RunStatus::Updating => true,
        _ => false,
    }
}

/// What failed is an update, and it is to be rolled back.
pub fn may_roll_back(service: &Service) -> bool
    ensures { result ≡ may_roll_back service.now }
{
    match &service.run {
        Some(run) => is_rollback(service.spec.update.action) && is_updating(run.status),
        None => false,
    }
}

/// The numbers that a service keeps with this specification alone.
pub fn kept_numbers(
    alloc: Global,
    numbers: &[PortNumber],
    spec: &ServiceSpec,
) -> Result<List<PortNumber>, NoMemory>
    ensures { IfOk result (λ kept. kept ≡ kept_numbers numbers.now spec.now None) }
{
    let mut kept = List::new(alloc);
    for given in numbers {
        if is_open_in(spec.ports.as_slice(), *given) {
            add(&mut kept, *given)?;
        }
    }
    Ok(kept)
}

// The service with its previous specification, which is copied last, so that no way out drops it.
fn back_at(
    alloc: Global,
    version: Version,
    service: &Service,
    spec: &ServiceSpec,
) -> Result<Service, NoMemory>
    ensures { IfOk result (λ new. new ≡ back_at version spec.now service.now) }
{
    Ok(Service {
        id: service.id,
        version,
        name: service.name.duplicate(alloc)?,
        previous: None,
        template_version: version,
        rolling_back: true,
        iteration: service.iteration,
        numbers: kept_numbers(alloc, service.numbers.as_slice(), spec)?,
        run: service.run.duplicate(alloc)?,
        spec: spec.duplicate(alloc)?,
    })
}

fn rolling<R: Rows>(
    alloc: Global,
    rows: &R,
    version: Version,
    service: &Service,
    spec: &ServiceSpec,
) -> Result<List<Change>, NoMemory>
    requires { IsUsable (R.tables rows.now) }
    ensures { let t = R.tables rows.now in let back = back_at version spec.now service.now in
        IfOk result (λ changes. changes
        ≡ Change.PutService (with_run version (new_run t back RunStatus.RollbackStarted) back) ∷ []) }
{
    let mut back = back_at(alloc, version, service, spec)?;
    back.run = Some(new_run(alloc, rows, &back, RunStatus::RollbackStarted));
    list_of(alloc, Change::PutService(back))
}

// The service with its previous specification comes in its place, with the run back to it.
#[tactic(auto, using(crate::proofs::Running::rolling_makes))]
fn roll_back<R: Rows>(
    alloc: Global,
    rows: &R,
    version: Version,
    service: &Service,
    spec: &ServiceSpec,
) -> Result<List<Change>, NoMemory>
    requires usable { IsUsable (R.tables rows.now) }
    requires there { Some service.now ≡ row_at service_id service.now.id (R.tables rows.now).services }
    ensures { let t = R.tables rows.now in
        IfOk result (λ changes. Makes t changes (rolled_back version t (back_at version spec.now service.now))) }
{
    rolling(alloc, rows, version, service, spec)
}

/// The update of the service has failed: it is rolled back where that is the action, it is no rollback and there is a
/// previous specification, and else paused.
pub fn fail_run<R: Rows>(
    alloc: Global,
    rows: &R,
    version: Version,
    service: &Service,
) -> Result<List<Change>, NoMemory>
    requires usable { IsUsable (R.tables rows.now) }
    requires there { Some service.now ≡ row_at service_id service.now.id (R.tables rows.now).services }
    ensures { let t = R.tables rows.now in let s = service.now in
        IfOk result (λ changes. Makes t changes (fail_run version t s (may_roll_back s) s.previous)) }
{
    if !may_roll_back(service) {
        return pause(alloc, rows, version, service);
    }
    match &service.previous {
        Some(spec) => roll_back(alloc, rows, version, service, spec),
        None => pause(alloc, rows, version, service),
    }
}
