// Runs that start, and runs that are complete.
ghost use Rattle.std.specs.Prelude.{◌≡◌, ◌∷◌, [], IfOk, Some};
ghost use Rattle.std.specs.Option.{option_map};
ghost use Rattle.swarm_objects.specs.Loops.Update.{
  change_run,
  finish_run,
  finished_status,
  in_status,
  new_run,
  start_run,
  start_status,
  with_run,
};
ghost use Rattle.swarm_objects.specs.Rows.{row_at, service_id};
ghost use Rattle.swarm_objects.specs.declared.services.UpdateRun.{UpdateRun as Run};
ghost use Rattle.swarm_objects.specs.ChangeLists.{Makes};
ghost use Rattle.swarm_objects.specs.Usable.{IsUsable};

use role_words::dirty_count;
use std::alloc::Global;
use swarm_objects::{
    Change, Duplicate, List, NoMemory, Rows, RunStatus, Service, UpdateRun, Version, list_of,
};

/// The status of a run that starts.
pub fn start_status(rolling_back: bool) -> RunStatus
    ensures { result ≡ start_status rolling_back }
{
    if rolling_back {
        RunStatus::RollbackStarted
    } else {
        RunStatus::Updating
    }
}

pub fn finished_status(status: RunStatus) -> RunStatus
    ensures { result ≡ finished_status status }
{
    match status {
        RunStatus::Updating => RunStatus::Completed,
        _ => RunStatus::RollbackCompleted,
    }
}

/// A run to the service's present template, with all its places before it.
pub fn new_run<R: Rows>(alloc: Global, rows: &R, service: &Service, status: RunStatus) -> UpdateRun
    requires { IsUsable (R.tables rows.now) }
    ensures { result ≡ new_run (R.tables rows.now) service.now status }
{
    UpdateRun {
        status,
        version: service.template_version,
        total: dirty_count(rows, service),
        replaced: List::new(alloc),
    }
}

/// The service in its place, with this run.
pub fn put_with_run(
    alloc: Global,
    service: &Service,
    version: Version,
    run: Option<UpdateRun>,
) -> Result<List<Change>, NoMemory>
    ensures { let row = record service.now { version = version; run = run } in
        IfOk result (λ changes. changes ≡ Change.PutService row ∷ []) }
{
    let mut row = service.duplicate(alloc)?;
    row.version = version;
    row.run = run;
    list_of(alloc, Change::PutService(row))
}

fn started<R: Rows>(
    alloc: Global,
    rows: &R,
    version: Version,
    service: &Service,
) -> Result<List<Change>, NoMemory>
    requires { IsUsable (R.tables rows.now) }
    ensures { let t = R.tables rows.now in let s = service.now in IfOk result (λ changes. changes
        ≡ Change.PutService (with_run version (new_run t s (start_status s.rolling_back)) s) ∷ []) }
{
    let run = new_run(alloc, rows, service, start_status(service.rolling_back));
    put_with_run(alloc, service, version, Some(run))
}

/// The update of the service starts.
pub fn start_run<R: Rows>(
    alloc: Global,
    rows: &R,
    version: Version,
    service: &Service,
) -> Result<List<Change>, NoMemory>
    requires usable { IsUsable (R.tables rows.now) }
    requires there { Some service.now ≡ row_at service_id service.now.id (R.tables rows.now).services }
    ensures { let t = R.tables rows.now in
        IfOk result (λ changes. Makes t changes (start_run version t service.now)) }
{
    started(alloc, rows, version, service)
}

// The run, which is complete.
fn finished(alloc: Global, run: &UpdateRun) -> Result<UpdateRun, NoMemory>
    ensures { IfOk result (λ new. new ≡ in_status (finished_status run.now.status) run.now) }
{
    let mut new = run.duplicate(alloc)?;
    new.status = finished_status(run.status);
    Ok(new)
}

// The run, which is complete, where the service has one.
fn run_finished(alloc: Global, service: &Service) -> Result<Option<UpdateRun>, NoMemory>
    ensures { let finish : Run → Run = λ run. in_status (finished_status run.status) run in
        IfOk result (λ new. new ≡ option_map finish service.now.run) }
{
    match &service.run {
        Some(run) => Ok(Some(finished(alloc, run)?)),
        None => Ok(None),
    }
}

fn finishing(alloc: Global, version: Version, service: &Service) -> Result<List<Change>, NoMemory>
    ensures { let finish : Run → Run = λ run. in_status (finished_status run.status) run in
        IfOk result (λ changes. changes ≡ Change.PutService (change_run finish version service.now) ∷ []) }
{
    put_with_run(alloc, service, version, run_finished(alloc, service)?)
}

/// The update of the service is complete.
#[tactic(auto, using(crate::proofs::Running::finish_makes))]
pub fn finish_run<R: Rows>(
    alloc: Global,
    rows: &R,
    version: Version,
    service: &Service,
) -> Result<List<Change>, NoMemory>
    requires usable { IsUsable (R.tables rows.now) }
    requires there { Some service.now ≡ row_at service_id service.now.id (R.tables rows.now).services }
    ensures { let t = R.tables rows.now in
        IfOk result (λ changes. Makes t changes (finish_run version t service.now)) }
{
    finishing(alloc, version, service)
}
