// Places whose old tasks stop, and places that get new tasks.
ghost use Rattle.std.specs.Prelude.{◌≡◌, ◌++◌, ◌∷◌, [], IfOk, OnOk, Some};
ghost use Rattle.std.specs.Option.{option_map};
ghost use Rattle.swarm_objects.specs.Changes.{wanted};
ghost use Rattle.swarm_objects.specs.Loops.Update.{
  item_of,
  replace_place,
  replaced_in,
  swap_place,
  with_item,
};
ghost use Rattle.swarm_objects.specs.Rows.{row_at, service_id};
ghost use Rattle.swarm_objects.specs.Services.Words.{is_live_dirty};
ghost use Rattle.swarm_objects.specs.Tasks.Places.{place_at, place_tasks};
ghost use Rattle.swarm_objects.specs.Tasks.Words.{is_live};
ghost use Rattle.swarm_objects.specs.declared.services.UpdateRun.{UpdateRun as Run};
ghost use Rattle.swarm_objects.specs.ChangeLists.{Makes, put_each};
ghost use Rattle.swarm_objects.specs.Usable.{IsUsable};
ghost use Rattle.swarm_update.specs.Replacing.{desired_by_order, new_by_order, replacing, stops_by_order};

use role_words::place_tasks;
use std::alloc::Global;
use swarm_objects::effects::wanted;
use swarm_objects::{
    Change, Desired, Duplicate, List, NoMemory, Place, Replaced, Rows, Service, Task, UpdateOrder,
    UpdateRun, Version, add,
};

// The task is to stop.
fn add_stop(
    alloc: Global,
    changes: &mut List<Change>,
    version: Version,
    task: &Task,
) -> Result<(), NoMemory>
    ensures { let stop = Change.PutTask (wanted version Desired.Shutdown task.now) in
        OnOk result (changes.new ≡ changes.old ++ stop ∷ []) }
{
    add(
        changes,
        Change::PutTask(wanted(alloc, task, version, Desired::Shutdown)?),
    )
}

// Swaps.

fn dirty_stops<R: Rows>(
    alloc: Global,
    rows: &R,
    version: Version,
    service: &Service,
    number: u64,
) -> Result<List<Change>, NoMemory>
    requires { IsUsable (R.tables rows.now) }
    ensures { let t = R.tables rows.now in let s = service.now in IfOk result (λ changes. changes
        ≡ put_each (is_live_dirty s) (wanted version Desired.Shutdown) (place_tasks t s number)) }
{
    let mut changes = List::new(alloc);
    for task in place_tasks(rows, service, number) {
        if task.is_live_dirty(service) {
            add_stop(alloc, &mut changes, version, task)?;
        }
    }
    Ok(changes)
}

/// The dirty live tasks of the service's place are to stop.
#[tactic(auto, using(crate::proofs::Replacements::swap_makes))]
pub fn swap_place<R: Rows>(
    alloc: Global,
    rows: &R,
    version: Version,
    service: &Service,
    number: u64,
) -> Result<List<Change>, NoMemory>
    requires { IsUsable (R.tables rows.now) }
    ensures { let t = R.tables rows.now in
        IfOk result (λ changes. Makes t changes (swap_place version t number service.now)) }
{
    dirty_stops(alloc, rows, version, service, number)
}

// The run's items.

// The item takes the place of the one with its place, or comes last.
fn with_item(alloc: Global, items: &[Replaced], item: Replaced) -> Result<List<Replaced>, NoMemory>
    ensures { IfOk result (λ new. new ≡ with_item item items.now) }
{
    let mut new = List::new(alloc);
    let mut is_put = false;
    for old in items {
        if !is_put && old.place == item.place {
            add(&mut new, item)?;
            is_put = true;
        } else {
            add(&mut new, *old)?;
        }
    }
    if !is_put {
        add(&mut new, item)?;
    }
    Ok(new)
}

// The service's run with the item, where it has one.
fn run_with_item(
    alloc: Global,
    service: &Service,
    item: Replaced,
) -> Result<Option<UpdateRun>, NoMemory>
    ensures { let put : Run → Run = λ run. record run { replaced = with_item item run.replaced } in
        IfOk result (λ new. new ≡ option_map put service.now.run) }
{
    match &service.run {
        Some(run) => Ok(Some(UpdateRun {
            status: run.status,
            version: run.version,
            total: run.total,
            replaced: with_item(alloc, run.replaced.as_slice(), item)?,
        })),
        None => Ok(None),
    }
}

// The service, whose run has the item.
fn replaced_in(
    alloc: Global,
    service: &Service,
    version: Version,
    item: Replaced,
) -> Result<Service, NoMemory>
    ensures { IfOk result (λ row. row ≡ replaced_in version item service.now) }
{
    let run = run_with_item(alloc, service, item)?;
    let mut row = service.duplicate(alloc)?;
    row.version = version;
    row.run = run;
    Ok(row)
}

// The place gets the next task now.
fn item_of<R: Rows>(rows: &R, place: Place) -> Replaced
    ensures { result ≡ item_of (R.tables rows.now) place }
{
    Replaced {
        place,
        task: rows.next_id(),
        created: rows.now(),
    }
}

// Replacements.

/// What is wanted of the new task: to wait where the old ones stop first, and else its goal.
pub fn desired_by_order(service: &Service) -> Desired
    ensures { result ≡ desired_by_order service.now.spec.mode service.now.spec.update.order }
{
    match service.spec.update.order {
        UpdateOrder::StopFirst => Desired::Ready,
        UpdateOrder::StartFirst => service.spec.mode.goal_of(),
    }
}

fn live_stops<R: Rows>(
    alloc: Global,
    rows: &R,
    version: Version,
    service: &Service,
    number: u64,
) -> Result<List<Change>, NoMemory>
    requires { IsUsable (R.tables rows.now) }
    ensures { let t = R.tables rows.now in IfOk result (λ changes. changes
        ≡ put_each is_live (wanted version Desired.Shutdown) (place_tasks t service.now number)) }
{
    let mut changes = List::new(alloc);
    for task in place_tasks(rows, service, number) {
        if task.is_live() {
            add_stop(alloc, &mut changes, version, task)?;
        }
    }
    Ok(changes)
}

// What comes before the new task: where the old ones stop first, that they do.
fn stops_by_order<R: Rows>(
    alloc: Global,
    rows: &R,
    version: Version,
    service: &Service,
    number: u64,
) -> Result<List<Change>, NoMemory>
    requires { IsUsable (R.tables rows.now) }
    ensures { let t = R.tables rows.now in let s = service.now in
        IfOk result (λ changes. changes ≡ stops_by_order version t s number s.spec.update.order) }
{
    match service.spec.update.order {
        UpdateOrder::StopFirst => live_stops(alloc, rows, version, service, number),
        UpdateOrder::StartFirst => Ok(List::new(alloc)),
    }
}

// The new task comes behind what stops, and then the service with the item.
fn add_new<R: Rows>(
    alloc: Global,
    rows: &R,
    version: Version,
    service: &Service,
    number: u64,
    changes: &mut List<Change>,
) -> Result<(), NoMemory>
    requires { IsUsable (R.tables rows.now) }
    ensures { let t = R.tables rows.now in let s = service.now in
        let row = Change.PutService (replaced_in version (item_of t (place_at s.spec.mode number)) s) in
        OnOk result (changes.new ≡ (changes.old ++ new_by_order version t s number ∷ []) ++ row ∷ []) }
{
    let place = service.spec.mode.place_at(number);
    let desired = desired_by_order(service);
    add(
        changes,
        Change::PutTask(Task::new(alloc, rows, version, service, place, desired)?),
    )?;
    add(
        changes,
        Change::PutService(replaced_in(alloc, service, version, item_of(rows, place))?),
    )
}

fn replacing<R: Rows>(
    alloc: Global,
    rows: &R,
    version: Version,
    service: &Service,
    number: u64,
) -> Result<List<Change>, NoMemory>
    requires { IsUsable (R.tables rows.now) }
    ensures { let t = R.tables rows.now in
        IfOk result (λ changes. changes ≡ replacing version t service.now number) }
{
    let mut changes = stops_by_order(alloc, rows, version, service, number)?;
    add_new(alloc, rows, version, service, number, &mut changes)?;
    Ok(changes)
}

/// The service gets a new task in the place: after its live tasks stop, or before.
#[tactic(auto, using(crate::proofs::Replacements::replacing_makes))]
pub fn replace_place<R: Rows>(
    alloc: Global,
    rows: &R,
    version: Version,
    service: &Service,
    number: u64,
) -> Result<List<Change>, NoMemory>
    requires usable { IsUsable (R.tables rows.now) }
    requires there { Some service.now ≡ row_at service_id service.now.id (R.tables rows.now).services }
    ensures { let t = R.tables rows.now in
        IfOk result (λ changes. Makes t changes (replace_place version t number service.now)) }
{
    replacing(alloc, rows, version, service, number)
}
