// The lines of duties: what there is to do for one row, by the loop's own question of it.
ghost use Rattle.std.specs.Prelude.{◌≡◌, option_to_list};
ghost use Rattle.swarm_objects.specs.Loops.Words.{when};

use swarm_alloc::{gets_address, port_of, wants_note};
use swarm_global::{come_of, leave_of};
use swarm_jobs::{is_old, next_duty};
use swarm_objects::{Duty, Node, Rows, Service, Task};
use swarm_replicated::is_gone;
use swarm_restart::{wants_raise, wants_restart};
use swarm_sessions::{is_expired, is_orphaned};
use swarm_spans::reads::{ToAllocate, ToSchedule, ToWait};
use swarm_spans::{NodeLine, ServiceLine, TaskLine, TaskReads};
use swarm_upkeep::{is_misplaced, is_removable, is_trimmed_past};

// The duty where there is one.
fn when(yes: bool, duty: Duty) -> Option<Duty>
    ensures { option_to_list result ≡ when yes duty }
{
    if yes { Some(duty) } else { None }
}

/// Nodes whose session is over.
pub struct Expires;

impl NodeLine for Expires {
    ghost use Rattle.swarm_spans.specs.Lines.{expires};

    ghost duties = { expires };

    fn duty<R: Rows>(rows: &R, node: &Node) -> Option<Duty> {
        when(is_expired(rows, node), Duty::Expire(node.id))
    }
}

/// Tasks on nodes that are down for long.
pub struct Orphans;

impl TaskLine for Orphans {
    ghost use Rattle.swarm_spans.specs.Lines.{orphans};

    ghost duties = { orphans };

    fn duty<R: Rows>(rows: &R, task: &Task) -> Option<Duty> {
        when(is_orphaned(rows, task), Duty::Orphan(task.id))
    }
}

/// Tasks on nodes that don't meet their constraints any more.
pub struct Rejects;

impl TaskLine for Rejects {
    ghost use Rattle.swarm_spans.specs.Lines.{rejects};

    ghost duties = { rejects };

    fn duty<R: Rows>(rows: &R, task: &Task) -> Option<Duty> {
        when(is_misplaced(rows, task), Duty::Reject(task.id))
    }
}

/// Live tasks that are over.
pub struct Restarts;

impl TaskLine for Restarts {
    ghost use Rattle.swarm_spans.specs.Lines.{restarts};

    ghost duties = { restarts };

    fn duty<R: Rows>(rows: &R, task: &Task) -> Option<Duty> {
        when(wants_restart(rows, task), Duty::Restart(task.id))
    }
}

/// Tasks that have waited.
pub struct Raises;

impl TaskLine for Raises {
    ghost use Rattle.swarm_spans.specs.Lines.{raises};

    ghost duties = { raises };

    fn duty<R: Rows>(rows: &R, task: &Task) -> Option<Duty> {
        when(wants_raise(rows, task), Duty::Raise(task.id))
    }
}

/// Tasks whose service is gone.
pub struct Goes;

impl TaskLine for Goes {
    ghost use Rattle.swarm_spans.specs.Lines.{goes};

    ghost duties = { goes };

    fn duty<R: Rows>(rows: &R, task: &Task) -> Option<Duty> {
        when(is_gone(rows, task), Duty::Gone(task.id))
    }
}

/// Tasks of earlier iterations of jobs.
pub struct Olds;

impl TaskLine for Olds {
    ghost use Rattle.swarm_spans.specs.Lines.{olds};

    ghost duties = { olds };

    fn duty<R: Rows>(rows: &R, task: &Task) -> Option<Duty> {
        when(is_old(rows, task), Duty::Old(task.id))
    }
}

/// Tasks that can get their addresses.
pub struct Addresses;

impl TaskLine for Addresses {
    ghost use Rattle.swarm_spans.specs.Lines.{addresses};

    ghost duties = { addresses };

    fn duty<R: Rows>(rows: &R, task: &Task) -> Option<Duty> {
        when(gets_address(rows, task), Duty::Address(task.id))
    }
}

/// Tasks that can get no address, and whose note doesn't say why.
pub struct Notes;

impl TaskLine for Notes {
    ghost use Rattle.swarm_spans.specs.Lines.{notes};

    ghost duties = { notes };

    fn duty<R: Rows>(rows: &R, task: &Task) -> Option<Duty> {
        when(wants_note(rows, task), Duty::Note(task.id))
    }
}

/// Tasks that are removed.
pub struct Deletes;

impl TaskLine for Deletes {
    ghost use Rattle.swarm_spans.specs.Lines.{deletes};

    ghost duties = { deletes };

    fn duty<R: Rows>(rows: &R, task: &Task) -> Option<Duty> {
        when(is_removable(task), Duty::Delete(task.id))
    }
}

/// Old ended tasks of which more are there than are kept.
pub struct Trims;

impl TaskLine for Trims {
    ghost use Rattle.swarm_spans.specs.Services.Lines.{trims};

    ghost duties = { trims };

    fn duty<R: Rows>(rows: &R, task: &Task) -> Option<Duty> {
        when(is_trimmed_past(rows, task), Duty::Trim(task.id))
    }
}

/// Global services that leave a node.
pub struct Leaves;

impl ServiceLine for Leaves {
    ghost use Rattle.swarm_spans.specs.Services.Lines.{leaves};

    ghost duties = { leaves };

    fn duty<R: Rows>(rows: &R, service: &Service) -> Option<Duty> {
        leave_of(rows, service)
    }
}

/// Global services that come to a node.
pub struct Comes;

impl ServiceLine for Comes {
    ghost use Rattle.swarm_spans.specs.Services.Lines.{comes};

    ghost duties = { comes };

    fn duty<R: Rows>(rows: &R, service: &Service) -> Option<Duty> {
        come_of(rows, service)
    }
}

/// Jobs that get a task.
pub struct JobCreates;

impl ServiceLine for JobCreates {
    ghost use Rattle.swarm_spans.specs.Services.Lines.{job_creates};

    ghost duties = { job_creates };

    fn duty<R: Rows>(rows: &R, service: &Service) -> Option<Duty> {
        next_duty(rows, service)
    }
}

/// Services with ports to be numbered.
pub struct Ports;

impl ServiceLine for Ports {
    ghost use Rattle.swarm_objects.specs.Loops.Allocator.{port_duties};

    ghost duties = { port_duties };

    fn duty<R: Rows>(rows: &R, service: &Service) -> Option<Duty> {
        port_of(rows, service)
    }
}

// Lines of tasks that wait for something: their duties are but marks, by which those that wait no more leave the spans.

/// Tasks that wait for their time, or for earlier tasks of their place.
pub struct Waiting;

impl TaskLine for Waiting {
    ghost use Rattle.swarm_spans.specs.Lines.{to_wait};

    ghost duties = { to_wait };

    fn duty<R: Rows>(_rows: &R, task: &Task) -> Option<Duty> {
        when(ToWait::may(task), Duty::Raise(task.id))
    }
}

/// Tasks that wait for a node.
pub struct Unplaced;

impl TaskLine for Unplaced {
    ghost use Rattle.swarm_spans.specs.Lines.{to_schedule};

    ghost duties = { to_schedule };

    fn duty<R: Rows>(_rows: &R, task: &Task) -> Option<Duty> {
        when(ToSchedule::may(task), Duty::Drop(task.id))
    }
}

/// Tasks that wait for addresses.
pub struct Unallocated;

impl TaskLine for Unallocated {
    ghost use Rattle.swarm_spans.specs.Lines.{to_allocate};

    ghost duties = { to_allocate };

    fn duty<R: Rows>(_rows: &R, task: &Task) -> Option<Duty> {
        when(ToAllocate::may(task), Duty::Note(task.id))
    }
}
