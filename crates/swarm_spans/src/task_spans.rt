// The spans of the lines over single tasks and over nodes, and what changes touch of them.
ghost use Rattle.std.specs.Prelude.{◌≡◌, true};
ghost use Rattle.std.specs.List.{list_any};
ghost use Rattle.swarm_objects.specs.ChangeLists.{apply_changes};
ghost use Rattle.swarm_objects.specs.Loops.Scheduler.{schedule};
ghost use Rattle.swarm_objects.specs.Rows.{node_id};
ghost use Rattle.swarm_objects.specs.Tasks.Words.{is_to_wait};
ghost use Rattle.swarm_objects.specs.Usable.{IsUsable};
ghost use Rattle.swarm_objects.specs.World.{Tables};
ghost use Rattle.swarm_spans.specs.Blocked.{TouchesAllBlocked};
ghost use Rattle.swarm_spans.specs.Holding.{EachPasses, FreesNone, HoldsOn, TouchesWhere};
ghost use Rattle.swarm_spans.specs.Kept.{AlikeFor};
ghost use Rattle.swarm_spans.specs.Lines.{
  addresses,
  AlikeCounting,
  AlikeNumbered,
  AlikePorts,
  AlikeThere,
  is_to_allocate,
  is_to_schedule,
  notes,
  raises,
};
ghost use Rattle.swarm_spans.specs.Moved.{moves};
ghost use Rattle.swarm_spans.specs.RunsOn.{PutsRunning};
ghost use Rattle.swarm_spans.specs.Spans.{Covers, IsWider};
ghost use Rattle.swarm_spans.specs.TasksCovered.{
  AreTasksCovered,
  HasEnds,
  NodesLaw,
  PutLaw,
  ServicesLaw,
  SessionLaw,
  TimeLaw,
};
ghost use Rattle.swarm_spans.specs.Timed.{is_down_node};
ghost use Rattle.swarm_spans.specs.Touched.{TouchesAll};

use crate::adding::{add_tasks_of, tasks_on_down};
use crate::blocking::{touch_blocked, touch_moved};
use crate::holding::{touch_freed, touch_held};
use crate::reads::{
    Addresses, AnyNode, AnyService, Constrained, Counting, Deletes, DownTime, Goes, Iterating,
    Notes, Numbered, Olds, Orphans, Ports, Raises, Rejects, Restarts, Schedules, ToAllocate,
    ToSchedule, ToWait, Validity,
};
use crate::running::put_running;
use crate::span::Span;
use crate::touching::{NodeReads, ServiceReads, TaskReads, touch_nodes, touch_tasks};
use swarm_objects::{Change, Id, Ms, Rows};

/// A span for each line over single tasks, and for the line over nodes. The last three are of all tasks that wait for
/// something: others are widened by them.
#[derive(Clone, Copy, Drop)]
pub struct TaskSpans {
    pub expires: Span,
    pub orphans: Span,
    pub rejects: Span,
    pub restarts: Span,
    pub raises: Span,
    pub goes: Span,
    pub olds: Span,
    pub deletes: Span,
    pub addresses: Span,
    pub notes: Span,
    pub schedules: Span,
    pub to_wait: Span,
    pub to_schedule: Span,
    pub to_allocate: Span,
}

// What the changes touch of a line that reads nothing but the task itself.
fn touch_alone<T: TaskReads, R: Rows>(rows: &R, changes: &[Change], span: &mut Span)
    requires { IsUsable (R.tables rows.now) }
    ensures wider { IsWider span.new span.old }
    ensures touches { TouchesAll T.may T.Alike AlikeThere AlikeThere (R.tables rows.now) span.new changes.now }
{
    touch_tasks::<T, AnyService, AnyNode, R>(rows, changes, span);
}

// Of the tasks to get addresses, with all that wait where an address may be set free.
#[tactic(auto, using(crate::proofs::TasksCovered::allocate_steps))]
fn touch_addresses<R: Rows>(rows: &R, changes: &[Change], waiting: &Span, span: &mut Span)
    requires { IsUsable (R.tables rows.now) }
    ensures wider { IsWider span.new span.old }
    ensures freed { TouchesWhere (FreesNone (R.tables rows.now)) changes.now waiting.now span.new }
    ensures touches { let t = R.tables rows.now in
        TouchesAll is_to_allocate (AlikeFor addresses) AlikeNumbered AlikeThere t span.new changes.now }
{
    touch_freed(rows, changes, waiting, span);
    touch_tasks::<Addresses, Numbered, AnyNode, R>(rows, changes, span);
}

// Of the tasks to be told why they get none, with all that wait where what is free may be another.
#[tactic(auto, using(crate::proofs::TasksCovered::allocate_steps))]
fn touch_notes<R: Rows>(rows: &R, changes: &[Change], waiting: &Span, span: &mut Span)
    requires { IsUsable (R.tables rows.now) }
    ensures wider { IsWider span.new span.old }
    ensures held { TouchesWhere (HoldsOn (R.tables rows.now)) changes.now waiting.now span.new }
    ensures touches { let t = R.tables rows.now in
        TouchesAll is_to_allocate (AlikeFor notes) AlikePorts AlikeThere t span.new changes.now }
{
    touch_held(rows, changes, waiting, span);
    touch_tasks::<Notes, Ports, AnyNode, R>(rows, changes, span);
}

// Of the tasks to raise, with those that wait where an earlier task of a place may be out of the way.
#[tactic(auto, using(crate::proofs::TasksCovered::raise_steps))]
fn touch_raises<R: Rows>(rows: &R, changes: &[Change], waiting: &Span, span: &mut Span)
    requires { IsUsable (R.tables rows.now) }
    ensures wider { IsWider span.new span.old }
    ensures blocked { TouchesAllBlocked (R.tables rows.now) waiting.now span.new changes.now }
    ensures touches { let t = R.tables rows.now in
        TouchesAll is_to_wait (AlikeFor raises) AlikeCounting AlikeThere t span.new changes.now }
{
    touch_blocked(rows, changes, waiting, span);
    touch_tasks::<Raises, Counting, AnyNode, R>(rows, changes, span);
}

// Of the tasks to place, with all that wait where they may go elsewhere.
#[tactic(auto, using(crate::proofs::TasksCovered::schedule_steps))]
fn touch_schedules<R: Rows>(rows: &R, changes: &[Change], waiting: &Span, span: &mut Span)
    requires { IsUsable (R.tables rows.now) }
    ensures wider { IsWider span.new span.old }
    ensures moved { list_any (moves (R.tables rows.now)) changes.now ≡ true → IsWider span.new waiting.now }
    ensures touches { let t = R.tables rows.now in
        TouchesAll is_to_schedule (AlikeFor schedule) AlikeThere AlikeThere t span.new changes.now }
{
    touch_moved(rows, changes, waiting, span);
    touch_tasks::<Schedules, AnyService, AnyNode, R>(rows, changes, span);
}

impl TaskSpans {
    /// Every row may have a duty: after a call, or where settings, networks or the set of rows changed otherwise than
    /// by changes of the loops.
    pub fn full() -> TaskSpans
        ensures covers { (t : Tables) → IsUsable t → AreTasksCovered t result }
    {
        let every = Span::full();
        TaskSpans {
            expires: every,
            orphans: every,
            rejects: every,
            restarts: every,
            raises: every,
            goes: every,
            olds: every,
            deletes: every,
            addresses: every,
            notes: every,
            schedules: every,
            to_wait: every,
            to_schedule: every,
            to_allocate: every,
        }
    }

    // With what puts of tasks that run on touch: they may move where others go, and nothing else.
    fn touch_running<R: Rows>(&mut self, rows: &R, changes: &[Change])
        requires usable { IsUsable (R.tables rows.now) }
        requires covers { AreTasksCovered (R.tables rows.now) self.old }
        requires running { EachPasses (PutsRunning (R.tables rows.now)) changes.now }
        ensures stays { AreTasksCovered (R.tables rows.now) self.new }
        ensures goes_on { let u = apply_changes (R.tables rows.now) changes.now in
            IsUsable u → AreTasksCovered u self.new }
    {
        touch_moved(rows, changes, &self.to_schedule, &mut self.schedules);
    }

    // With what any changes touch, line by line.
    fn touch_each<R: Rows>(&mut self, rows: &R, changes: &[Change])
        requires usable { IsUsable (R.tables rows.now) }
        requires covers { AreTasksCovered (R.tables rows.now) self.old }
        ensures stays { AreTasksCovered (R.tables rows.now) self.new }
        ensures goes_on { let u = apply_changes (R.tables rows.now) changes.now in
            IsUsable u → AreTasksCovered u self.new }
    {
        touch_nodes(changes, &mut self.expires);
        touch_tasks::<Orphans, AnyService, DownTime, R>(rows, changes, &mut self.orphans);
        touch_tasks::<Rejects, AnyService, Constrained, R>(rows, changes, &mut self.rejects);
        touch_tasks::<Restarts, Counting, Validity, R>(rows, changes, &mut self.restarts);
        touch_raises(rows, changes, &self.to_wait, &mut self.raises);
        touch_tasks::<Goes, AnyService, AnyNode, R>(rows, changes, &mut self.goes);
        touch_tasks::<Olds, Iterating, AnyNode, R>(rows, changes, &mut self.olds);
        touch_alone::<Deletes, R>(rows, changes, &mut self.deletes);
        touch_addresses(rows, changes, &self.to_allocate, &mut self.addresses);
        touch_notes(rows, changes, &self.to_allocate, &mut self.notes);
        touch_schedules(rows, changes, &self.to_schedule, &mut self.schedules);
        touch_alone::<ToWait, R>(rows, changes, &mut self.to_wait);
        touch_alone::<ToSchedule, R>(rows, changes, &mut self.to_schedule);
        touch_alone::<ToAllocate, R>(rows, changes, &mut self.to_allocate);
    }

    /// With what these changes touch: asked before they are made. The spans then cover the rows as they are, and as the
    /// changes make them.
    pub fn touch<R: Rows>(&mut self, rows: &R, changes: &[Change])
        requires usable { IsUsable (R.tables rows.now) }
        requires covers { AreTasksCovered (R.tables rows.now) self.old }
        ensures stays { AreTasksCovered (R.tables rows.now) self.new }
        ensures goes_on { let u = apply_changes (R.tables rows.now) changes.now in
            IsUsable u → AreTasksCovered u self.new }
    {
        if put_running(rows, changes) {
            self.touch_running(rows, changes);
        } else {
            self.touch_each(rows, changes);
        }
    }

    /// With what a service's row concerns that is put anew, whatever is in it: asked before it is put. That is the
    /// service's tasks, and those that wait for port numbers.
    pub fn touch_service<R: Rows>(&mut self, rows: &R, service: Id)
        requires { IsUsable (R.tables rows.now) }
        ensures stays { let t = R.tables rows.now in AreTasksCovered t self.old → AreTasksCovered t self.new }
        ensures goes_on { PutLaw service (R.tables rows.now) self.old self.new }
    {
        let mut tasks = Span::empty();
        add_tasks_of(rows, service, &mut tasks);
        self.restarts.join(tasks);
        self.raises.join(tasks);
        self.olds.join(tasks);
        self.addresses.join(tasks);
        self.notes.join(tasks);
        self.notes.join(self.to_allocate);
    }

    /// With what a node's session concerns, where it begins, is lengthened or ends. The node itself is a row: where it
    /// changes too, that is a change.
    pub fn touch_session(&mut self, node: Id)
        ensures goes_on { SessionLaw node self.old self.new }
    {
        self.expires.add(node);
        self.schedules.join(self.to_schedule);
    }

    /// With what may have a duty as time goes by up to this time, and nothing else changes. At any time only tasks on
    /// nodes that are DOWN are orphans, and a session is over only for the nodes that are in the span of its ends.
    pub fn touch_time<R: Rows>(&mut self, rows: &R, downs: &Span, ends: &Span, until: Ms)
        requires usable { IsUsable (R.tables rows.now) }
        requires downs { Covers node_id is_down_node downs.now (R.tables rows.now).nodes }
        requires ends { HasEnds until (R.tables rows.now) self.old.expires ends.now }
        ensures goes_on { TimeLaw until (R.tables rows.now) self.old self.new }
    {
        self.expires.join(*ends);
        self.orphans = tasks_on_down(rows, downs);
        self.raises.join(self.to_wait);
        self.schedules.join(self.to_schedule);
    }

    /// With what services that come concern, and nothing else changes: tasks that wait for port numbers, of which there
    /// are fewer to give out.
    pub fn touch_new_services(&mut self)
        ensures goes_on { ServicesLaw self.old self.new }
    {
        self.notes.join(self.to_allocate);
    }

    /// With what nodes that come concern, and nothing else changes: tasks that wait for a node.
    pub fn touch_new_nodes(&mut self)
        ensures goes_on { NodesLaw self.old self.new }
    {
        let waiting = self.to_schedule;
        self.schedules.join(waiting);
    }
}
