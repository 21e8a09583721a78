//! What a line's span must have after a step, so that it goes on covering: each law is the contract of a function that
//! does nothing.
ghost use Rattle.swarm_spans.specs.Blocked.{BlockedLaw};
ghost use Rattle.swarm_spans.specs.Lines.{
  AddressLaw,
  DeleteLaw,
  ExpireLaw,
  GoneLaw,
  NoteLaw,
  OldLaw,
  OrphanLaw,
  RaiseLaw,
  RejectLaw,
  RestartLaw,
  ScheduleLaw,
  ScheduledLaw,
  ToAllocateLaw,
  ToScheduleLaw,
  ToWaitLaw,
};
ghost use Rattle.swarm_spans.specs.Moved.{MovedLaw};
ghost use Rattle.swarm_spans.specs.Told.{ToldLaw};
ghost use Rattle.swarm_spans.specs.Touched.{ReadyLaw};

/// What no event of a step names is as it was.
pub fn events_tell_all()
    ensures { ToldLaw }
{}

/// The lines over single tasks.
pub fn tasks_go_on()
    ensures delete { DeleteLaw }
    ensures gone { GoneLaw }
    ensures old { OldLaw }
    ensures orphan { OrphanLaw }
    ensures reject { RejectLaw }
    ensures restart { RestartLaw }
    ensures to_schedule { ToScheduleLaw }
    ensures to_allocate { ToAllocateLaw }
    ensures to_wait { ToWaitLaw }
{}

/// The lines of tasks that wait for something, and the nodes'.
pub fn waiting_go_on()
    ensures raise { RaiseLaw }
    ensures address { AddressLaw }
    ensures note { NoteLaw }
    ensures schedule { ScheduleLaw }
    ensures scheduled { ScheduledLaw }
    ensures expire { ExpireLaw }
    ensures blocked { BlockedLaw }
    ensures ready { ReadyLaw }
    ensures moved { MovedLaw }
{}
