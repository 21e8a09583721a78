// What each line over single tasks reads: of the task itself, of its service and of its node.
ghost use Rattle.std.specs.Prelude.{◌≡◌, IsTrue};
ghost use Rattle.swarm_spans.specs.Kept.{StandAlike};
ghost use Rattle.swarm_spans.specs.Lines.{is_to_schedule};

use crate::touching::{NodeReads, ServiceReads, TaskReads};
use swarm_objects::{Node, Same, Service, Task};

// They have the same service, iteration, place and node.
#[tactic(auto, using(crate::proofs::Alike::stand_alike))]
pub(crate) fn stand_alike(old: &Task, new: &Task) -> bool
    ensures { IsTrue result → StandAlike old.now new.now }
{
    if old.id != new.id || old.service != new.service {
        return false;
    }
    if old.iteration != new.iteration || old.place != new.place || old.node != new.node {
        return false;
    }
    true
}

/// Tasks on nodes that are down for long.
pub struct Orphans;

impl TaskReads for Orphans {
    ghost use Rattle.swarm_objects.specs.Tasks.Words.{is_placed};
    ghost use Rattle.swarm_spans.specs.Kept.{AlikeFor};
    ghost use Rattle.swarm_spans.specs.Lines.{orphans};

    ghost may = { is_placed };

    ghost Alike = { AlikeFor orphans };

    fn may(task: &Task) -> bool {
        task.is_placed()
    }

    #[tactic(auto, using(crate::proofs::Alike::orphans_alike))]
    fn is_alike(old: &Task, new: &Task) -> bool {
        if !stand_alike(old, new) {
            return false;
        }
        if old.is_placed() != new.is_placed() {
            return false;
        }
        true
    }
}

/// Tasks on nodes that don't meet their constraints.
pub struct Rejects;

impl TaskReads for Rejects {
    ghost use Rattle.swarm_objects.specs.Tasks.Words.{is_placed};
    ghost use Rattle.swarm_spans.specs.Kept.{AlikeFor};
    ghost use Rattle.swarm_spans.specs.Lines.{rejects};

    ghost may = { is_placed };

    ghost Alike = { AlikeFor rejects };

    fn may(task: &Task) -> bool {
        task.is_placed()
    }

    #[tactic(auto, using(crate::proofs::Alike::rejects_alike))]
    fn is_alike(old: &Task, new: &Task) -> bool {
        if !stand_alike(old, new) {
            return false;
        }
        if old.is_placed() != new.is_placed() {
            return false;
        }
        if old.is_live() != new.is_live() {
            return false;
        }
        if !old.template.constraints.same(&new.template.constraints) {
            return false;
        }
        true
    }
}

/// Live tasks that are over.
pub struct Restarts;

impl TaskReads for Restarts {
    ghost use Rattle.swarm_objects.specs.Tasks.Words.{is_live};
    ghost use Rattle.swarm_spans.specs.Kept.{AlikeFor};
    ghost use Rattle.swarm_spans.specs.Lines.{restarts};

    ghost may = { is_live };

    ghost Alike = { AlikeFor restarts };

    fn may(task: &Task) -> bool {
        task.is_live()
    }

    #[tactic(auto, using(crate::proofs::Alike::restarts_alike))]
    fn is_alike(old: &Task, new: &Task) -> bool {
        if !stand_alike(old, new) {
            return false;
        }
        if old.is_live() != new.is_live() {
            return false;
        }
        if old.has_ended() != new.has_ended() {
            return false;
        }
        true
    }
}

/// Tasks that wait for their time and for earlier tasks of their place.
pub struct Raises;

impl TaskReads for Raises {
    ghost use Rattle.swarm_objects.specs.Tasks.Words.{is_to_wait};
    ghost use Rattle.swarm_spans.specs.Kept.{AlikeFor};
    ghost use Rattle.swarm_spans.specs.Lines.{raises};

    ghost may = { is_to_wait };

    ghost Alike = { AlikeFor raises };

    fn may(task: &Task) -> bool {
        task.is_to_wait()
    }

    #[tactic(auto, using(crate::proofs::Alike::raises_alike))]
    fn is_alike(old: &Task, new: &Task) -> bool {
        if !stand_alike(old, new) {
            return false;
        }
        if old.is_to_wait() != new.is_to_wait() {
            return false;
        }
        if old.has_ended() != new.has_ended() {
            return false;
        }
        if old.raise_at != new.raise_at {
            return false;
        }
        true
    }
}

/// Tasks whose service is gone.
pub struct Goes;

impl TaskReads for Goes {
    ghost use Rattle.swarm_objects.specs.Tasks.Words.{is_kept};
    ghost use Rattle.swarm_spans.specs.Kept.{AlikeFor};
    ghost use Rattle.swarm_spans.specs.Lines.{goes};

    ghost may = { is_kept };

    ghost Alike = { AlikeFor goes };

    fn may(task: &Task) -> bool {
        task.is_kept()
    }

    #[tactic(auto, using(crate::proofs::Alike::goes_alike))]
    fn is_alike(old: &Task, new: &Task) -> bool {
        if !stand_alike(old, new) {
            return false;
        }
        if old.is_kept() != new.is_kept() {
            return false;
        }
        true
    }
}

/// Tasks of an earlier iteration of a job.
pub struct Olds;

impl TaskReads for Olds {
    ghost use Rattle.swarm_objects.specs.Tasks.Words.{is_kept};
    ghost use Rattle.swarm_spans.specs.Kept.{AlikeFor};
    ghost use Rattle.swarm_spans.specs.Lines.{olds};

    ghost may = { is_kept };

    ghost Alike = { AlikeFor olds };

    fn may(task: &Task) -> bool {
        task.is_kept()
    }

    #[tactic(auto, using(crate::proofs::Alike::olds_alike))]
    fn is_alike(old: &Task, new: &Task) -> bool {
        if !stand_alike(old, new) {
            return false;
        }
        if old.is_kept() != new.is_kept() {
            return false;
        }
        true
    }
}

// Of these lines every put of a task that may have a duty touches it.

/// Tasks that are removed.
pub struct Deletes;

impl TaskReads for Deletes {
    ghost use Rattle.swarm_objects.specs.Loops.Reaper.{is_removable};
    ghost use Rattle.swarm_spans.specs.Kept.{AlikeFor};
    ghost use Rattle.swarm_spans.specs.Lines.{deletes};

    ghost may = { is_removable };

    ghost Alike = { AlikeFor deletes };

    fn may(task: &Task) -> bool {
        !task.is_kept() && (task.is_below_assigned() || task.has_ended())
    }

    fn is_alike(_old: &Task, _new: &Task) -> bool {
        false
    }
}

/// Tasks that get addresses.
pub struct Addresses;

impl TaskReads for Addresses {
    ghost use Rattle.swarm_spans.specs.Kept.{AlikeFor};
    ghost use Rattle.swarm_spans.specs.Lines.{addresses, is_to_allocate};

    ghost may = { is_to_allocate };

    ghost Alike = { AlikeFor addresses };

    fn may(task: &Task) -> bool {
        task.state.is_new() && task.is_wanted()
    }

    fn is_alike(_old: &Task, _new: &Task) -> bool {
        false
    }
}

/// Tasks that are told why they get none.
pub struct Notes;

impl TaskReads for Notes {
    ghost use Rattle.swarm_spans.specs.Kept.{AlikeFor};
    ghost use Rattle.swarm_spans.specs.Lines.{is_to_allocate, notes};

    ghost may = { is_to_allocate };

    ghost Alike = { AlikeFor notes };

    fn may(task: &Task) -> bool {
        task.state.is_new() && task.is_wanted()
    }

    fn is_alike(_old: &Task, _new: &Task) -> bool {
        false
    }
}

/// All tasks that wait for addresses.
pub struct ToAllocate;

impl TaskReads for ToAllocate {
    ghost use Rattle.swarm_spans.specs.Kept.{AlikeFor};
    ghost use Rattle.swarm_spans.specs.Lines.{is_to_allocate, to_allocate};

    ghost may = { is_to_allocate };

    ghost Alike = { AlikeFor to_allocate };

    fn may(task: &Task) -> bool {
        task.state.is_new() && task.is_wanted()
    }

    fn is_alike(_old: &Task, _new: &Task) -> bool {
        false
    }
}

/// All tasks that wait for their time and for earlier tasks of their place.
pub struct ToWait;

impl TaskReads for ToWait {
    ghost use Rattle.swarm_objects.specs.Tasks.Words.{is_to_wait};
    ghost use Rattle.swarm_spans.specs.Kept.{AlikeFor};
    ghost use Rattle.swarm_spans.specs.Lines.{to_wait};

    ghost may = { is_to_wait };

    ghost Alike = { AlikeFor to_wait };

    fn may(task: &Task) -> bool {
        task.is_to_wait()
    }

    fn is_alike(_old: &Task, _new: &Task) -> bool {
        false
    }
}

// It waits for a node, or stops before it has one.
fn is_to_schedule(task: &Task) -> bool
    ensures { result ≡ is_to_schedule task.now }
{
    (task.is_below_assigned() && task.is_unwanted())
        || (task.state.is_pending() && task.is_wanted())
}

/// Tasks that are placed, told why they aren't, or dropped.
pub struct Schedules;

impl TaskReads for Schedules {
    ghost use Rattle.swarm_objects.specs.Loops.Scheduler.{schedule};
    ghost use Rattle.swarm_spans.specs.Kept.{AlikeFor};
    ghost use Rattle.swarm_spans.specs.Lines.{is_to_schedule};

    ghost may = { is_to_schedule };

    ghost Alike = { AlikeFor schedule };

    fn may(task: &Task) -> bool {
        is_to_schedule(task)
    }

    fn is_alike(_old: &Task, _new: &Task) -> bool {
        false
    }
}

/// All tasks that wait for a node.
pub struct ToSchedule;

impl TaskReads for ToSchedule {
    ghost use Rattle.swarm_spans.specs.Kept.{AlikeFor};
    ghost use Rattle.swarm_spans.specs.Lines.{is_to_schedule, to_schedule};

    ghost may = { is_to_schedule };

    ghost Alike = { AlikeFor to_schedule };

    fn may(task: &Task) -> bool {
        is_to_schedule(task)
    }

    fn is_alike(_old: &Task, _new: &Task) -> bool {
        false
    }
}

// What is read of a service.

/// Nothing, or only whether it is there.
pub struct AnyService;

impl ServiceReads for AnyService {
    ghost use Rattle.swarm_spans.specs.Lines.{AlikeThere};

    ghost Alike = { AlikeThere };

    #[tactic(auto, using(crate::proofs::Alike::there_alike))]
    fn is_alike(_old: &Service, _new: &Service) -> bool {
        true
    }
}

/// Which tasks count for it.
pub struct Counting;

impl ServiceReads for Counting {
    ghost use Rattle.swarm_spans.specs.Lines.{AlikeCounting};

    ghost Alike = { AlikeCounting };

    #[tactic(auto, using(crate::proofs::Alike::counting_alike))]
    fn is_alike(old: &Service, new: &Service) -> bool {
        if old.id != new.id {
            return false;
        }
        if old.spec.mode.is_job() != new.spec.mode.is_job() {
            return false;
        }
        if old.iteration != new.iteration {
            return false;
        }
        true
    }
}

/// Which of its tasks are old.
pub struct Iterating;

impl ServiceReads for Iterating {
    ghost use Rattle.swarm_spans.specs.Lines.{AlikeOlds};

    ghost Alike = { AlikeOlds };

    #[tactic(auto, using(crate::proofs::Alike::olds_of_alike))]
    fn is_alike(old: &Service, new: &Service) -> bool {
        if old.spec.mode.is_job() != new.spec.mode.is_job() {
            return false;
        }
        if old.iteration != new.iteration {
            return false;
        }
        true
    }
}

/// Which of its ports lack a number.
pub struct Ports;

impl ServiceReads for Ports {
    ghost use Rattle.swarm_spans.specs.Lines.{AlikePorts};

    ghost Alike = { AlikePorts };

    #[tactic(auto, using(crate::proofs::Alike::ports_alike))]
    fn is_alike(old: &Service, new: &Service) -> bool {
        if !old.spec.ports.same(&new.spec.ports) {
            return false;
        }
        if !old.numbers.same(&new.numbers) {
            return false;
        }
        true
    }
}

/// Whether each of its ports has a number.
pub struct Numbered;

impl ServiceReads for Numbered {
    ghost use Rattle.swarm_spans.specs.Lines.{AlikeNumbered};

    ghost Alike = { AlikeNumbered };

    #[tactic(auto, using(crate::proofs::Alike::numbered_alike))]
    fn is_alike(old: &Service, new: &Service) -> bool {
        if !old.spec.ports.same(&new.spec.ports) {
            return false;
        }
        if !old.numbers.same(&new.numbers) {
            return false;
        }
        true
    }
}

// What is read of a node.

/// Nothing, or only whether it is there.
pub struct AnyNode;

impl NodeReads for AnyNode {
    ghost use Rattle.swarm_spans.specs.Lines.{AlikeThere};

    ghost Alike = { AlikeThere };

    #[tactic(auto, using(crate::proofs::Alike::there_alike))]
    fn is_alike(_old: &Node, _new: &Node) -> bool {
        true
    }
}

/// Whether it is neither DOWN nor on DRAIN.
pub struct Validity;

impl NodeReads for Validity {
    ghost use Rattle.swarm_spans.specs.Lines.{AlikeValid};

    ghost Alike = { AlikeValid };

    #[tactic(auto, using(crate::proofs::Alike::valid_alike))]
    fn is_alike(old: &Node, new: &Node) -> bool {
        if old.is_valid_node() != new.is_valid_node() {
            return false;
        }
        true
    }
}

/// Since when it is down.
pub struct DownTime;

impl NodeReads for DownTime {
    ghost use Rattle.swarm_spans.specs.Lines.{AlikeDown};

    ghost Alike = { AlikeDown };

    #[tactic(auto, using(crate::proofs::Alike::down_alike))]
    fn is_alike(old: &Node, new: &Node) -> bool {
        if old.is_down() != new.is_down() {
            return false;
        }
        if old.down_since != new.down_since {
            return false;
        }
        true
    }
}

/// What constraints ask of it: any put of the node may change that.
pub struct Constrained;

impl NodeReads for Constrained {
    ghost use Rattle.swarm_spans.specs.Lines.{AlikePlatform};

    ghost Alike = { AlikePlatform };

    fn is_alike(_old: &Node, _new: &Node) -> bool {
        false
    }
}
