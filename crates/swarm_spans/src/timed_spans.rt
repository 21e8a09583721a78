// The rows for which time passes.
ghost use Rattle.std.specs.Prelude.{◌≡◌};
ghost use Rattle.swarm_objects.specs.ChangeLists.{apply_changes};
ghost use Rattle.swarm_objects.specs.Usable.{IsUsable};
ghost use Rattle.swarm_objects.specs.World.{Tables};
ghost use Rattle.swarm_spans.specs.Timed.{AreTimed, TimedNodesLaw, TimedPutLaw, TimedServicesLaw};

use crate::passing::{
    Downs, Remotes, add_put_nodes, add_put_services, narrow_nodes, narrow_services,
};
use crate::span::Span;
use swarm_objects::{Change, Id, Rows};

/// The rows for which time passes: each service whose update is under way or paused, each node that is DOWN, and each
/// remote node. A tick of the clock looks at these alone.
#[derive(Clone, Copy, Drop)]
pub struct TimedSpans {
    pub updates: Span,
    pub downs: Span,
    pub remotes: Span,
}

impl TimedSpans {
    /// Every row may be one.
    pub fn full() -> TimedSpans
        ensures { (t : Tables) → IsUsable t → AreTimed t result }
    {
        let every = Span::full();
        TimedSpans {
            updates: every,
            downs: every,
            remotes: every,
        }
    }

    /// With the rows that these changes put. The spans then have the rows as they are, and as the changes make them.
    pub fn touch(&mut self, changes: &[Change])
        ensures stays { (t : Tables) → AreTimed t self.old → AreTimed t self.new }
        ensures goes_on { (t : Tables) → IsUsable (apply_changes t changes.now) → AreTimed t self.old
            → AreTimed (apply_changes t changes.now) self.new }
    {
        add_put_services(changes, &mut self.updates);
        add_put_nodes::<Downs>(changes, &mut self.downs);
        add_put_nodes::<Remotes>(changes, &mut self.remotes);
    }

    /// With a service whose row is put anew, whatever is in it.
    pub fn touch_service(&mut self, service: Id)
        ensures stays { (t : Tables) → AreTimed t self.old → AreTimed t self.new }
        ensures goes_on { TimedPutLaw service self.old self.new }
    {
        self.updates.add(service);
    }

    /// With services that come from this id on.
    pub fn touch_new_services(&mut self, first: Id)
        ensures { TimedServicesLaw first self.old self.new }
    {
        self.updates.join(Span::onwards(first));
    }

    /// With nodes that come from this id on.
    pub fn touch_new_nodes(&mut self, first: Id)
        ensures { TimedNodesLaw first self.old self.new }
    {
        let new = Span::onwards(first);
        self.downs.join(new);
        self.remotes.join(new);
    }

    /// Without the rows for which no time passes any more.
    pub fn narrow<R: Rows>(&mut self, rows: &R)
        requires usable { IsUsable (R.tables rows.now) }
        requires covers { AreTimed (R.tables rows.now) self.old }
        ensures { AreTimed (R.tables rows.now) self.new }
    {
        narrow_services(rows, &mut self.updates);
        narrow_nodes::<Downs, R>(rows, &mut self.downs);
        narrow_nodes::<Remotes, R>(rows, &mut self.remotes);
    }
}
