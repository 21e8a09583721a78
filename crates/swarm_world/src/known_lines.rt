// Lines of duties over services that go by what is remembered of the rows.
ghost use Rattle.std.specs.Prelude.{◌≡◌, List, Some, flat_map};
ghost use Rattle.swarm_objects.specs.Rows.{first_of, row_at, service_id};
ghost use Rattle.swarm_objects.specs.Usable.{IsUsable};
ghost use Rattle.swarm_objects.specs.World.{Tables};
ghost use Rattle.swarm_objects.specs.declared.duties.Duty.{Duty as DutyRow};
ghost use Rattle.swarm_objects.specs.declared.services.Service.{Service as ServiceRow};
ghost use Rattle.swarm_spans.specs.Spans.{CoversServices};
ghost use Rattle.swarm_world.specs.Inside.Known.{KnowsAll};

use crate::known::Known;
use swarm_objects::{Duty, Rows, Service};
use swarm_replicated::{create_duty_by, down_duty_by};
use swarm_spans::{Span, next_service_in};
use swarm_update::update_duty_by;

/// A line of duties over the services, of each of which something may be remembered.
pub trait KnownLine {
    /// What there is to do for a service, in order.
    ghost duties: { Tables → ServiceRow → List DutyRow };

    /// The first of a service's duties. What was counted for it is remembered.
    fn duty<R: Rows>(rows: &R, known: &mut Known, service: &Service) -> Option<Duty>
        requires usable { IsUsable (R.tables rows.now) }
        requires knows { KnowsAll (R.tables rows.now) known.old }
        requires row { row_at service_id service.now.id (R.tables rows.now).services ≡ Some service.now }
        ensures first { result ≡ first_of (duties (R.tables rows.now) service.now) }
        ensures knows { KnowsAll (R.tables rows.now) known.new };
}

/// The first duty of a line, by its span. Services before it, which have none, leave the span.
#[tactic(auto, using(swarm_spans::proofs::Firsts::services, crate::proofs::RowsKnown::row_steps))]
pub fn first_by_known<L: KnownLine, R: Rows>(
    rows: &R,
    known: &mut Known,
    span: &mut Span,
) -> Option<Duty>
    requires usable { IsUsable (R.tables rows.now) }
    requires knows { KnowsAll (R.tables rows.now) known.old }
    requires covers { CoversServices L.duties (R.tables rows.now) span.old }
    ensures first { let t = R.tables rows.now in result ≡ first_of (flat_map (L.duties t) t.services) }
    ensures knows { KnowsAll (R.tables rows.now) known.new }
    ensures covers { CoversServices L.duties (R.tables rows.now) span.new }
{
    if span.is_over() {
        return None;
    }
    while let Some(service) = next_service_in(rows, span) {
        if let Some(duty) = L::duty(rows, known, service) {
            return Some(duty);
        }
        span.pass(service.id);
    }
    *span = Span::empty();
    None
}

/// Replicated services that give up a slot.
pub struct Downs;

impl KnownLine for Downs {
    ghost use Rattle.swarm_spans.specs.Services.Lines.{downs};

    ghost duties = { downs };

    #[tactic(auto, using(crate::proofs::RowsKnown::known_steps))]
    fn duty<R: Rows>(rows: &R, known: &mut Known, service: &Service) -> Option<Duty> {
        down_duty_by(rows, &mut known.places, service)
    }
}

/// Replicated services that get a task.
pub struct Creates;

impl KnownLine for Creates {
    ghost use Rattle.swarm_spans.specs.Services.Lines.{creates};

    ghost duties = { creates };

    #[tactic(auto, using(crate::proofs::RowsKnown::known_steps))]
    fn duty<R: Rows>(rows: &R, known: &mut Known, service: &Service) -> Option<Duty> {
        create_duty_by(rows, &mut known.places, service)
    }
}

/// Services with something to do about an update.
pub struct Updates;

impl KnownLine for Updates {
    ghost use Rattle.swarm_spans.specs.Services.Lines.{updates};

    ghost duties = { updates };

    #[tactic(auto, using(crate::proofs::RowsKnown::known_steps))]
    fn duty<R: Rows>(rows: &R, known: &mut Known, service: &Service) -> Option<Duty> {
        update_duty_by(rows, &mut known.survey, service)
    }
}
