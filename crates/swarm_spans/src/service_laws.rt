// Over a step, the spans of the lines of services go on covering their duties, where they get what the step touches.
ghost use Rattle.swarm_spans.specs.Services.Lines.{
  MovedLaw,
  PlacedLaw,
  PortLaw,
  TrimLaw,
  UpdateLaw,
  comes,
  creates,
  downs,
  leaves,
  job_creates,
};

/// Replicated services and jobs that get a task, and replicated ones that give up a slot.
pub fn slots_go_on()
    ensures down { MovedLaw downs }
    ensures create { MovedLaw creates }
    ensures next { MovedLaw job_creates }
{}

/// Global services that leave a node or come to one.
pub fn places_go_on()
    ensures leave { PlacedLaw leaves }
    ensures come { PlacedLaw comes }
{}

/// Services with ports to be numbered, services with something to do about an update, and old tasks to be removed.
pub fn upkeep_goes_on()
    ensures port { PortLaw }
    ensures update { UpdateLaw }
    ensures trim { TrimLaw }
{}
