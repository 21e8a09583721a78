// Refusals that more than one kind of call gives.
ghost use Rattle.std.specs.Prelude.{◌≡◌, ◌⊎◌};

use std::alloc::Global;
use swarm_objects::{Duplicate, Kind, Name, NoMemory, Refusal, Wanted};

/// That nothing of this kind has the name; or memory is wanting for the name.
pub fn not_found(alloc: Global, kind: Kind, name: &Name) -> Refusal
    ensures { (result ≡ Refusal.NoMemory) ⊎ (result ≡ Refusal.NotFound kind (Wanted.Name name.now)) }
{
    match name.duplicate(alloc) {
        Ok(name) => Refusal::NotFound(kind, Wanted::Name(name)),
        Err(NoMemory) => Refusal::NoMemory,
    }
}
