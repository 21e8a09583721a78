// The ids of the rows that have one digest of their keys of one number, by rising number.
ghost use Rattle.std.specs.Prelude.{◌≡◌, ◌↔◌, ◌∷◌, [], ◌==◌, ◌&&◌, ◌||◌, not, ℕ, IfOk, OnErr, OnOk, IsTrue};
ghost use Rattle.swarm_index.specs.Inside.Ids.{has_id, IsNextId};
ghost use Rattle.swarm_objects.specs.Rows.{IsRising, itself};

use std::alloc::Global;
use std::marker::Model;
use swarm_objects::{Id, NoMemory};

#[derive(Drop)]
pub struct Ids {
    ids: Vec<Id>,
}

impl Model for Ids {
    ghost use Rattle.std.specs.Prelude.{ℕ, List as Seq};
    ghost use Rattle.swarm_objects.specs.Rows.{IsRising, itself};

    ghost Value = { Seq ℕ };

    ghost view = { λ i. i.ids.items };

    ghost invariant = { λ i. IsRising itself i.ids.items };
}

impl Ids {
    // The one id.
    pub fn with(alloc: Global, id: Id) -> Result<Ids, NoMemory>
        ensures { IfOk result (λ ids. ids ≡ id ∷ []) }
    {
        let Ok(mut ids) = Vec::with_capacity(alloc, 1) else {
            return Err(NoMemory);
        };
        let Ok(()) = ids.push(id) else {
            return Err(NoMemory);
        };
        Ok(Ids { ids })
    }

    // The id comes, if it isn't there, unless memory is wanting.
    pub fn add(&mut self, id: Id) -> Result<(), NoMemory>
        ensures ok { OnOk result ((i : ℕ) → has_id self.new i ≡ (id == i || has_id self.old i)) }
        ensures err { OnErr result (self.new ≡ self.old) }
    {
        let Err(at) = self.ids.as_slice().binary_search(&id) else {
            return Ok(());
        };
        let Ok(()) = self.ids.insert(at, id) else {
            return Err(NoMemory);
        };
        Ok(())
    }

    // The id goes, if it is there. It takes no memory.
    pub fn remove(&mut self, id: Id)
        ensures { (i : ℕ) → has_id self.new i ≡ (not (id == i) && has_id self.old i) }
    {
        if let Ok(at) = self.ids.as_slice().binary_search(&id) {
            self.ids.remove(at);
        }
    }

    // Whether there are none.
    pub fn is_empty(&self) -> bool
        ensures { IsTrue result ↔ (self.now ≡ []) }
    {
        self.ids.is_empty()
    }

    // All of them.
    pub fn as_slice(&self) -> &[Id]
        ensures same { result.now ≡ self.now }
        ensures order { IsRising itself result.now }
    {
        self.ids.as_slice()
    }

    // The least one above this number.
    pub fn next(&self, after: Id) -> Option<Id>
        ensures { IsNextId self.now after result }
    {
        match self.ids.as_slice().binary_search(&after) {
            Ok(at) => self.ids.as_slice().get(at + 1).copied(),
            Err(at) => self.ids.as_slice().get(at).copied(),
        }
    }
}
