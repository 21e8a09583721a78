// The attempts to restart tasks, under change.
ghost use Rattle.std.specs.Prelude.{◌≡◌, ◌++◌, ◌∷◌, IfOk, OnErr, OnOk, [], count_by, filter, not};
ghost use Rattle.swarm_model.specs.Calls.Services.{is_attempt_of};
ghost use Rattle.swarm_objects.specs.Tasks.Attempts.{is_kept_attempt};

use std::alloc::Global;
use std::marker::Model;
use std::mem::replace;
use swarm_objects::{Attempt, Id, Ms, NoMemory, Place, Version};

// The attempts; and what they were when the changes under way began: their first so many, unless some went.
#[derive(Drop)]
pub(crate) struct Attempts {
    rows: Vec<Attempt>,
    count: usize,
    before: Option<Vec<Attempt>>,
}

impl Model for Attempts {
    ghost use Rattle.std.specs.Prelude.{◌≤◌, length};
    ghost use Rattle.swarm_objects.specs.declared.tasks.Attempt.{Attempt as Row};
    ghost use Rattle.swarm_store.specs.Inside.Span.{Span};
    ghost use Rattle.swarm_store.specs.Inside.Attempts.{started};

    ghost Value = { Span Row };

    ghost view = { λ a. record { start = started a.before a.count a.rows.items; rows = a.rows.items } };

    ghost invariant = { λ a. a.count ≤ length a.rows.items };
}

impl Attempts {
    pub(crate) fn new(alloc: Global) -> Attempts
        ensures start { result.start ≡ [] }
        ensures rows { result.rows ≡ [] }
    {
        Attempts {
            rows: Vec::new(alloc),
            count: 0,
            before: None,
        }
    }

    // How many there were of this place and version of the service within the window.
    pub(crate) fn count(
        &self,
        clock: Ms,
        service: Id,
        place: Place,
        version: Version,
        window: Ms,
    ) -> u64
        ensures { result ≡ count_by (is_kept_attempt clock service place version window) self.now.rows }
    {
        self.rows
            .iter()
            .filter(|attempt| {
                attempt.service == service
                    && attempt.place == place
                    && attempt.version == version
                    && (window == 0 || clock.saturating_sub(attempt.at) < window)
            })
            .count() as u64
    }

    pub(crate) fn keep(&mut self, attempt: Attempt) -> Result<(), NoMemory>
        ensures ok { OnOk result (self.new.rows ≡ self.old.rows ++ attempt ∷ []) }
        ensures err { OnErr result (self.new.rows ≡ self.old.rows) }
        ensures start { self.new.start ≡ self.old.start }
    {
        match self.rows.push(attempt) {
            Ok(()) => Ok(()),
            Err(_) => Err(NoMemory),
        }
    }

    // The attempts of the service are forgotten.
    pub(crate) fn forget(&mut self, alloc: Global, service: Id) -> Result<(), NoMemory>
        ensures ok { OnOk result (self.new.rows ≡ filter (λ a. not (is_attempt_of service a)) self.old.rows) }
        ensures start { self.new.start ≡ self.old.start }
    {
        let left = without_service(alloc, self.rows.as_slice(), service)?;
        let mut all = replace(&mut self.rows, left);
        if self.before.is_none() {
            all.truncate(self.count);
            self.before = Some(all);
        }
        self.count = 0;
        Ok(())
    }

    pub(crate) fn settle(&mut self)
        ensures rows { self.new.rows ≡ self.old.rows }
        ensures start { self.new.start ≡ self.old.rows }
    {
        self.count = self.rows.len();
        self.before = None;
    }

    pub(crate) fn take_back(&mut self)
        ensures rows { self.new.rows ≡ self.old.start }
        ensures start { self.new.start ≡ self.old.start }
    {
        match replace(&mut self.before, None) {
            Some(before) => self.rows = before,
            None => self.rows.truncate(self.count),
        }
        self.count = self.rows.len();
    }
}

// The attempts that aren't of this service.
fn without_service(
    alloc: Global,
    attempts: &[Attempt],
    service: Id,
) -> Result<Vec<Attempt>, NoMemory>
    ensures { IfOk result (λ left. left.items ≡ filter (λ a. not (is_attempt_of service a)) attempts.now) }
{
    let Ok(mut left) = Vec::with_capacity(alloc, attempts.len()) else {
        return Err(NoMemory);
    };
    for attempt in attempts {
        if attempt.service != service {
            left.push_reserved(*attempt);
        }
    }
    Ok(left)
}
