// Rows one after the other, as iterators that are seen as the list of the rows that are left.
ghost use Rattle.std.specs.Prelude.{◌≡◌, filter};
ghost use Rattle.std.specs.Iterator.{YieldsFirstRef, item_count};
ghost use Rattle.swarm_objects.specs.Rows.{RisesFrom};
ghost use Rattle.swarm_objects.specs.Tasks.Words.{is_of};
ghost use Rattle.swarm_store.specs.Inside.State.{Stands, tables_now};

use crate::state::State;
use crate::tracked::Tracked;
use std::marker::Model;
use swarm_index::Row;
use swarm_objects::{Id, Rows, Task};

// The rows that are left, by rising id.
#[derive(Drop)]
pub(crate) struct Walk<'a, R: Row + Drop> {
    rows: &'a Tracked<R>,
    after: Id,
}

impl<'a, R: Row + Drop> Model for Walk<'a, R> {
    ghost use Rattle.std.specs.Prelude.{List};
    ghost use Rattle.swarm_objects.specs.Walks.{walk};

    ghost Value = { List R };

    ghost view = { λ it. walk R.id_of it.after it.rows.now.rows };
}

impl<'a, R: Row + Drop> Iterator for Walk<'a, R> {
    type Item = &'a R;

    ghost next_gives = { YieldsFirstRef (λ it. it) };

    ghost remaining = { item_count (λ it. it) };

    #[tactic(auto, using(swarm_objects::proofs::WalkLemmas::walk_end))]
    fn next(&mut self) -> Option<&'a R> {
        let row = self.rows.next(self.after)?;
        self.after = row.id();
        Some(row)
    }
}

// All of the rows, by rising id.
#[tactic(auto, using(swarm_objects::proofs::WalkLemmas::walk_begins))]
pub(crate) fn all<R: Row + Drop>(rows: &Tracked<R>) -> Walk<'_, R>
    requires { RisesFrom R.id_of 0 rows.now.rows }
    ensures { result ≡ rows.now.rows }
{
    Walk { rows, after: 0 }
}

// The tasks of a service that are left, by rising id.
#[derive(Drop)]
pub(crate) struct ServiceTasks<'a> {
    state: &'a State,
    service: Id,
    after: Id,
}

impl<'a> Model for ServiceTasks<'a> {
    ghost use Rattle.std.specs.Prelude.{List, filter};
    ghost use Rattle.swarm_objects.specs.declared.tasks.Task.{Task as Row};
    ghost use Rattle.swarm_objects.specs.Rows.{task_id};
    ghost use Rattle.swarm_objects.specs.Tasks.Words.{is_of};
    ghost use Rattle.swarm_objects.specs.Walks.{walk};

    ghost Value = { List Row };

    ghost view = { λ it. walk task_id it.after (filter (is_of it.service) it.state.now.tasks.rows) };
}

impl<'a> Iterator for ServiceTasks<'a> {
    type Item = &'a Task;

    ghost next_gives = { YieldsFirstRef (λ it. it) };

    ghost remaining = { item_count (λ it. it) };

    #[tactic(auto, using(swarm_objects::proofs::WalkLemmas::walk_end))]
    fn next(&mut self) -> Option<&'a Task> {
        let row = self.state.next_task_of(self.service, self.after)?;
        self.after = row.id;
        Some(row)
    }
}

// The tasks of the service, by rising id.
#[tactic(auto, using(swarm_objects::proofs::WalkLemmas::walk_begins_among))]
pub(crate) fn service_tasks(state: &State, service: Id) -> ServiceTasks<'_>
    requires { Stands (tables_now state.now) }
    ensures { result ≡ filter (is_of service) state.now.tasks.rows }
{
    ServiceTasks {
        state,
        service,
        after: 0,
    }
}
