// What is waited for, and the least of it.
ghost use Rattle.std.specs.Prelude.{◌≡◌};
ghost use Rattle.swarm_model.specs.Settle.{cause_number, wait_cmp, wait_till};
ghost use Rattle.swarm_objects.specs.Rows.{keep_least, least_by};

use std::cmp::Ordering;
use std::marker::Model;
use swarm_objects::{Cause, Id, Ms};

/// What is waited for, until when.
#[derive(Clone, Copy)]
pub struct Wait {
    pub time: Ms,
    pub cause: Cause,
    pub id: Id,
}

impl Model for Wait {
    ghost use Rattle.swarm_model.specs.Settle.{Wait as Awaited};

    ghost Value = { Awaited };

    ghost view = { λ w. record { time = w.time; cause = w.cause; id = w.id } };

    ghost inverse = { λ v. record { time = v.time; cause = v.cause; id = v.id } };
}

// The place of the cause among waits of one time.
fn cause_number(cause: Cause) -> u8
    ensures { result ≡ cause_number cause }
{
    cause as u8
}

impl Wait {
    // By time, then cause, then id.
    fn compare(&self, other: &Wait) -> Ordering
        ensures { result ≡ wait_cmp self.now other.now }
    {
        self.time
            .cmp(&other.time)
            .then(cause_number(self.cause).cmp(&cause_number(other.cause)))
            .then(self.id.cmp(&other.id))
    }
}

// The wait, where it comes before the best one so far.
fn keep_least(best: Option<Wait>, wait: Wait) -> Option<Wait>
    ensures { result ≡ keep_least wait_cmp best wait }
{
    match best {
        Some(least) if wait.compare(&least) != Ordering::Less => Some(least),
        _ => Some(wait),
    }
}

/// A time that is waited for, where there is one, beside the best wait so far.
pub fn wait_till(best: Option<Wait>, cause: Cause, id: Id, time: Option<Ms>) -> Option<Wait>
    ensures { result ≡ least_by wait_cmp best (wait_till cause id time) }
{
    match time {
        Some(time) => keep_least(best, Wait { time, cause, id }),
        None => best,
    }
}
