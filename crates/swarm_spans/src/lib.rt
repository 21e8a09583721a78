// Spans over the lines of duties: what lets a step of a world cost what changed, and not what is there.
//
// A *line* is a part of a loop's list of duties that goes row by row over one table. For each line a world keeps a span
// of numbers in which every row with a duty of the line has its id. The line's first duty is found by trying the rows
// of its span in order; those without a duty leave the span. A step widens the spans by the rows whose duties may have
// appeared. A span takes no memory, so none of this can fail.
//
// This crate stands below those of the loops. So what there is to do for a row comes by a trait (`TaskLine`,
// `ServiceLine`, `NodeLine`), which the world gives for each line by the loop's own question of one row.
//
// A commit of a list of changes touches each line's span before it applies them, with the rows as they are: by
// `touch_tasks` with what the line reads (`reads`), and by `touch_blocked`, `touch_moved`, `touch_freed` and
// `touch_held` where other rows may let a waiting task go on. These take the span of all that wait, which is kept like
// a line of its own. Puts of tasks that run on, as most duties are, touch no line but one (`put_running`). Afterwards
// the lines' laws (`tasks_go_on`, `waiting_go_on`) say that each span covers in the tables that the changes made.
// `ServiceSpans` and `TaskSpans` have the spans of all lines, and do so for each of them (`touch`). Time and a node's
// session are no rows: `touch_time` and `touch_session` say what they touch, and `touch_new_services` and
// `touch_new_nodes` what rows touch that a call makes. What else changes (settings, networks, rows that calls remove)
// makes all spans full. Where only a step's events are known, `events_tell_all` says that what they don't name is as it
// was.
//
// A tick of the clock shall cost what it concerns, too. `TimedSpans` has the rows for which time passes: services with
// an update under way or paused, nodes that are DOWN, remote nodes. They too are touched by a commit's changes and by
// rows that come, and `narrow` takes those out again for which time passes no more. `touch_time` takes these spans, and
// one of the nodes whose session may be over by the time that is given. Such a span is made by `Wakes`, which has times
// at which rows are to join one.
#![tactic(auto)]

mod adding;
mod bits;
mod blocking;
mod first;
mod holding;
mod laws;
mod next;
mod passing;
pub mod reads;
mod running;
mod service_laws;
mod service_ports;
mod service_spans;
mod service_touches;
mod service_trims;
mod span;
mod task_spans;
mod timed_spans;
mod touching;
mod wakes;

pub use adding::{add_tasks_of, add_tasks_on};
pub use blocking::{touch_blocked, touch_moved};
pub use first::{
    NodeLine, ServiceLine, TaskLine, first_of_nodes, first_of_services, first_of_tasks, narrowed,
};
pub use laws::{events_tell_all, tasks_go_on, waiting_go_on};
pub use next::{next_node_in, next_service_in, next_task_in};
pub use service_laws::{places_go_on, slots_go_on, upkeep_goes_on};
pub use service_spans::ServiceSpans;
pub use service_touches::{Places, Sight, Updates, add_shifted};
pub use service_trims::add_remains;
pub use span::Span;
pub use task_spans::TaskSpans;
pub use timed_spans::TimedSpans;
pub use touching::{NodeReads, ServiceReads, TaskReads, touch_nodes, touch_tasks};
pub use wakes::Wakes;
