// A window of place numbers: what the tasks that were noted so far say of each place in it.
ghost use Rattle.std.specs.Prelude.{◌≡◌, ◌+◌, ◌++◌, ◌∷◌, [], ◌<◌, List, None, IfSome, ℕ};
ghost use Rattle.swarm_objects.specs.declared.services.Service.{Service as ServiceRow};
ghost use Rattle.swarm_objects.specs.declared.tasks.Task.{Task as TaskRow};
ghost use Rattle.role_words.specs.Marks.{mark_with};
ghost use Rattle.role_words.specs.Windows.{blank, noted, noted_at, lesser, IsNext, NoneBefore, IsFresh, Shows};
ghost use Rattle.role_words.specs.Windows.{Steps, slot_at};

use swarm_objects::{Service, Task};

// How many numbers a window has.
pub const WIDTH: usize = 1024;

// What the tasks that were noted say of a place: it has one, a live one, and its newest one closes it.
#[derive(Clone, Copy, Drop)]
struct Mark {
    has_task: bool,
    is_live: bool,
    is_closed: bool,
}

const BLANK: Mark = Mark {
    has_task: false,
    is_live: false,
    is_closed: false,
};

/// The place of a service with this number: a live task stands in it; such a one does, or its newest task closes it.
#[derive(Clone, Copy, Drop)]
pub struct Slot {
    pub number: u64,
    pub is_live: bool,
    pub is_held: bool,
}

/// The places from a first number on.
#[derive(Drop)]
pub struct Window {
    first: u64,
    marks: [Mark; WIDTH],
    // no place from here on has a task
    reach: usize,
    // the least number of a place behind the window
    beyond: Option<u64>,
    // the next place that is asked for
    index: usize,
}

// What is said of the place when the task is noted.
fn mark_with(mark: Mark, service: &Service, task: &Task) -> Mark
    ensures { result ≡ mark_with service.now task.now mark }
{
    let stands = task.is_in_place(
        service,
        service.spec.mode.place_at(task.place.place_number()),
    );
    Mark {
        has_task: true,
        is_live: mark.is_live || (stands && task.is_live()),
        is_closed: if stands {
            task.closes()
        } else {
            mark.is_closed
        },
    }
}

// The lesser of the best number so far and this one.
fn lesser(best: Option<u64>, number: u64) -> Option<u64>
    ensures { result ≡ lesser best number }
{
    match best {
        Some(best) if best <= number => Some(best),
        _ => Some(number),
    }
}

impl Window {
    // All its places are blank.
    fn blank(first: u64) -> Window
        ensures { result ≡ blank first }
    {
        Window {
            first,
            marks: [BLANK; WIDTH],
            reach: 0,
            beyond: None,
            index: 0,
        }
    }

    /// A window from this number on, with no task noted.
    pub fn new(first: u64) -> Window
        ensures fresh { IsFresh result first }
        ensures shows { (s : ServiceRow) → Shows result s [] }
    {
        Window::blank(first)
    }

    // Notes the task, which counts for the service, at the place of its number.
    fn note_at(&mut self, index: usize, service: &Service, task: &Task)
        requires { index < 1024 }
        ensures { self.new ≡ noted_at service.now task.now index self.old }
    {
        self.marks[index] = mark_with(self.marks[index], service, task);
        self.reach = self.reach.max(index + 1);
    }

    // Notes the task, whose place has this number.
    fn note_number(&mut self, service: &Service, task: &Task, number: u64)
        ensures { self.new ≡ noted service.now task.now number self.old }
    {
        if !task.counts_for(service) || number < self.first {
            return;
        }
        let index = number - self.first;
        if index < WIDTH as u64 {
            self.note_at(index as usize, service, task);
        } else {
            self.beyond = lesser(self.beyond, number);
        }
    }

    /// Notes one task more.
    pub fn note(&mut self, service: &Service, task: &Task)
        ensures fresh { (first : ℕ) → IsFresh self.old first → IsFresh self.new first }
        ensures shows { (tasks : List TaskRow) → Shows self.old service.now tasks
            → Shows self.new service.now (tasks ++ task.now ∷ []) }
    {
        self.note_number(service, task, task.place.place_number());
    }

    // The next place that has a task.
    fn next_index(&self) -> Option<usize>
        ensures some { IfSome result (λ index. IsNext self.now index) }
        ensures none { result ≡ None → NoneBefore self.now.reach self.now }
    {
        for index in self.index..self.reach.min(WIDTH) {
            if self.marks[index].has_task {
                return Some(index);
            }
        }
        None
    }

    // The place at this index.
    fn slot_at(&self, index: usize) -> Slot
        requires { index < 1024 }
        ensures { result ≡ slot_at self.now index }
    {
        let mark = self.marks[index];
        Slot {
            number: self.first.wrapping_add(index as u64),
            is_live: mark.is_live,
            is_held: mark.is_live || mark.is_closed,
        }
    }

    /// The next place in the window.
    pub fn next(&mut self) -> Option<Slot>
        ensures { (s : ServiceRow) (tasks : List TaskRow) → Shows self.old s tasks
            → Steps self.old self.new result s tasks }
    {
        match self.next_index() {
            Some(index) => {
                self.index = index + 1;
                Some(self.slot_at(index))
            }
            None => None,
        }
    }

    /// The least number of a place behind the window.
    pub fn beyond(&self) -> Option<u64>
        ensures { result ≡ self.now.beyond }
    {
        self.beyond
    }
}
