// What a service's tasks say to an update of its places: one pass over them for a window of numbers.
ghost use Rattle.std.specs.Prelude.{◌≡◌, ◌-◌, ◌<◌, ◌||◌, ◌&&◌, not, true};
ghost use Rattle.swarm_objects.specs.Tasks.Places.{place_tasks};
ghost use Rattle.swarm_objects.specs.Usable.{IsUsable};
ghost use Rattle.role_words.specs.UpdateMarks.{covers, marked, marked_at, unmarked, update_mark_at, update_mark_of};
ghost use Rattle.role_words.specs.UpdateMarks.{update_mark_with, update_window, ShowsUpdates};

use crate::runs::is_starting;
use crate::window::WIDTH;
use swarm_objects::walks::tasks_of;
use swarm_objects::{Rows, Service, Task};

// What the tasks that were noted say of a place: which kinds of live ones it has, and that its newest one closes it
// and is dirty.
#[derive(Clone, Copy, Drop)]
pub struct UpdateMark {
    has_live: bool,
    has_dirty: bool,
    has_clean: bool,
    has_running: bool,
    pub has_flying: bool,
    is_closed: bool,
}

const UNMARKED: UpdateMark = UpdateMark {
    has_live: false,
    has_dirty: false,
    has_clean: false,
    has_running: false,
    has_flying: false,
    is_closed: false,
};

impl UpdateMark {
    /// It has a dirty live task, or no live one and its newest task closes it and is dirty.
    pub fn is_dirty(&self) -> bool
        ensures { result ≡ (self.now.has_dirty || (not self.now.has_live && self.now.is_closed)) }
    {
        self.has_dirty || (!self.has_live && self.is_closed)
    }

    /// A clean live task of the place runs, and a dirty one is live.
    pub fn is_to_swap(&self) -> bool
        ensures { result ≡ (self.now.has_running && self.now.has_dirty) }
    {
        self.has_running && self.has_dirty
    }

    /// The place is dirty, without a clean live task.
    pub fn is_to_replace(&self) -> bool
        ensures { let m = self.now in
            result ≡ ((m.has_dirty || (not m.has_live && m.is_closed)) && not m.has_clean) }
    {
        self.is_dirty() && !self.has_clean
    }

    // What is said of the place with this task, which stands in it. Templates are compared once.
    fn with<R: Rows>(self, rows: &R, service: &Service, task: &Task) -> UpdateMark
        ensures { result ≡ update_mark_with (R.tables rows.now) service.now task.now self }
    {
        let is_live = task.is_live();
        let is_clean = task.is_clean(service);
        let is_live_clean = is_live && is_clean;
        UpdateMark {
            has_live: self.has_live || is_live,
            has_dirty: self.has_dirty || (is_live && !is_clean),
            has_clean: self.has_clean || is_live_clean,
            has_running: self.has_running || (is_live_clean && task.is_running()),
            has_flying: self.has_flying || (is_live_clean && is_starting(rows, service, task)),
            is_closed: task.closes() && !is_clean,
        }
    }
}

/// The places from a first number on, as an update sees them.
#[derive(Drop)]
pub struct UpdateWindow {
    first: u64,
    marks: [UpdateMark; WIDTH],
}

impl UpdateWindow {
    // No task was noted.
    fn unmarked(first: u64) -> UpdateWindow
        ensures { result ≡ unmarked first }
    {
        UpdateWindow {
            first,
            marks: [UNMARKED; WIDTH],
        }
    }

    // The place with this number is in it.
    fn covers(&self, number: u64) -> bool
        ensures { result ≡ covers self.now number }
    {
        self.first <= number && number - self.first < WIDTH as u64
    }

    // Notes the task, which stands in the place at this index.
    fn note_at<R: Rows>(&mut self, index: usize, rows: &R, service: &Service, task: &Task)
        requires { index < 1024 }
        ensures { self.new ≡ marked_at (R.tables rows.now) service.now task.now index self.old }
    {
        self.marks[index] = self.marks[index].with(rows, service, task);
    }

    // Notes one task more.
    fn note<R: Rows>(&mut self, rows: &R, service: &Service, task: &Task)
        ensures { self.new ≡ marked (R.tables rows.now) service.now self.old task.now }
    {
        let number = task.place.place_number();
        if self.covers(number) && task.is_in_place(service, service.spec.mode.place_at(number)) {
            self.note_at((number - self.first) as usize, rows, service, task);
        }
    }

    // What is said of the place with this number, which is in the window.
    #[tactic(auto, using(crate::proofs::Updating::window_covers))]
    fn mark_at(&self, number: u64) -> UpdateMark
        requires { covers self.now number ≡ true }
        ensures { result ≡ update_mark_at self.now (number - self.now.first) }
    {
        self.marks[(number - self.first) as usize]
    }
}

// The window from this number on, with all tasks of the service.
fn window_of<R: Rows>(rows: &R, service: &Service, first: u64) -> UpdateWindow
    requires { IsUsable (R.tables rows.now) }
    ensures { result ≡ update_window (R.tables rows.now) service.now first }
{
    let mut window = UpdateWindow::unmarked(first);
    for task in tasks_of(rows, service.id) {
        window.note(rows, service, task);
    }
    window
}

/// The service's places, from the least number on.
pub fn update_places<R: Rows>(rows: &R, service: &Service) -> UpdateWindow
    requires { IsUsable (R.tables rows.now) }
    ensures { let t = R.tables rows.now in ShowsUpdates result t service.now t.tasks }
{
    window_of(rows, service, 0)
}

// Goes on to the window from this number on. Apart, so that only this makes a window beside the one that is there.
fn go_on<R: Rows>(window: &mut UpdateWindow, rows: &R, service: &Service, first: u64)
    requires { IsUsable (R.tables rows.now) }
    ensures { window.new ≡ update_window (R.tables rows.now) service.now first }
{
    *window = window_of(rows, service, first);
}

// Goes on to the window from this number on, unless its place is in this one.
fn go_to<R: Rows>(window: &mut UpdateWindow, rows: &R, service: &Service, number: u64)
    requires usable { IsUsable (R.tables rows.now) }
    requires shows { let t = R.tables rows.now in ShowsUpdates window.old t service.now t.tasks }
    ensures shows { let t = R.tables rows.now in ShowsUpdates window.new t service.now t.tasks }
    ensures covers { covers window.new number ≡ true }
{
    if !window.covers(number) {
        go_on(window, rows, service, number);
    }
}

/// What the tasks say of the service's place with this number. Cheap where the numbers that are asked for rise.
pub fn mark_of<R: Rows>(
    window: &mut UpdateWindow,
    rows: &R,
    service: &Service,
    number: u64,
) -> UpdateMark
    requires usable { IsUsable (R.tables rows.now) }
    requires shows { let t = R.tables rows.now in ShowsUpdates window.old t service.now t.tasks }
    ensures shows { let t = R.tables rows.now in ShowsUpdates window.new t service.now t.tasks }
    ensures mark { let t = R.tables rows.now in
        result ≡ update_mark_of t service.now (place_tasks t service.now number) }
{
    go_to(window, rows, service, number);
    window.mark_at(number)
}
