// What a service's tasks say to an update of each of its places: noted in one pass, for all places with small numbers.
ghost use Rattle.std.specs.Prelude.{◌*◌, ◌+◌, ◌<◌, ◌≡◌, IfSome, None, min};
ghost use Rattle.role_words.specs.Marks.{tasks_at};
ghost use Rattle.swarm_objects.specs.Usable.{IsUsable};
ghost use Rattle.swarm_update.specs.KnownSurvey.{ShowsOthers, with_mark};
ghost use Rattle.swarm_update.specs.Marks.{answers, blank, mark_at, mark_of, mark_with, noted, noted_at, IsFirst, NoneBefore, ShowsPlaces};
ghost use Rattle.swarm_update.specs.StalePlaces.{is_stale, is_stale_from};

use crate::stale_places::{StalePlaces, WORD, WORDS};
use role_words::{is_starting, place_tasks};
use std::marker::Model;
use swarm_objects::{Rows, Service, Task};

/// How many places are noted: those with a number below this.
pub const WIDTH: usize = 1024;

// What the tasks that were noted say of a place: which kinds of live ones it has, and that its newest one closes it
// and is dirty.
#[derive(Clone, Copy, Drop)]
pub struct Mark {
    has_live: bool,
    has_dirty: bool,
    has_clean: bool,
    has_running: bool,
    pub has_flying: bool,
    is_closed: bool,
}

const UNMARKED: Mark = Mark {
    has_live: false,
    has_dirty: false,
    has_clean: false,
    has_running: false,
    has_flying: false,
    is_closed: false,
};

/// What is asked of a place.
#[derive(Clone, Copy)]
pub enum Question {
    /// A clean live task of it runs, and a dirty one is live.
    Swap,
    /// It is dirty, without a clean live task.
    Replace,
    /// It has a dirty live task, or no live one and its newest task closes it and is dirty.
    Dirty,
}

impl Mark {
    // It is as the question asks.
    fn answers(&self, question: Question) -> bool
        ensures { result ≡ answers question self.now }
    {
        let is_dirty = self.has_dirty || (!self.has_live && self.is_closed);
        match question {
            Question::Swap => self.has_running && self.has_dirty,
            Question::Replace => is_dirty && !self.has_clean,
            Question::Dirty => is_dirty,
        }
    }

    // What is said of the place with this task, which stands in it. Templates are compared once.
    fn with<R: Rows>(self, rows: &R, service: &Service, task: &Task) -> Mark
        ensures { result ≡ mark_with (R.tables rows.now) service.now task.now self }
    {
        let is_live = task.is_live();
        let is_clean = task.is_clean(service);
        let is_live_clean = is_live && is_clean;
        Mark {
            has_live: self.has_live || is_live,
            has_dirty: self.has_dirty || (is_live && !is_clean),
            has_clean: self.has_clean || is_live_clean,
            has_running: self.has_running || (is_live_clean && task.is_running()),
            has_flying: self.has_flying || (is_live_clean && is_starting(rows, service, task)),
            is_closed: task.closes() && !is_clean,
        }
    }
}

// What the tasks of the service's place with this number say of it.
#[tactic(auto, using(crate::proofs::Renoting::mark_all))]
fn mark_of<R: Rows>(rows: &R, service: &Service, number: u64) -> Mark
    requires { IsUsable (R.tables rows.now) }
    ensures { let t = R.tables rows.now in
        result ≡ mark_of t service.now (tasks_at service.now t.tasks number) }
{
    let mut mark = UNMARKED;
    for task in place_tasks(rows, service, number) {
        mark = mark.with(rows, service, task);
    }
    mark
}

/// The places of a service, as its update sees them. Contracts see all fields: the model is there for what is always so
/// of them, so that few marks are written where all are cleared.
#[derive(Drop)]
pub struct Places {
    marks: [Mark; WIDTH],
    // no place from here on and below the width has a task, so no such mark is set
    reach: usize,
    // a task stands in a place that isn't noted
    has_far: bool,
}

impl Model for Places {
    ghost use Rattle.swarm_update.specs.PlaceMarks.{EndsAt, PlaceMarks};

    ghost Value = { PlaceMarks };

    ghost view = { λ p. record { marks = p.marks; reach = p.reach; has_far = p.has_far } };

    ghost invariant = { λ p. EndsAt p.reach p.marks };
}

impl Places {
    /// No task was noted.
    pub fn blank() -> Places
        ensures { result ≡ blank }
    {
        Places {
            marks: [UNMARKED; WIDTH],
            reach: 0,
            has_far: false,
        }
    }

    /// No task is noted any more. Only marks that may be set are written.
    pub fn clear(&mut self)
        ensures { self.new ≡ blank }
    {
        let mut end = self.reach;
        while end > 0 {
            end -= 1;
            self.marks[end] = UNMARKED;
        }
        self.reach = 0;
        self.has_far = false;
    }

    // Notes the task, whose place has this number.
    fn note_at<R: Rows>(&mut self, index: usize, rows: &R, service: &Service, task: &Task)
        requires { index < WIDTH }
        ensures { self.new ≡ noted_at (R.tables rows.now) service.now task.now index self.old }
    {
        self.reach = self.reach.max(index + 1);
        if task.is_in_place(service, service.spec.mode.place_at(index as u64)) {
            self.marks[index] = self.marks[index].with(rows, service, task);
        }
    }

    /// Notes one task more.
    pub fn note<R: Rows>(&mut self, rows: &R, service: &Service, task: &Task)
        ensures { self.new ≡ noted (R.tables rows.now) service.now self.old task.now }
    {
        let number = task.place.place_number();
        if number < WIDTH as u64 {
            self.note_at(number as usize, rows, service, task);
        } else {
            self.has_far = true;
        }
    }

    // Sets what is said of the place with this number.
    fn set_mark(&mut self, index: usize, mark: Mark)
        requires { index < WIDTH }
        ensures { self.new ≡ with_mark index mark self.old }
    {
        self.reach = self.reach.max(index + 1);
        self.marks[index] = mark;
    }

    // Notes all tasks of the place with this number anew.
    fn renote<R: Rows>(&mut self, rows: &R, service: &Service, number: u64)
        requires usable { IsUsable (R.tables rows.now) }
        requires number { number < WIDTH }
        ensures { let t = R.tables rows.now in
            self.new ≡ with_mark number (mark_of t service.now (tasks_at service.now t.tasks number)) self.old }
    {
        self.set_mark(number as usize, mark_of(rows, service, number));
    }

    // Notes the tasks of those stale places anew whose numbers are of this word.
    fn renote_word<R: Rows>(&mut self, rows: &R, service: &Service, stale: &StalePlaces, word: u64)
        requires usable { IsUsable (R.tables rows.now) }
        requires word { word < WORDS }
        requires others { ShowsOthers self.old (R.tables rows.now) service.now
            (is_stale_from (word * WORD) stale.now) }
        ensures { ShowsOthers self.new (R.tables rows.now) service.now
            (is_stale_from (word * WORD + WORD) stale.now) }
    {
        let first = word * WORD;
        for number in first..first + WORD {
            if stale.has(number) {
                self.renote(rows, service, number);
            }
        }
    }

    /// Notes the tasks of the stale places anew.
    pub fn renote_all<R: Rows>(&mut self, rows: &R, service: &Service, stale: &StalePlaces)
        requires usable { IsUsable (R.tables rows.now) }
        requires others { ShowsOthers self.old (R.tables rows.now) service.now (is_stale stale.now) }
        ensures { let t = R.tables rows.now in ShowsPlaces self.new t service.now t.tasks }
    {
        for word in 0..WORDS {
            if !stale.has_none(word) {
                self.renote_word(rows, service, stale, word);
            }
        }
    }

    /// A task stands in a place that isn't noted.
    pub fn has_far(&self) -> bool
        ensures { result ≡ self.now.has_far }
    {
        self.has_far
    }

    /// No place from here on and below the width has a task.
    pub fn end(&self) -> usize
        ensures { result ≡ min self.now.reach WIDTH }
    {
        self.reach.min(WIDTH)
    }

    /// What is said of the place with this number.
    pub fn mark_at(&self, index: usize) -> Mark
        requires { index < WIDTH }
        ensures { result ≡ mark_at self.now index }
    {
        self.marks[index]
    }

    /// The least number of a place that is as the question asks.
    pub fn first(&self, question: Question) -> Option<u64>
        ensures some { IfSome result (λ number. IsFirst self.now question number) }
        ensures none { result ≡ None → NoneBefore self.now.reach self.now question }
    {
        for index in 0..self.end() {
            if self.mark_at(index).answers(question) {
                return Some(index as u64);
            }
        }
        None
    }
}
