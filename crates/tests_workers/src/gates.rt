// What holds workers before a turn, and a script before its further lines.
use std::sync::Wait;
use std::sync::atomic::{AtomicBool, Ordering};
use std::thread;
use swarm_objects::Gate;

// What one thread sets and others wait for, with so many looks at most.
#[derive(Drop)]
pub struct Flag {
    is_set: AtomicBool,
    missed: AtomicBool,
}

impl Flag {
    fn new() -> Flag {
        Flag {
            is_set: AtomicBool::new(false),
            missed: AtomicBool::new(false),
        }
    }

    pub fn set(&self) {
        self.is_set.store(true, Ordering::SeqCst);
    }

    pub fn wait(&self) {
        for _ in 0..10_000_000u64 {
            if self.is_set.load(Ordering::SeqCst) {
                return;
            }
            thread::yield_now();
        }
        self.missed.store(true, Ordering::SeqCst);
    }

    // It was set, and nobody's looks ran out.
    fn was_kept(&self) -> bool {
        self.is_set.load(Ordering::SeqCst) && !self.missed.load(Ordering::SeqCst)
    }
}

// Holds each worker before its first turn until the other one's gate was called, and worker 1 until the script was
// asked for bytes after its first lines. The script has to wait for one turn of each of worker 1's loops.
#[derive(Drop)]
pub struct Holding {
    workers: u64,
    // the turn of worker 1 before which it has made one of each of its loops
    turn: u64,
    first: Flag,
    second: Flag,
    pub asked: Flag,
    pub turned: Flag,
}

impl Holding {
    // For one worker or two.
    pub fn new(workers: u64, turn: u64) -> Holding {
        Holding {
            workers,
            turn,
            first: Flag::new(),
            second: Flag::new(),
            asked: Flag::new(),
            turned: Flag::new(),
        }
    }

    fn hold_first(&self) {
        self.first.set();
        if self.workers == 2 {
            self.second.wait();
        }
        self.asked.wait();
    }

    fn hold_second(&self) {
        self.second.set();
        self.first.wait();
    }

    // Each worker's gate was called, and all that was waited for came.
    pub fn was_kept(&self) -> bool {
        let first = self.first.was_kept() && self.asked.was_kept() && self.turned.was_kept();
        first && (self.workers == 1 || self.second.was_kept())
    }
}

impl Gate for Holding {
    fn before<R: Wait>(&self, _rt: &R, worker: u64, turn: u64) {
        if worker == 1 && turn == self.turn {
            self.turned.set();
        }
        if turn == 1 && worker == 1 {
            self.hold_first();
        }
        if turn == 1 && worker == 2 {
            self.hold_second();
        }
    }
}
