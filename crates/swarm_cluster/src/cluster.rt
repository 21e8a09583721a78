// The world behind the turn.
ghost use Rattle.std.specs.Prelude.{◌≡◌, ℕ, ◌≤◌, ◌<◌, [], List, length, IfOk, All};
ghost use Rattle.swarm_model.specs.History.{replay};
ghost use Rattle.swarm_model.specs.Laws.Matches.{Matches};
ghost use Rattle.swarm_model.specs.Settle.{settle_answer};
ghost use Rattle.swarm_objects.specs.declared.calls.Entry.{Entry};
ghost use Rattle.swarm_world.specs.Laws.{IsLawful};
ghost use Rattle.swarm_world.specs.Work.{Calls, Turns};
ghost use Rattle.turn_cell.specs.Entries.{Each, mine_of};
ghost use Rattle.turn_cell.specs.Passes.{number_of, seen, known, mine, cell_seats, IsPassOf, IsNew, HaveAllNumbers, Extends, Adds, AgreesWith};
ghost use Rattle.swarm_cluster.specs.Looks.{Shows, Steps};

use crate::pauses::Pause;
use crate::works::{Advance, Advancing, Answer, Calling, Look, Looking, Turning};
use crossbeam_utils::sync::EventCount;
use std::alloc::Global;
use std::sync::Wait;
use std::sync::atomic::{AtomicU64, Ordering};
use swarm_objects::{Call, List, NoMemory, Reply, Role, Settle};
use swarm_world::{Turn, World};
use turn_cell::TurnCell;

/// A caller's right to make calls, and what it knows of the history.
pub type Pass = turn_cell::Pass<World>;

/// A world that several callers share. Who has nothing to do rests at a place of it.
#[derive(Drop)]
pub struct Cluster {
    cell: TurnCell<World>,
    pub(crate) idle: EventCount,
    // how many pauses there are
    pub(crate) pauses: AtomicU64,
}

impl Cluster {
    /// A cluster with an empty history, and the passes of the callers 0 to seats - 1, in order.
    pub fn new(alloc: Global, seats: u64) -> Result<(Cluster, List<Pass>), NoMemory>
        requires { (0 < seats) × (seats ≤ 1000) }
        ensures seats { IfOk result (λ r. (cell_seats r.0.cell ≡ seats) × (length r.1 ≡ seats)) }
        ensures passes { IfOk result (λ r. Each (IsNew r.0.cell) r.1) }
    {
        let world = World::new(alloc)?;
        let (cell, passes) = TurnCell::new(alloc, world, seats)?;
        let cluster = Cluster {
            cell,
            idle: EventCount::new(),
            pauses: AtomicU64::new(0),
        };
        Ok((cluster, passes))
    }

    // There is a pause.
    fn is_paused(&self) -> bool {
        self.pauses.load(Ordering::SeqCst) != 0
    }

    // Wakes all who rest. In a pause its end does that.
    fn wake(&self) {
        if !self.is_paused() {
            self.idle.notify_all();
        }
    }

    /// Makes the caller's call. It is the next entry, or the reply says why it is none.
    pub fn call<R: Wait>(&self, rt: &R, pass: &mut Pass, call: Call) -> Answer<Reply>
        requires pass { IsPassOf self.now.cell pass.old }
        ensures pass { IsPassOf self.now.cell pass.new }
        ensures extends { Extends pass.old pass.new }
        ensures known { known pass.new ≡ length (seen pass.new) }
        ensures lawful { IsLawful (seen pass.new) }
        ensures calls { (before : List Entry)
            × AgreesWith pass.old before
            × Calls (number_of pass.old) call before (seen pass.new) result.reply
            × Adds pass.old before pass.new }
        ensures at { result.at ≡ length (seen pass.new) }
    {
        let work = Calling {
            by: pass.number(),
            call,
        };
        let answer = self.cell.with_turn(rt, pass, work);
        self.wake();
        answer
    }

    /// The caller does the first duty of the control loop, if there is one.
    pub fn turn<R: Wait>(&self, rt: &R, pass: &mut Pass, role: Role) -> Answer<Turn>
        requires pass { IsPassOf self.now.cell pass.old }
        ensures pass { IsPassOf self.now.cell pass.new }
        ensures extends { Extends pass.old pass.new }
        ensures known { known pass.new ≡ length (seen pass.new) }
        ensures lawful { IsLawful (seen pass.new) }
        ensures turns { (before : List Entry)
            × AgreesWith pass.old before
            × Turns (number_of pass.old) role before (seen pass.new) result.reply
            × Adds pass.old before pass.new }
        ensures at { result.at ≡ length (seen pass.new) }
    {
        let work = Turning {
            by: pass.number(),
            role,
        };
        let answer = self.cell.with_turn(rt, pass, work);
        if let Turn::Did(_) = answer.reply {
            self.wake();
        }
        answer
    }

    /// The caller does the duty that the settle test names. Where it names none, gives what a look gives.
    pub fn advance<R: Wait>(&self, rt: &R, pass: &mut Pass) -> Answer<Advance>
        requires pass { IsPassOf self.now.cell pass.old }
        ensures pass { IsPassOf self.now.cell pass.new }
        ensures extends { Extends pass.old pass.new }
        ensures known { known pass.new ≡ length (seen pass.new) }
        ensures lawful { IsLawful (seen pass.new) }
        ensures steps { (before : List Entry)
            × AgreesWith pass.old before
            × Steps (number_of pass.old) before (seen pass.new) result.reply
            × Adds pass.old before pass.new }
        ensures at { result.at ≡ length (seen pass.new) }
    {
        let work = Advancing { by: pass.number() };
        let answer = self.cell.with_turn(rt, pass, work);
        if let Advance::Turned(Turn::Did(_)) = answer.reply {
            self.wake();
        }
        answer
    }

    /// The settle test and the time, of one world. It appends nothing.
    pub fn look<R: Wait>(&self, rt: &R, pass: &mut Pass) -> Answer<Look>
        requires pass { IsPassOf self.now.cell pass.old }
        ensures pass { IsPassOf self.now.cell pass.new }
        ensures extends { Extends pass.old pass.new }
        ensures known { known pass.new ≡ length (seen pass.new) }
        ensures lawful { IsLawful (seen pass.new) }
        ensures look { Shows result.reply (replay (seen pass.new)) }
        ensures mine { mine pass.new ≡ mine pass.old }
        ensures at { result.at ≡ length (seen pass.new) }
    {
        let work = Looking { by: pass.number() };
        self.cell.with_turn(rt, pass, work)
    }

    /// The settle test. It appends nothing. Where it says that all is settled, what runs matches the specifications.
    #[tactic(auto, using(crate::proofs::Matched::says_matched))]
    pub fn settled<R: Wait>(&self, rt: &R, pass: &mut Pass) -> Answer<Settle>
        requires pass { IsPassOf self.now.cell pass.old }
        ensures pass { IsPassOf self.now.cell pass.new }
        ensures extends { Extends pass.old pass.new }
        ensures known { known pass.new ≡ length (seen pass.new) }
        ensures lawful { IsLawful (seen pass.new) }
        ensures settled { result.reply ≡ settle_answer (replay (seen pass.new)) }
        ensures matched { result.reply ≡ Settle.Settled → Matches (seen pass.new) }
        ensures mine { mine pass.new ≡ mine pass.old }
        ensures at { result.at ≡ length (seen pass.new) }
    {
        let Answer { at, reply } = self.look(rt, pass);
        Answer {
            at,
            reply: reply.settle,
        }
    }

    /// How long the history is at one moment. It waits for nobody.
    pub fn news(&self, pass: &mut Pass) -> u64
        requires pass { IsPassOf self.now.cell pass.old }
        ensures pass { IsPassOf self.now.cell pass.new × (number_of pass.new ≡ number_of pass.old) }
        ensures known { (known pass.old ≤ result) × (known pass.new ≡ result) }
        ensures seen { (seen pass.new ≡ seen pass.old) × (mine pass.new ≡ mine pass.old) }
    {
        self.cell.count(pass)
    }

    /// May wait while the history has at most so many entries.
    pub fn rest<R: Wait>(&self, rt: &R, pass: &mut Pass, length: u64)
        requires pass { IsPassOf self.now.cell pass.old }
        ensures pass { IsPassOf self.now.cell pass.new × (number_of pass.new ≡ number_of pass.old) }
        ensures known { known pass.old ≤ known pass.new }
        ensures seen { (seen pass.new ≡ seen pass.old) × (mine pass.new ≡ mine pass.old) }
    {
        for _ in rt.forever() {
            // announced before the test, so that no entry comes unnoticed between the test and the sleep
            let key = self.idle.prepare_wait();
            if self.news(pass) > length {
                break;
            }
            key.wait(rt);
        }
    }

    /// A pause, for a caller that does the duties of all control loops itself: as long as it is kept, nobody is woken,
    /// and who waits it out before each turn makes at most the turn that it had begun.
    pub fn pause(&self) -> Pause<'_> {
        Pause::begin(self)
    }

    /// Waits while there is a pause.
    pub fn wait_out_pauses<R: Wait>(&self, rt: &R) {
        if !self.is_paused() {
            return;
        }
        for _ in rt.forever() {
            // announced before the test, so that no end comes unnoticed between the test and the sleep
            let key = self.idle.prepare_wait();
            if !self.is_paused() {
                break;
            }
            key.wait(rt);
        }
    }

    /// The world, once all passes have come back, in any order.
    pub fn close(self, passes: List<Pass>) -> World
        requires cell { All (IsPassOf self.cell) passes }
        requires all { HaveAllNumbers self.cell passes }
        ensures passes { All (λ p. AgreesWith p result) passes }
        ensures others { (n : ℕ) → cell_seats self.cell ≤ n → mine_of (λ e. e.by) n result ≡ [] }
    {
        let Cluster { cell, .. } = self;
        cell.close(passes)
    }
}
