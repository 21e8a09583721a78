// What a caller does in its turn.
ghost use Rattle.std.specs.Prelude.{◌≡◌, length};
ghost use Rattle.swarm_cluster.specs.Looks.{Shows, Steps};
ghost use Rattle.swarm_model.specs.History.{replay};
ghost use Rattle.swarm_world.specs.Laws.{IsLawful};
ghost use Rattle.swarm_world.specs.Work.{Calls, Turns};

use swarm_objects::{Call, Ms, Reply, Role, Rows, Settle};
use swarm_world::{Turn, World};
use turn_cell::TurnWork;

/// What a caller is told, and how many entries the history then had.
#[derive(Drop)]
pub struct Answer<T> {
    pub at: u64,
    pub reply: T,
}

/// What a look gives: the settle test and the time, of one world.
#[derive(Clone, Copy)]
pub struct Look {
    pub settle: Settle,
    pub now: Ms,
}

/// What came of a step of a stretch, in which a caller does the duties of all control loops.
#[derive(Clone, Copy)]
pub enum Advance {
    /// The settle test named a duty, and this came of the turn of its loop.
    Turned(Turn),
    /// It named none, and nothing changed.
    Idle(Look),
}

// The reply, with the length of the history.
fn told<T>(world: &World, reply: T) -> Answer<T>
    ensures at { result.at ≡ length world.now }
    ensures reply { result.reply ≡ reply }
    ensures lawful { IsLawful world.now }
{
    Answer {
        at: world.len(),
        reply,
    }
}

// The settle test, with the time.
fn look_at(world: &mut World) -> Look
    ensures same { world.new ≡ world.old }
    ensures shows { Shows result (replay world.old) }
{
    Look {
        settle: world.look(),
        now: world.now(),
    }
}

// A call.
#[derive(Drop)]
pub struct Calling {
    pub by: u64,
    pub call: Call,
}

impl TurnWork<World> for Calling {
    type Answer = Answer<Reply>;

    ghost number = { λ w. w.by };

    ghost relates = { λ w before after answer.
        Calls w.by w.call before after answer.reply
        × (answer.at ≡ length after)
        × IsLawful after };

    fn caller(&self) -> u64 {
        self.by
    }

    fn run(self, value: &mut World) -> Answer<Reply> {
        let Calling { by, call } = self;
        let reply = value.call(by, call);
        told(value, reply)
    }
}

// A turn of a control loop.
#[derive(Drop)]
pub struct Turning {
    pub by: u64,
    pub role: Role,
}

impl TurnWork<World> for Turning {
    type Answer = Answer<Turn>;

    ghost number = { λ w. w.by };

    ghost relates = { λ w before after answer.
        Turns w.by w.role before after answer.reply
        × (answer.at ≡ length after)
        × IsLawful after };

    fn caller(&self) -> u64 {
        self.by
    }

    fn run(self, value: &mut World) -> Answer<Turn> {
        let Turning { by, role } = self;
        let reply = value.turn(by, role);
        told(value, reply)
    }
}

// A step of a stretch.
#[derive(Drop)]
pub struct Advancing {
    pub by: u64,
}

impl TurnWork<World> for Advancing {
    type Answer = Answer<Advance>;

    ghost number = { λ w. w.by };

    ghost relates = { λ w before after answer.
        Steps w.by before after answer.reply
        × (answer.at ≡ length after)
        × IsLawful after };

    fn caller(&self) -> u64 {
        self.by
    }

    fn run(self, value: &mut World) -> Answer<Advance> {
        let Advancing { by } = self;
        let reply = match value.advance(by) {
            Some(turn) => Advance::Turned(turn),
            None => Advance::Idle(look_at(value)),
        };
        told(value, reply)
    }
}

// The settle test, with the time.
#[derive(Drop)]
pub struct Looking {
    pub by: u64,
}

impl TurnWork<World> for Looking {
    type Answer = Answer<Look>;

    ghost number = { λ w. w.by };

    ghost relates = { λ w before after answer.
        (after ≡ before)
        × Shows answer.reply (replay after)
        × (answer.at ≡ length after)
        × IsLawful after };

    fn caller(&self) -> u64 {
        self.by
    }

    fn run(self, value: &mut World) -> Answer<Look> {
        let look = look_at(value);
        told(value, look)
    }
}
