// The world with its history.
ghost use Rattle.std.specs.Prelude.{◌≡◌, ◌<◌, [], IfOk, IfSome, Some, false, length};
ghost use Rattle.swarm_objects.specs.CallWords.{is_halt};
ghost use Rattle.swarm_objects.specs.Duties.{duties};
ghost use Rattle.swarm_objects.specs.Kinds.{role_of};
ghost use Rattle.swarm_objects.specs.Rows.{first_of};
ghost use Rattle.swarm_model.specs.History.{IsLegal, replay};
ghost use Rattle.swarm_model.specs.Settle.{settle_answer};
ghost use Rattle.swarm_objects.specs.Usable.{IsUsable};
ghost use Rattle.swarm_objects.specs.declared.loops.Role.{Role as LoopRole};
ghost use Rattle.swarm_world.specs.Inside.Records.{tables_of};
ghost use Rattle.swarm_world.specs.Laws.{IsLawful};
ghost use Rattle.swarm_world.specs.Work.{Advances, Calls, Turns};

use crate::marks::Marks;
use crate::parts::Parts;
use crate::records::Records;
use crate::turns::Turn;
use std::alloc::Global;
use std::marker::Model;
use swarm_objects::limits::MOST_ENTRIES;
use swarm_objects::{
    Call, Duty, Entry, Id, Ms, Network, NoMemory, Node, Place, Refusal, Reply, Role, Rows, Service,
    Settings, Settle, Task, TaskKey, Version, What,
};
use turn_cell::Counted;

/// The world with its history. Contracts see the history: the world is its replay.
#[derive(Drop)]
pub struct World {
    // large, as the marks are, so that the world itself is moved lightly
    parts: Box<Parts>,
    history: Vec<Entry>,
    // where a duty may be: no part of what contracts see
    marks: Box<Marks>,
}

impl Model for World {
    ghost use Rattle.std.specs.Prelude.{List};
    ghost use Rattle.swarm_objects.specs.declared.calls.Entry.{Entry};
    ghost use Rattle.swarm_world.specs.Inside.Kept.{IsKept};

    ghost Value = { List Entry };

    ghost view = { λ w. w.history.items };

    ghost invariant = { IsKept };
}

impl World {
    /// The empty history, with room for Halt.
    pub fn new(alloc: Global) -> Result<World, NoMemory>
        ensures { IfOk result (λ world. world ≡ []) }
    {
        let Ok(history) = Vec::with_capacity(alloc, 1) else {
            return Err(NoMemory);
        };
        let Ok(parts) = Parts::new(alloc) else {
            return Err(NoMemory);
        };
        let Ok(parts) = Box::new(alloc, parts) else {
            return Err(NoMemory);
        };
        let Ok(marks) = Box::new(alloc, Marks::new(alloc)) else {
            return Err(NoMemory);
        };
        Ok(World {
            parts,
            history,
            marks,
        })
    }

    // The rows that control loops read.
    fn rows(&self) -> &Records
        ensures tables { tables_of result.now ≡ (replay self.now).tables }
        ensures usable { IsUsable (tables_of result.now) }
    {
        &self.parts.records
    }

    // Halt stands in the history.
    fn is_halted(&self) -> bool
        ensures { result ≡ (replay self.now).halted }
    {
        self.parts.halted
    }

    // Appends Halt to a history without it. It takes no memory.
    fn halt(&mut self, by: u64) -> Reply
        requires { (replay self.old).halted ≡ false }
        ensures calls { Calls by Call.Halt self.old self.new result }
        ensures legal { IsLegal self.new }
    {
        self.parts.halt();
        self.marks.touch_all();
        let entry = Entry {
            by,
            what: What::Call(Call::Halt),
        };
        match self.history.push(entry) {
            Ok(()) => Reply::HaltDone,
            Err(_) => unreachable!(),
        }
    }

    // Appends another call, where memory is there.
    fn append(&mut self, by: u64, call: Call) -> Reply
        requires running { (replay self.old).halted ≡ false }
        requires room { length self.old < 300000 }
        requires other { is_halt call ≡ false }
        ensures calls { Calls by call self.old self.new result }
        ensures legal { IsLegal self.new }
    {
        // an entry and Halt
        let Ok(()) = self.history.reserve(2) else {
            return Reply::Refused(Refusal::NoMemory);
        };
        let version = self.history.len() as u64 + 1;
        let marks = &mut *self.marks;
        let parts = &mut *self.parts;
        marks.touch_call(parts, &call);
        let Ok(reply) = parts.enter(marks, version, &call) else {
            return Reply::Refused(Refusal::NoMemory);
        };
        let entry = Entry {
            by,
            what: What::Call(call),
        };
        match self.history.push(entry) {
            Ok(()) => reply,
            Err(_) => unreachable!(),
        }
    }

    /// The caller's call. It is the next entry, or `Halted`, `Full` or `NoMemory` says why it is none.
    #[tactic(auto, using(crate::proofs::Lawful::lawful))]
    pub fn call(&mut self, by: u64, call: Call) -> Reply
        ensures calls { Calls by call self.old self.new result }
        ensures lawful { IsLawful self.new }
    {
        if self.is_halted() {
            return Reply::Refused(Refusal::Halted);
        }
        let count = self.history.len() as u64;
        match call {
            Call::Halt => self.halt(by),
            _ if count >= MOST_ENTRIES => Reply::Refused(Refusal::Full(count)),
            other => self.append(by, other),
        }
    }

    // Appends the first duty of its control loop, where memory is there.
    fn append_duty(&mut self, by: u64, duty: Duty) -> Turn
        requires running { (replay self.old).halted ≡ false }
        requires room { length self.old < 300000 }
        requires first { first_of (duties (role_of duty) (replay self.old)) ≡ Some duty }
        ensures turns { Turns by (role_of duty) self.old self.new result }
        ensures legal { IsLegal self.new }
    {
        // an entry and Halt
        let Ok(()) = self.history.reserve(2) else {
            return Turn::NoMemory;
        };
        let count = self.history.len() as u64;
        let marks = &mut *self.marks;
        let parts = &mut *self.parts;
        let Ok(()) = parts.take(marks, count + 1, duty.role(), duty) else {
            return Turn::NoMemory;
        };
        let entry = Entry {
            by,
            what: What::Duty(duty),
        };
        match self.history.push(entry) {
            Ok(()) => Turn::Did(duty),
            Err(_) => unreachable!(),
        }
    }

    // Appends a duty that was found first, if one was, unless the history has ended or is full.
    fn take(&mut self, by: u64, found: Option<Duty>) -> Turn
        requires first { IfSome found (λ duty. first_of (duties (role_of duty) (replay self.old)) ≡ Some duty) }
        ensures turns { (role : LoopRole) → found ≡ first_of (duties role (replay self.old))
            → Turns by role self.old self.new result }
        ensures legal { IsLegal self.new }
    {
        if self.is_halted() {
            return Turn::Halted;
        }
        let count = self.history.len() as u64;
        if count >= MOST_ENTRIES {
            return Turn::Full(count);
        }
        match found {
            Some(duty) => self.append_duty(by, duty),
            None => Turn::Idle,
        }
    }

    /// The caller does the first duty of the control loop.
    #[tactic(auto, using(crate::proofs::Lawful::lawful))]
    pub fn turn(&mut self, by: u64, role: Role) -> Turn
        ensures turns { Turns by role self.old self.new result }
        ensures lawful { IsLawful self.new }
    {
        let parts = &*self.parts;
        let found = self.marks.find(parts, role);
        self.take(by, found)
    }

    /// The caller does the duty that the settle test names, which is the first of its control loop. None where it names
    /// none; then nothing changes.
    #[tactic(auto, using(crate::proofs::Lawful::lawful))]
    pub fn advance(&mut self, by: u64) -> Option<Turn>
        ensures advances { Advances by self.old self.new result }
        ensures lawful { IsLawful self.new }
    {
        let parts = &*self.parts;
        let Some(duty) = self.marks.find_among(parts, &Role::ALL) else {
            return None;
        };
        Some(self.take(by, Some(duty)))
    }

    /// The settle test: the first duty of the first control loop that has one; else what is waited for, held or paused,
    /// or that all is settled. Then what runs matches the specifications. It takes no memory.
    #[tactic(auto, using(crate::proofs::Lawful::lawful))]
    pub fn settled(&self) -> Settle
        ensures answer { result ≡ settle_answer (replay self.now) }
        ensures lawful { IsLawful self.now }
    {
        let mut marks = self.marks.apart();
        let parts = &*self.parts;
        marks.settle(parts)
    }

    /// The settle test, as `settled` gives it. Rows that a look finds without a duty aren't looked at by the next one.
    #[tactic(auto, using(crate::proofs::Lawful::lawful))]
    pub fn look(&mut self) -> Settle
        ensures same { self.new ≡ self.old }
        ensures answer { result ≡ settle_answer (replay self.old) }
        ensures lawful { IsLawful self.new }
    {
        let parts = &*self.parts;
        self.marks.settle(parts)
    }

    /// All entries, in order.
    #[tactic(auto, using(crate::proofs::Lawful::lawful))]
    pub fn history(&self) -> &[Entry]
        ensures entries { result.now ≡ self.now }
        ensures lawful { IsLawful self.now }
    {
        self.history.as_slice()
    }

    /// How many entries there are.
    #[tactic(auto, using(crate::proofs::Lawful::lawful))]
    pub fn len(&self) -> u64
        ensures count { result ≡ length self.now }
        ensures lawful { IsLawful self.now }
    {
        self.history.len() as u64
    }
}

impl Counted for World {
    type Item = Entry;

    ghost entries = { λ w. w };

    ghost caller = { λ e. e.by };

    fn count(&self) -> u64 {
        self.len()
    }
}

impl Rows for World {
    ghost tables = { λ h. (replay h).tables };

    fn now(&self) -> Ms {
        self.rows().now()
    }

    fn next_id(&self) -> Id {
        self.rows().next_id()
    }

    fn settings(&self) -> Settings {
        self.rows().settings()
    }

    fn node(&self, id: Id) -> Option<&Node> {
        self.rows().node(id)
    }

    fn service(&self, id: Id) -> Option<&Service> {
        self.rows().service(id)
    }

    fn task(&self, id: Id) -> Option<&Task> {
        self.rows().task(id)
    }

    fn network(&self, id: Id) -> Option<&Network> {
        self.rows().network(id)
    }

    fn next_node(&self, after: Id) -> Option<&Node> {
        self.rows().next_node(after)
    }

    fn next_service(&self, after: Id) -> Option<&Service> {
        self.rows().next_service(after)
    }

    fn next_task(&self, after: Id) -> Option<&Task> {
        self.rows().next_task(after)
    }

    fn next_network(&self, after: Id) -> Option<&Network> {
        self.rows().next_network(after)
    }

    fn next_task_of(&self, service: Id, after: Id) -> Option<&Task> {
        self.rows().next_task_of(service, after)
    }

    fn next_task_at(&self, service: Id, place: Place, after: Id) -> Option<&Task> {
        self.rows().next_task_at(service, place, after)
    }

    fn next_task_on(&self, node: Id, after: Id) -> Option<&Task> {
        self.rows().next_task_on(node, after)
    }

    fn ids_with(&self, key: TaskKey) -> Option<&[Id]> {
        self.rows().ids_with(key)
    }

    fn session_live(&self, node: Id) -> bool {
        self.rows().session_live(node)
    }

    fn attempts(&self, service: Id, place: Place, version: Version, window: Ms) -> u64 {
        self.rows().attempts(service, place, version, window)
    }
}
