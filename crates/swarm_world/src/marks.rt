// Where a duty of the control loops over the rows may be: for each line of duties the span of the rows that may have
// one.
ghost use Rattle.std.specs.Prelude.{◌≡◌, ◌+◌, ◌≤◌, ◌++◌, ◌∷◌, IsTrue, List as Seq, None, Option as Optional, [], false, flat_map, true, ℕ};
ghost use Rattle.std.specs.List.{list_all};
ghost use Rattle.swarm_model.specs.History.{IsLegal, replay};
ghost use Rattle.swarm_objects.specs.declared.calls.Entry.{Entry};
ghost use Rattle.swarm_objects.specs.declared.services.Draft.{Draft};
ghost use Rattle.swarm_objects.specs.ChangeLists.{apply_changes};
ghost use Rattle.swarm_objects.specs.Duties.{duties};
ghost use Rattle.swarm_objects.specs.Limits.{is_tick};
ghost use Rattle.swarm_objects.specs.Effects.{is_agents, world_with};
ghost use Rattle.swarm_objects.specs.Loops.Allocator.{port_duties};
ghost use Rattle.swarm_objects.specs.Rows.{first_of};
ghost use Rattle.swarm_objects.specs.Usable.{IsUsable};
ghost use Rattle.swarm_objects.specs.World.{Tables};
ghost use Rattle.swarm_spans.specs.Lines.{addresses, deletes, expires, goes, notes, olds, orphans, raises, rejects, restarts};
ghost use Rattle.swarm_spans.specs.Services.Lines.{comes, creates, downs, job_creates, leaves, trims, updates};
ghost use Rattle.swarm_spans.specs.Services.Touches.{NewServicesLaw, ServiceNodesLaw};
ghost use Rattle.swarm_spans.specs.Spans.{CoversNodes, CoversServices, CoversTasks, IsWider};
ghost use Rattle.swarm_spans.specs.TasksCovered.{NodesLaw, ServicesLaw, SessionLaw};
ghost use Rattle.swarm_spans.specs.Timed.{TimedNodesLaw, TimedServicesLaw};
ghost use Rattle.swarm_world.specs.Inside.Known.{AreForeseen, ForgetsServices, KnowsAll};
ghost use Rattle.swarm_world.specs.Inside.Marks.{AreMarked, IsAfterCall, IsMarked, makes_node, makes_service};
ghost use Rattle.swarm_world.specs.Inside.Parts.{HasHistory, StandsFor};
ghost use Rattle.swarm_world.specs.Inside.Records.{tables_of};
ghost use Rattle.swarm_world.specs.Inside.Spanned.{AreWiderFrom, news_by, steps_by};
ghost use Rattle.swarm_world.specs.declared.parts.Parts.{Parts as Whole};

use crate::agent_spans::AgentSpans;
use crate::at_hand::AtHand;
use crate::firsts::is_agents;
use crate::known::{Foreseen, Known};
use crate::known_lines::{Creates, Downs, Updates, first_by_known};
use crate::lines::{
    Addresses, Comes, Deletes, Expires, Goes, JobCreates, Leaves, Notes, Olds, Orphans, Ports,
    Raises, Rejects, Restarts, Trims, Unallocated, Unplaced, Waiting,
};
use crate::looks::agents_first_in;
use crate::parts::Parts;
use crate::records::Records;
use crate::scheduling::first_scheduled;
use std::alloc::Global;
use swarm_agent::theorems::times_that_no_step_looks_at;
use swarm_objects::{Call, Change, Duty, Id, Ms, Name, Op, Role, Rows};
use swarm_spans::{
    ServiceSpans, Span, TaskSpans, TimedSpans, first_of_nodes, first_of_services, first_of_tasks,
    narrowed,
};

/// For each line of duties a span that has each row with a duty of the line, the spans of rows for which time passes,
/// and those of the agents' loop. And what is remembered of the rows.
#[derive(Drop)]
pub struct Marks {
    pub tasks: TaskSpans,
    pub services: ServiceSpans,
    pub timed: TimedSpans,
    pub agents: AgentSpans,
    pub known: Known,
}

#[tactic(auto, using(crate::proofs::Marking::first_steps))]
fn dispatcher<R: Rows>(rows: &R, expires_in: &mut Span, orphans_in: &mut Span) -> Option<Duty>
    requires usable { IsUsable (R.tables rows.now) }
    requires expires { CoversNodes expires (R.tables rows.now) expires_in.old }
    requires orphans { CoversTasks orphans (R.tables rows.now) orphans_in.old }
    ensures first { let t = R.tables rows.now in
        result ≡ first_of (flat_map (expires t) t.nodes ++ flat_map (orphans t) t.tasks) }
    ensures expires { CoversNodes expires (R.tables rows.now) expires_in.new }
    ensures orphans { CoversTasks orphans (R.tables rows.now) orphans_in.new }
{
    if let Some(duty) = first_of_nodes::<Expires, R>(rows, expires_in) {
        return Some(duty);
    }
    first_of_tasks::<Orphans, R>(rows, orphans_in)
}

#[tactic(auto, using(crate::proofs::Marking::first_steps))]
fn restart<R: Rows>(rows: &R, restarts_in: &mut Span, raises_in: &mut Span) -> Option<Duty>
    requires usable { IsUsable (R.tables rows.now) }
    requires restarts { CoversTasks restarts (R.tables rows.now) restarts_in.old }
    requires raises { CoversTasks raises (R.tables rows.now) raises_in.old }
    ensures first { let t = R.tables rows.now in
        result ≡ first_of (flat_map (restarts t) t.tasks ++ flat_map (raises t) t.tasks) }
    ensures restarts { CoversTasks restarts (R.tables rows.now) restarts_in.new }
    ensures raises { CoversTasks raises (R.tables rows.now) raises_in.new }
{
    if let Some(duty) = first_of_tasks::<Restarts, R>(rows, restarts_in) {
        return Some(duty);
    }
    first_of_tasks::<Raises, R>(rows, raises_in)
}

#[tactic(auto, using(crate::proofs::Marking::first_steps))]
fn replicated<R: Rows>(
    rows: &R,
    known: &mut Known,
    goes_in: &mut Span,
    downs_in: &mut Span,
    creates_in: &mut Span,
) -> Option<Duty>
    requires usable { IsUsable (R.tables rows.now) }
    requires knows { KnowsAll (R.tables rows.now) known.old }
    requires goes { CoversTasks goes (R.tables rows.now) goes_in.old }
    requires downs { CoversServices downs (R.tables rows.now) downs_in.old }
    requires creates { CoversServices creates (R.tables rows.now) creates_in.old }
    ensures first { let t = R.tables rows.now in
        result ≡ first_of (flat_map (goes t) t.tasks
        ++ flat_map (downs t) t.services ++ flat_map (creates t) t.services) }
    ensures knows { KnowsAll (R.tables rows.now) known.new }
    ensures goes { CoversTasks goes (R.tables rows.now) goes_in.new }
    ensures downs { CoversServices downs (R.tables rows.now) downs_in.new }
    ensures creates { CoversServices creates (R.tables rows.now) creates_in.new }
{
    if let Some(duty) = first_of_tasks::<Goes, R>(rows, goes_in) {
        return Some(duty);
    }
    if let Some(duty) = first_by_known::<Downs, R>(rows, known, downs_in) {
        return Some(duty);
    }
    first_by_known::<Creates, R>(rows, known, creates_in)
}

#[tactic(auto, using(crate::proofs::Marking::first_steps))]
fn global<R: Rows>(rows: &R, leaves_in: &mut Span, comes_in: &mut Span) -> Option<Duty>
    requires usable { IsUsable (R.tables rows.now) }
    requires leaves { CoversServices leaves (R.tables rows.now) leaves_in.old }
    requires comes { CoversServices comes (R.tables rows.now) comes_in.old }
    ensures first { let t = R.tables rows.now in
        result ≡ first_of (flat_map (leaves t) t.services ++ flat_map (comes t) t.services) }
    ensures leaves { CoversServices leaves (R.tables rows.now) leaves_in.new }
    ensures comes { CoversServices comes (R.tables rows.now) comes_in.new }
{
    if let Some(duty) = first_of_services::<Leaves, R>(rows, leaves_in) {
        return Some(duty);
    }
    first_of_services::<Comes, R>(rows, comes_in)
}

#[tactic(auto, using(crate::proofs::Marking::first_steps))]
fn job<R: Rows>(rows: &R, olds_in: &mut Span, job_creates_in: &mut Span) -> Option<Duty>
    requires usable { IsUsable (R.tables rows.now) }
    requires olds { CoversTasks olds (R.tables rows.now) olds_in.old }
    requires job_creates { CoversServices job_creates (R.tables rows.now) job_creates_in.old }
    ensures first { let t = R.tables rows.now in
        result ≡ first_of (flat_map (olds t) t.tasks ++ flat_map (job_creates t) t.services) }
    ensures olds { CoversTasks olds (R.tables rows.now) olds_in.new }
    ensures job_creates { CoversServices job_creates (R.tables rows.now) job_creates_in.new }
{
    if let Some(duty) = first_of_tasks::<Olds, R>(rows, olds_in) {
        return Some(duty);
    }
    first_of_services::<JobCreates, R>(rows, job_creates_in)
}

#[tactic(auto, using(crate::proofs::Marking::first_steps))]
fn allocator<R: Rows>(
    rows: &R,
    ports_in: &mut Span,
    addresses_in: &mut Span,
    notes_in: &mut Span,
) -> Option<Duty>
    requires usable { IsUsable (R.tables rows.now) }
    requires ports { CoversServices port_duties (R.tables rows.now) ports_in.old }
    requires addresses { CoversTasks addresses (R.tables rows.now) addresses_in.old }
    requires notes { CoversTasks notes (R.tables rows.now) notes_in.old }
    ensures first { let t = R.tables rows.now in
        result ≡ first_of (flat_map (port_duties t) t.services
        ++ flat_map (addresses t) t.tasks ++ flat_map (notes t) t.tasks) }
    ensures ports { CoversServices port_duties (R.tables rows.now) ports_in.new }
    ensures addresses { CoversTasks addresses (R.tables rows.now) addresses_in.new }
    ensures notes { CoversTasks notes (R.tables rows.now) notes_in.new }
{
    if let Some(duty) = first_of_services::<Ports, R>(rows, ports_in) {
        return Some(duty);
    }
    if let Some(duty) = first_of_tasks::<Addresses, R>(rows, addresses_in) {
        return Some(duty);
    }
    first_of_tasks::<Notes, R>(rows, notes_in)
}

#[tactic(auto, using(crate::proofs::Marking::first_steps))]
fn reaper<R: Rows>(rows: &R, deletes_in: &mut Span, trims_in: &mut Span) -> Option<Duty>
    requires usable { IsUsable (R.tables rows.now) }
    requires deletes { CoversTasks deletes (R.tables rows.now) deletes_in.old }
    requires trims { CoversTasks trims (R.tables rows.now) trims_in.old }
    ensures first { let t = R.tables rows.now in
        result ≡ first_of (flat_map (deletes t) t.tasks ++ flat_map (trims t) t.tasks) }
    ensures deletes { CoversTasks deletes (R.tables rows.now) deletes_in.new }
    ensures trims { CoversTasks trims (R.tables rows.now) trims_in.new }
{
    if let Some(duty) = first_of_tasks::<Deletes, R>(rows, deletes_in) {
        return Some(duty);
    }
    first_of_tasks::<Trims, R>(rows, trims_in)
}

// The operation makes a service.
fn makes_service(op: &Op) -> bool
    ensures { result ≡ makes_service op.now }
{
    matches!(op, Op::CreateService(_, _))
}

// Each of the operations makes a service.
fn make_services(ops: &[Op]) -> bool
    ensures { result ≡ list_all makes_service ops.now }
{
    ops.iter().all(makes_service)
}

// The operation makes a node.
fn makes_node(op: &Op) -> bool
    ensures { result ≡ makes_node op.now }
{
    matches!(op, Op::CreateNode(_, _))
}

// Each of the operations makes a node.
fn make_nodes(ops: &[Op]) -> bool
    ensures { result ≡ list_all makes_node ops.now }
{
    ops.iter().all(makes_node)
}

impl Marks {
    // Every row may have a duty.
    fn with_known(known: Known) -> Marks
        requires { (t : Tables) → KnowsAll t known }
        ensures { (p : Whole) → HasHistory p → IsMarked result p }
    {
        Marks {
            tasks: TaskSpans::full(),
            services: ServiceSpans::full(),
            timed: TimedSpans::full(),
            agents: AgentSpans::full(),
            known,
        }
    }

    /// Every row may have a duty. Nothing is remembered so far.
    pub fn new(alloc: Global) -> Marks
        ensures { (p : Whole) → HasHistory p → IsMarked result p }
    {
        Marks::with_known(Known::new(alloc))
    }

    /// The same spans for one look. It takes no memory.
    pub fn apart(&self) -> Marks
        ensures { (p : Whole) → IsMarked self.now p → IsMarked result p }
    {
        Marks {
            tasks: self.tasks,
            services: self.services,
            timed: self.timed,
            agents: self.agents,
            known: Known::none(),
        }
    }

    /// Every row may have a duty, whatever there is.
    pub fn touch_all(&mut self)
        ensures { (p : Whole) → HasHistory p → IsMarked self.new p }
    {
        self.tasks = TaskSpans::full();
        self.services = ServiceSpans::full();
        self.timed = TimedSpans::full();
        self.agents = AgentSpans::full();
        self.known.forget_all();
    }

    // Where the spans of tasks that wait have no end, they end with the last that waits. By them a touch, a tick or a
    // beat widens others, again and again.
    fn end_waiting<R: Rows>(&mut self, rows: &R)
        requires usable { IsUsable (R.tables rows.now) }
        requires marks { AreMarked self.old (R.tables rows.now) }
        ensures marks { AreMarked self.new (R.tables rows.now) }
        ensures agents { self.new.agents ≡ self.old.agents }
    {
        if self.tasks.to_wait.is_endless() {
            self.tasks.to_wait = narrowed::<Waiting, R>(rows, self.tasks.to_wait);
        }
        if self.tasks.to_schedule.is_endless() {
            self.tasks.to_schedule = narrowed::<Unplaced, R>(rows, self.tasks.to_schedule);
        }
        if self.tasks.to_allocate.is_endless() {
            self.tasks.to_allocate = narrowed::<Unallocated, R>(rows, self.tasks.to_allocate);
        }
    }

    // Tasks that wait no more leave the spans of those that wait, by which a touch widens others.
    fn pass_waiting<R: Rows>(&mut self, rows: &R)
        requires usable { IsUsable (R.tables rows.now) }
        requires marks { AreMarked self.old (R.tables rows.now) }
        ensures marks { AreMarked self.new (R.tables rows.now) }
        ensures agents { self.new.agents ≡ self.old.agents }
    {
        let _ = first_of_tasks::<Waiting, R>(rows, &mut self.tasks.to_wait);
        let _ = first_of_tasks::<Unplaced, R>(rows, &mut self.tasks.to_schedule);
        let _ = first_of_tasks::<Unallocated, R>(rows, &mut self.tasks.to_allocate);
    }

    /// With what these changes touch of the rows: asked before they are made. What agents owe is touched apart. Gives
    /// what will be known.
    pub fn touch(&mut self, records: &Records, changes: &[Change]) -> Foreseen
        requires usable { IsUsable (tables_of records.now) }
        requires marks { AreMarked self.old (tables_of records.now) }
        ensures stays { AreMarked self.new (tables_of records.now) }
        ensures goes_on { let u = apply_changes (tables_of records.now) changes.now in
            IsUsable u → AreMarked self.new u }
        ensures foreseen { AreForeseen (apply_changes (tables_of records.now) changes.now) result }
        ensures agents { self.new.agents ≡ self.old.agents }
    {
        self.pass_waiting(records);
        let rows = AtHand::new(records, changes);
        let foreseen = self.known.forget_changed(&rows, changes);
        self.tasks.touch(&rows, changes);
        self.services.touch(&rows, changes);
        self.timed.touch(changes);
        foreseen
    }

    /// What is known now is remembered, if the changes were made.
    pub fn remember(&mut self, foreseen: Foreseen, are_made: bool)
        ensures marks { (t : Tables) → AreMarked self.old t → (are_made ≡ true → AreForeseen t foreseen) →
            AreMarked self.new t }
        ensures agents { self.new.agents ≡ self.old.agents }
    {
        if are_made {
            self.known.remember(foreseen);
        }
    }

    // The nodes whose session may end as time goes by: that of an agent which wakes, or isn't on, or of a remote node.
    fn ends(&self) -> Span
        ensures duties { IsWider result self.now.agents.duties }
        ensures waits { IsWider result self.now.agents.waits }
        ensures remotes { IsWider result self.now.timed.remotes }
    {
        let mut ends = self.agents.duties;
        ends.join(self.agents.waits);
        ends.join(self.timed.remotes);
        ends
    }

    /// With what may have a duty as time goes by, until this time. No message becomes due by that: what a node is told
    /// doesn't hang on the time, and a session only ends. But agents wake, and a step may become due.
    pub fn touch_time(&mut self, parts: &Parts, until: Ms)
        requires at { HasHistory parts.now }
        requires marks { IsMarked self.old parts.now }
        requires later { (tables_of parts.now.records).clock ≤ until }
        ensures { let t = tables_of parts.now.records in (ms : ℕ) (h : Seq Entry) (q : Whole) →
            (is_tick ms ≡ true → t.clock + ms ≤ until) → IsLegal h → StandsFor parts.now (replay h) →
            IsMarked self.old parts.now → HasHistory q → IsAfterCall h (Call.Tick ms) q → IsMarked self.new q }
    {
        times_that_no_step_looks_at();
        let records = &parts.records;
        self.timed.narrow(records);
        self.agents.wake(until);
        let ends = self.ends();
        self.tasks
            .touch_time(records, &self.timed.downs, &ends, until);
        self.services.touch_time(&self.timed.updates);
        self.known.pass_time();
    }

    // With services that come from this id on. Nothing that agents owe changes.
    fn touch_services(&mut self, first: Id)
        ensures tasks { ServicesLaw self.old.tasks self.new.tasks }
        ensures services { NewServicesLaw first self.old.services self.new.services }
        ensures timed { TimedServicesLaw first self.old.timed self.new.timed }
        ensures agents { self.new.agents ≡ self.old.agents }
        ensures known { ForgetsServices self.old.known self.new.known }
    {
        self.tasks.touch_new_services();
        self.services.touch_new_services(first);
        self.timed.touch_new_services(first);
        self.known.forget_services();
    }

    // With nodes that come from this id on. All that is remembered is forgotten: most of it hangs on all nodes.
    fn touch_nodes(&mut self, first: Id)
        ensures tasks { NodesLaw self.old.tasks self.new.tasks }
        ensures services { ServiceNodesLaw self.old.services self.new.services }
        ensures timed { TimedNodesLaw first self.old.timed self.new.timed }
        ensures agents { AreWiderFrom first self.new.agents self.old.agents }
        ensures known { (t : Tables) → KnowsAll t self.new.known }
    {
        self.tasks.touch_new_nodes();
        self.services.touch_new_nodes();
        self.timed.touch_new_nodes(first);
        self.agents.touch_new_nodes(first);
        self.known.forget_all();
    }

    // With what the update of the service may touch, whether it is done or not: what concerns its row, if there is one.
    // Nothing that agents owe changes.
    fn touch_update(&mut self, parts: &Parts, name: &Name)
        requires { HasHistory parts.now }
        ensures { (asked : Optional ℕ) (draft : Draft) (h : Seq Entry) (q : Whole) → IsLegal h →
            StandsFor parts.now (replay h) → IsMarked self.old parts.now → HasHistory q →
            IsAfterCall h (Call.Txn (Op.UpdateService name.now asked draft ∷ [])) q → IsMarked self.new q }
    {
        self.known.forget_services();
        if let Some(service) = parts.records.store.service_named(name) {
            self.tasks.touch_service(&parts.records, service.id);
            self.services.touch_service(&parts.records, service.id);
            self.timed.touch_service(service.id);
        }
    }

    // With what these operations may touch, whether they are done or not: what comes, or everything.
    fn touch_any(&mut self, parts: &Parts, ops: &[Op])
        ensures { (h : Seq Entry) (q : Whole) → IsLegal h → StandsFor parts.now (replay h) →
            IsMarked self.old parts.now →
            HasHistory q → IsAfterCall h (Call.Txn ops.now) q → IsMarked self.new q }
    {
        let first = parts.records.next_id();
        if make_services(ops) {
            self.touch_services(first);
        } else if make_nodes(ops) {
            self.touch_nodes(first);
        } else {
            self.touch_all();
        }
    }

    // With what the operations may touch, whether they are done or not.
    fn touch_ops(&mut self, parts: &Parts, ops: &[Op])
        requires { HasHistory parts.now }
        ensures { (h : Seq Entry) (q : Whole) → IsLegal h → StandsFor parts.now (replay h) →
            IsMarked self.old parts.now →
            HasHistory q → IsAfterCall h (Call.Txn ops.now) q → IsMarked self.new q }
    {
        if let [op] = ops {
            if let Op::UpdateService(name, _, _) = op {
                return self.touch_update(parts, name);
            }
        }
        self.touch_any(parts, ops)
    }

    /// With what the call may touch of the world that these parts are, whether it changes something or not.
    pub fn touch_call(&mut self, parts: &Parts, call: &Call)
        requires at { HasHistory parts.now }
        requires marks { IsMarked self.old parts.now }
        ensures { (h : Seq Entry) (q : Whole) → IsLegal h → StandsFor parts.now (replay h) →
            IsMarked self.old parts.now →
            HasHistory q → IsAfterCall h call.now q → IsMarked self.new q }
    {
        times_that_no_step_looks_at();
        match call {
            Call::Tick(ms) => self.touch_time(parts, parts.records.now().saturating_add(*ms)),
            Call::Txn(ops) => self.touch_ops(parts, ops.as_slice()),
            // these read, or are about watchers
            Call::View(_) | Call::Settle(_) | Call::WatchPoll(_) | Call::WatchFinish(_) => {}
            _ => self.touch_all(),
        }
    }

    /// The agent that does the duty may owe a report then, or have an executor that goes, has a step or a phase to come.
    /// The rows' spans stay.
    pub fn hear(&mut self, duty: Duty)
        ensures tasks { self.new.tasks ≡ self.old.tasks }
        ensures services { self.new.services ≡ self.old.services }
        ensures timed { self.new.timed ≡ self.old.timed }
        ensures known { self.new.known ≡ self.old.known }
        ensures duties { self.new.agents.duties ≡ self.old.agents.duties }
        ensures tells { self.new.agents.tells ≡ self.old.agents.tells }
        ensures news { self.new.agents.news ≡ news_by duty self.old.agents.news }
        ensures waits { self.new.agents.waits ≡ news_by duty self.old.agents.waits }
        ensures steps { self.new.agents.steps ≡ steps_by duty self.old.agents.steps }
        ensures wakes { self.new.agents.wakes ≡ self.old.agents.wakes }
    {
        self.agents.hear(duty);
    }

    /// With what a node's session concerns, where it begins, is lengthened or ends.
    pub fn touch_session(&mut self, node: Id)
        ensures goes_on { SessionLaw node self.old.tasks self.new.tasks }
        ensures services { self.new.services ≡ self.old.services }
        ensures timed { self.new.timed ≡ self.old.timed }
        ensures known { self.new.known ≡ self.old.known }
        ensures agents { self.new.agents ≡ self.old.agents }
    {
        self.tasks.touch_session(node);
    }

    // The first duty of a control loop over the rows. Rows before it, which have none, leave their spans.
    #[inline(never)] // so that `find` passes an idle loop without this one's frame
    #[tactic(auto, using(crate::proofs::Marking::line_steps))]
    fn first<R: Rows>(&mut self, rows: &R, role: Role) -> Option<Duty>
        requires usable { IsUsable (R.tables rows.now) }
        requires rows { is_agents role ≡ false }
        requires marks { AreMarked self.old (R.tables rows.now) }
        ensures first { result ≡ first_of (duties role (world_with (R.tables rows.now))) }
        ensures marks { AreMarked self.new (R.tables rows.now) }
        ensures agents { self.new.agents ≡ self.old.agents }
    {
        self.end_waiting(rows);
        match role {
            Role::Dispatcher => dispatcher(rows, &mut self.tasks.expires, &mut self.tasks.orphans),
            Role::Enforcer => first_of_tasks::<Rejects, R>(rows, &mut self.tasks.rejects),
            Role::Restart => restart(rows, &mut self.tasks.restarts, &mut self.tasks.raises),
            Role::Update => {
                first_by_known::<Updates, R>(rows, &mut self.known, &mut self.services.updates)
            }
            Role::Replicated => replicated(
                rows,
                &mut self.known,
                &mut self.tasks.goes,
                &mut self.services.downs,
                &mut self.services.creates,
            ),
            Role::Global => global(rows, &mut self.services.leaves, &mut self.services.comes),
            Role::Job => job(rows, &mut self.tasks.olds, &mut self.services.job_creates),
            Role::Allocator => allocator(
                rows,
                &mut self.services.ports,
                &mut self.tasks.addresses,
                &mut self.tasks.notes,
            ),
            Role::Scheduler => {
                first_scheduled(rows, &mut self.known.nodes, &mut self.tasks.schedules)
            }
            Role::Reaper => reaper(rows, &mut self.tasks.deletes, &mut self.services.trims),
            Role::Agents => unreachable!(),
        }
    }

    // No row is in a span of the loop over rows, so it has no duty.
    #[tactic(auto, using(crate::proofs::Idle::idle_steps))]
    fn is_idle(&self, role: Role) -> bool
        requires { is_agents role ≡ false }
        ensures { IsTrue result → (t : Tables) → IsUsable t → AreMarked self.now t →
            None ≡ first_of (duties role (world_with t)) }
    {
        let tasks = &self.tasks;
        let services = &self.services;
        match role {
            Role::Dispatcher => tasks.expires.is_over() && tasks.orphans.is_over(),
            Role::Enforcer => tasks.rejects.is_over(),
            Role::Restart => tasks.restarts.is_over() && tasks.raises.is_over(),
            Role::Update => services.updates.is_over(),
            Role::Replicated => {
                tasks.goes.is_over() && services.downs.is_over() && services.creates.is_over()
            }
            Role::Global => services.leaves.is_over() && services.comes.is_over(),
            Role::Job => tasks.olds.is_over() && services.job_creates.is_over(),
            Role::Allocator => {
                services.ports.is_over() && tasks.addresses.is_over() && tasks.notes.is_over()
            }
            Role::Scheduler => tasks.schedules.is_over(),
            Role::Reaper => tasks.deletes.is_over() && services.trims.is_over(),
            Role::Agents => unreachable!(),
        }
    }

    /// The first duty of the control loop. Rows before it, which have none, leave their spans. Memory is taken only for
    /// what is remembered; where it is wanting, less is remembered, and the answer is the same.
    pub fn find(&mut self, parts: &Parts, role: Role) -> Option<Duty>
        requires at { HasHistory parts.now }
        requires marks { IsMarked self.old parts.now }
        ensures first { (h : Seq Entry) → StandsFor parts.now (replay h) → result ≡ first_of (duties role (replay h)) }
        ensures marks { IsMarked self.new parts.now }
    {
        times_that_no_step_looks_at();
        if is_agents(role) {
            return agents_first_in(&parts.records, &parts.sent, &parts.agents, &mut self.agents);
        }
        if self.is_idle(role) {
            return None;
        }
        self.first(&parts.records, role)
    }
}
