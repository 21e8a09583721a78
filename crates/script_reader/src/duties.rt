// The words of a duty, behind the word `duty`.
ghost use Rattle.std.specs.Prelude.{◌≡◌, find};
ghost use Rattle.std.specs.Str.{bytes_eq};
ghost use Rattle.swarm_objects.specs.DutyTexts.{loop_word};
ghost use Rattle.swarm_objects.specs.declared.loops.Role.TheVariants as role;
ghost use Rattle.script_grammar.specs.Duties.{bit_of, duty_step, duty_whole, kind_of, loop_of, one_duty, two_duty};

use script_fields::{number_of, port_number};
use script_grammar::{DutyState, OneNumber, TwoNumbers};
use swarm_objects::{Duty, Role};

// The first of these loops with this name.
fn named_loop(roles: &[Role], word: &[u8]) -> Option<Role>
    ensures { result ≡ find (λ r. bytes_eq (loop_word r) word.now) roles.now }
{
    for role in roles {
        if role.word().as_bytes() == word {
            return Some(*role);
        }
    }
    None
}

fn loop_of(word: &[u8]) -> Option<Role>
    ensures { result ≡ loop_of word.now }
{
    named_loop(&Role::ALL, word)
}

fn dispatcher_kind(word: &[u8]) -> Option<DutyState>
    ensures { result ≡ kind_of role.Dispatcher word.now }
{
    if word == b"expire".as_slice() {
        Some(DutyState::One(OneNumber::Expire))
    } else if word == b"orphan".as_slice() {
        Some(DutyState::One(OneNumber::Orphan))
    } else {
        None
    }
}

fn enforcer_kind(word: &[u8]) -> Option<DutyState>
    ensures { result ≡ kind_of role.Enforcer word.now }
{
    if word == b"reject".as_slice() {
        Some(DutyState::One(OneNumber::Reject))
    } else {
        None
    }
}

fn restart_kind(word: &[u8]) -> Option<DutyState>
    ensures { result ≡ kind_of role.Restart word.now }
{
    if word == b"restart".as_slice() {
        Some(DutyState::One(OneNumber::Restart))
    } else if word == b"raise".as_slice() {
        Some(DutyState::One(OneNumber::Raise))
    } else {
        None
    }
}

fn update_kind(word: &[u8]) -> Option<DutyState>
    ensures { result ≡ kind_of role.Update word.now }
{
    if word == b"start".as_slice() {
        Some(DutyState::One(OneNumber::Start))
    } else if word == b"fail".as_slice() {
        Some(DutyState::One(OneNumber::Fail))
    } else if word == b"swap".as_slice() {
        Some(DutyState::Two(TwoNumbers::Swap))
    } else if word == b"replace".as_slice() {
        Some(DutyState::Two(TwoNumbers::Replace))
    } else if word == b"finish".as_slice() {
        Some(DutyState::One(OneNumber::Finish))
    } else {
        None
    }
}

fn replicated_kind(word: &[u8]) -> Option<DutyState>
    ensures { result ≡ kind_of role.Replicated word.now }
{
    if word == b"gone".as_slice() {
        Some(DutyState::One(OneNumber::Gone))
    } else if word == b"down".as_slice() {
        Some(DutyState::Two(TwoNumbers::Down))
    } else if word == b"create".as_slice() {
        Some(DutyState::Two(TwoNumbers::ReplicatedCreate))
    } else {
        None
    }
}

fn global_kind(word: &[u8]) -> Option<DutyState>
    ensures { result ≡ kind_of role.Global word.now }
{
    if word == b"leave".as_slice() {
        Some(DutyState::Two(TwoNumbers::Leave))
    } else if word == b"create".as_slice() {
        Some(DutyState::Two(TwoNumbers::GlobalCreate))
    } else {
        None
    }
}

fn job_kind(word: &[u8]) -> Option<DutyState>
    ensures { result ≡ kind_of role.Job word.now }
{
    if word == b"old".as_slice() {
        Some(DutyState::One(OneNumber::Old))
    } else if word == b"create".as_slice() {
        Some(DutyState::Two(TwoNumbers::JobCreate))
    } else {
        None
    }
}

fn allocator_kind(word: &[u8]) -> Option<DutyState>
    ensures { result ≡ kind_of role.Allocator word.now }
{
    if word == b"port".as_slice() {
        Some(DutyState::Port)
    } else if word == b"address".as_slice() {
        Some(DutyState::One(OneNumber::Address))
    } else if word == b"note".as_slice() {
        Some(DutyState::One(OneNumber::Note))
    } else {
        None
    }
}

fn scheduler_kind(word: &[u8]) -> Option<DutyState>
    ensures { result ≡ kind_of role.Scheduler word.now }
{
    if word == b"drop".as_slice() {
        Some(DutyState::One(OneNumber::Drop))
    } else if word == b"place".as_slice() {
        Some(DutyState::Two(TwoNumbers::Place))
    } else if word == b"explain".as_slice() {
        Some(DutyState::One(OneNumber::Explain))
    } else {
        None
    }
}

fn reaper_kind(word: &[u8]) -> Option<DutyState>
    ensures { result ≡ kind_of role.Reaper word.now }
{
    if word == b"delete".as_slice() {
        Some(DutyState::One(OneNumber::Delete))
    } else if word == b"trim".as_slice() {
        Some(DutyState::One(OneNumber::Trim))
    } else {
        None
    }
}

fn agents_kind(word: &[u8]) -> Option<DutyState>
    ensures { result ≡ kind_of role.Agents word.now }
{
    if word == b"register".as_slice() {
        Some(DutyState::One(OneNumber::Register))
    } else if word == b"beat".as_slice() {
        Some(DutyState::One(OneNumber::Beat))
    } else if word == b"apply".as_slice() {
        Some(DutyState::One(OneNumber::Apply))
    } else if word == b"pull".as_slice() {
        Some(DutyState::One(OneNumber::Pull))
    } else if word == b"exec".as_slice() {
        Some(DutyState::Two(TwoNumbers::Exec))
    } else if word == b"report".as_slice() {
        Some(DutyState::Two(TwoNumbers::Report))
    } else if word == b"forget".as_slice() {
        Some(DutyState::Two(TwoNumbers::Forget))
    } else {
        None
    }
}

// The kinds of a loop's duties.
fn kind_of(role: Role, word: &[u8]) -> Option<DutyState>
    ensures { result ≡ kind_of role word.now }
{
    match role {
        Role::Dispatcher => dispatcher_kind(word),
        Role::Enforcer => enforcer_kind(word),
        Role::Restart => restart_kind(word),
        Role::Update => update_kind(word),
        Role::Replicated => replicated_kind(word),
        Role::Global => global_kind(word),
        Role::Job => job_kind(word),
        Role::Allocator => allocator_kind(word),
        Role::Scheduler => scheduler_kind(word),
        Role::Reaper => reaper_kind(word),
        Role::Agents => agents_kind(word),
    }
}

const fn one_duty(kind: OneNumber, number: u64) -> Duty
    ensures { result ≡ one_duty kind number }
{
    match kind {
        OneNumber::Expire => Duty::Expire(number),
        OneNumber::Orphan => Duty::Orphan(number),
        OneNumber::Reject => Duty::Reject(number),
        OneNumber::Restart => Duty::Restart(number),
        OneNumber::Raise => Duty::Raise(number),
        OneNumber::Start => Duty::Start(number),
        OneNumber::Fail => Duty::Fail(number),
        OneNumber::Finish => Duty::Finish(number),
        OneNumber::Gone => Duty::Gone(number),
        OneNumber::Old => Duty::Old(number),
        OneNumber::Address => Duty::Address(number),
        OneNumber::Note => Duty::Note(number),
        OneNumber::Drop => Duty::Drop(number),
        OneNumber::Explain => Duty::Explain(number),
        OneNumber::Delete => Duty::Delete(number),
        OneNumber::Trim => Duty::Trim(number),
        OneNumber::Register => Duty::Register(number),
        OneNumber::Beat => Duty::Beat(number),
        OneNumber::Apply => Duty::Apply(number),
        OneNumber::Pull => Duty::Pull(number),
    }
}

const fn two_duty(kind: TwoNumbers, first: u64, second: u64) -> Duty
    ensures { result ≡ two_duty kind first second }
{
    match kind {
        TwoNumbers::Swap => Duty::Swap(first, second),
        TwoNumbers::Replace => Duty::Replace(first, second),
        TwoNumbers::Down => Duty::Down(first, second),
        TwoNumbers::ReplicatedCreate => Duty::ReplicatedCreate(first, second),
        TwoNumbers::Leave => Duty::Leave(first, second),
        TwoNumbers::GlobalCreate => Duty::GlobalCreate(first, second),
        TwoNumbers::JobCreate => Duty::JobCreate(first, second),
        TwoNumbers::Place => Duty::Place(first, second),
        TwoNumbers::Exec => Duty::Exec(first, second),
        TwoNumbers::Report => Duty::Report(first, second),
        TwoNumbers::Forget => Duty::Forget(first, second),
    }
}

// 1 is yes, and 0 is no.
fn bit_of(word: &[u8]) -> Option<bool>
    ensures { result ≡ bit_of word.now }
{
    if word == b"1".as_slice() {
        Some(true)
    } else if word == b"0".as_slice() {
        Some(false)
    } else {
        None
    }
}

/// How far a duty has been read with one word more, where that may stand there.
pub fn duty_step(state: DutyState, word: &[u8]) -> Option<DutyState>
    ensures { result ≡ duty_step state word.now }
{
    match state {
        DutyState::Opening => Some(DutyState::Loop(loop_of(word)?)),
        DutyState::Loop(role) => kind_of(role, word),
        DutyState::One(kind) => Some(DutyState::Done(one_duty(kind, number_of(word)?))),
        DutyState::Two(kind) => Some(DutyState::Second(kind, number_of(word)?)),
        DutyState::Second(kind, first) => {
            Some(DutyState::Done(two_duty(kind, first, number_of(word)?)))
        }
        DutyState::Port => Some(DutyState::PortTarget(number_of(word)?)),
        DutyState::PortTarget(service) => {
            Some(DutyState::PortProtocol(service, port_number(word)?))
        }
        DutyState::PortProtocol(service, target) => {
            Some(DutyState::Done(Duty::Port(service, target, bit_of(word)?)))
        }
        DutyState::Done(_) => None,
    }
}

/// The duty, where it is whole.
pub const fn duty_whole(state: DutyState) -> Option<Duty>
    ensures { result ≡ duty_whole state }
{
    match state {
        DutyState::Done(duty) => Some(duty),
        _ => None,
    }
}
