// One entry more: a loop's first duty alone, and Halt.
ghost use Rattle.std.specs.Prelude.{◌≡◌, IfOk};
ghost use Rattle.swarm_duties.specs.Reached.{IsReached};
ghost use Rattle.swarm_objects.specs.Duties.{duties};
ghost use Rattle.swarm_objects.specs.Rows.{first_of};
ghost use Rattle.swarm_objects.specs.Usable.{IsUsableWorld};
ghost use Rattle.swarm_plain.specs.Plain.{world_of};

use crate::worlds::{begin, copy_of, do_all};
use std::alloc::Global;
use std::test::Fail;
use swarm_duties::{Replay, do_duty, duties, step};
use swarm_objects::{Call, Duty, NoMemory, Role, What};
use swarm_plain::Plain;

// What is done before the one task of a service on two nodes is PENDING, and one node has a session.
const FIRST_DUTIES: [Duty; 3] = [
    Duty::ReplicatedCreate(3, 1),
    Duty::Address(4),
    Duty::Register(1),
];

// The loop's first duty, if it has one.
fn head(plain: &Plain, role: Role) -> Result<Option<Duty>, NoMemory>
    requires { IsUsableWorld (world_of plain.now) }
    ensures { IfOk result (λ head. head ≡ first_of (duties role (world_of plain.now))) }
{
    let all = duties(plain, role)?;
    let first = all.as_slice().first().copied();
    drop(all);
    Ok(first)
}

// Does it.
fn do_next(plain: &mut Plain, role: Role) -> Result<bool, NoMemory>
    requires { IsReached (world_of plain.old) }
{
    match head(plain, role)? {
        Some(duty) => {
            do_duty(plain, duty)?;
            Ok(true)
        }
        None => Ok(false),
    }
}

// Whether the loop has a duty, how many entries there are once it is done on a copy of the world, and whether that is
// halted then.
fn done(replay: &Replay, role: Role) -> Result<(bool, u64, bool), NoMemory> {
    let mut plain = copy_of(replay)?;
    let has_done = do_next(&mut plain, role);
    let (entries, halted) = (plain.entries, plain.halted);
    drop(plain);
    Ok((has_done?, entries, halted))
}

// Halts it.
fn halt(plain: &mut Plain) -> bool
    requires { IsReached (world_of plain.old) }
{
    let what = What::Call(Call::Halt);
    let stepped = step(plain, &what);
    let has_stepped = stepped.is_ok();
    drop(stepped);
    drop(what);
    has_stepped
}

// The same where the next entry is Halt.
fn halted(replay: &Replay) -> Result<(bool, u64, bool), NoMemory> {
    let mut plain = copy_of(replay)?;
    let has_stepped = halt(&mut plain);
    let (entries, halted) = (plain.entries, plain.halted);
    drop(plain);
    Ok((has_stepped, entries, halted))
}

// A duty of the scheduler, none of the allocator, and Halt, each as the next entry.
fn steps(alloc: Global, replay: &mut Replay) -> Result<[(bool, u64, bool); 3], Fail> {
    begin(alloc, replay, &["n1", "n2"])?;
    do_all(replay, &FIRST_DUTIES)?;
    let scheduler = done(replay, Role::Scheduler)?;
    let allocator = done(replay, Role::Allocator)?;
    Ok([scheduler, allocator, halted(replay)?])
}

#[test]
fn one_entry_more(rt: HostRuntime) -> Result<(), Fail> {
    let mut replay = Replay::new(rt.alloc());
    let told = steps(rt.alloc(), &mut replay);
    drop(replay);
    assert_eq!(rt;
        told?,
        [(true, 5, false), (false, 4, false), (true, 5, true)]
    );
    Ok(())
}
