// The lines of a script.
ghost use Rattle.std.specs.Prelude.{◌≡◌, ◌≤◌, ◌<◌, ◌^◌, ◌++◌, IfOk, OnOk, codes, decimal, string_bytes};
ghost use Rattle.swarm_objects.specs.Writers.{Puts};
ghost use Rattle.script_maker.specs.Draws.{given, next_state, state_after};
ghost use Rattle.script_maker.specs.Script.{by_zone, changed, drawn_lines, fail_line, failure, most_number, node_line, script_text, service_line, settle_line, sizes, update_line, wait_line};

use crate::draws::draw;
use std::alloc::{AllocError, Global};
use std::fmt::Write;

/// The greatest number that has a script.
pub const MOST_NUMBER: u64 = 2_147_483_647;

#[tactic(auto, unfolding(crate::specs::Script::wait_line))]
fn put_wait(text: &mut String, ms: u64) -> Result<(), AllocError>
    ensures { Puts result text.old text.new (wait_line ms) }
{
    write!(text, "wait {ms}\n")
}

#[tactic(auto, unfolding(crate::specs::Script::settle_line))]
fn put_settle(text: &mut String) -> Result<(), AllocError>
    ensures { Puts result text.old text.new settle_line }
{
    text.push_str("settle\n")
}

#[tactic(auto, unfolding(crate::specs::Script::by_zone))]
fn put_by_zone(text: &mut String) -> Result<(), AllocError>
    ensures { Puts result text.old text.new by_zone }
{
    text.push_str(" spread=node.labels.zone")
}

#[tactic(auto, unfolding(crate::specs::Script::changed))]
fn put_changed(text: &mut String) -> Result<(), AllocError>
    ensures { Puts result text.old text.new changed }
{
    text.push_str(" start=2")?;
    put_by_zone(text)?;
    text.push_str(" parallelism=2\n")
}

#[tactic(auto, unfolding(crate::specs::Script::sizes))]
fn put_sizes(text: &mut String, more: u64, size: u64) -> Result<(), AllocError>
    requires more { more < 5 }
    requires size { size < 6 }
    ensures { Puts result text.old text.new (sizes more size) }
{
    let replicas = 1 + more;
    let cpu = 100 * size;
    write!(text, " replicas={replicas} cpu={cpu}")
}

fn put_node(text: &mut String, i: u64, size: u64, zone: u64) -> Result<(), AllocError>
    requires { size < 7 }
    ensures { Puts result text.old text.new (node_line i size zone) }
{
    let cpu = 1_000 * (2 + size);
    write!(text, "node join n{i} cpu={cpu} label=zone:z{zone}\n")
}

fn add_node(text: &mut String, i: u64, state: &mut u64) -> Result<(), AllocError>
    requires { state.old < 2 ^ 31 }
    ensures puts { let first = next_state state.old in
        Puts result text.old text.new (node_line i (given first 7) (given (next_state first) 4)) }
    ensures draws { state.new ≡ next_state (next_state state.old) }
    ensures bound { state.new < 2 ^ 31 }
{
    let size = draw(state, 7);
    let zone = draw(state, 4);
    put_node(text, i, size, zone)
}

fn put_nodes(text: &mut String, state: &mut u64) -> Result<(), AllocError>
    requires { state.old < 2 ^ 31 }
    ensures puts { Puts result text.old text.new (drawn_lines node_line 7 4 state.old 20) }
    ensures draws { OnOk result (state.new ≡ state_after 40 state.old) }
    ensures bound { state.new < 2 ^ 31 }
{
    for done in 0..20u64 {
        add_node(text, done + 1, state)?;
    }
    Ok(())
}

fn put_service(text: &mut String, i: u64, more: u64, size: u64) -> Result<(), AllocError>
    requires more { more < 5 }
    requires size { size < 6 }
    ensures { Puts result text.old text.new (service_line i more size) }
{
    write!(text, "service create s{i}")?;
    put_sizes(text, more, size)?;
    put_by_zone(text)?;
    text.push_str("\n")
}

fn add_service(text: &mut String, i: u64, state: &mut u64) -> Result<(), AllocError>
    requires { state.old < 2 ^ 31 }
    ensures puts { let first = next_state state.old in
        Puts result text.old text.new (service_line i (given first 5) (given (next_state first) 6)) }
    ensures draws { state.new ≡ next_state (next_state state.old) }
    ensures bound { state.new < 2 ^ 31 }
{
    let more = draw(state, 5);
    let size = draw(state, 6);
    put_service(text, i, more, size)
}

fn put_services(text: &mut String, state: &mut u64) -> Result<(), AllocError>
    requires { state.old < 2 ^ 31 }
    ensures puts { Puts result text.old text.new (drawn_lines service_line 5 6 state.old 50) }
    ensures draws { OnOk result (state.new ≡ state_after 100 state.old) }
    ensures bound { state.new < 2 ^ 31 }
{
    for done in 0..50u64 {
        add_service(text, done + 1, state)?;
    }
    Ok(())
}

fn put_updated(text: &mut String, i: u64) -> Result<(), AllocError>
    ensures { Puts result text.old text.new (codes "service update s" ++ decimal i) }
{
    write!(text, "service update s{i}")
}

fn put_update(text: &mut String, i: u64, more: u64, size: u64) -> Result<(), AllocError>
    requires more { more < 5 }
    requires size { size < 6 }
    ensures { Puts result text.old text.new (update_line i more size) }
{
    put_updated(text, i)?;
    put_sizes(text, more, size)?;
    put_changed(text)
}

fn add_update(text: &mut String, i: u64, state: &mut u64) -> Result<(), AllocError>
    requires { state.old < 2 ^ 31 }
    ensures puts { let first = next_state state.old in
        Puts result text.old text.new (update_line i (given first 5) (given (next_state first) 6)) }
    ensures draws { state.new ≡ next_state (next_state state.old) }
    ensures bound { state.new < 2 ^ 31 }
{
    let more = draw(state, 5);
    let size = draw(state, 6);
    put_update(text, i, more, size)
}

fn put_updates(text: &mut String, state: &mut u64) -> Result<(), AllocError>
    requires { state.old < 2 ^ 31 }
    ensures puts { Puts result text.old text.new (drawn_lines update_line 5 6 state.old 10) }
    ensures draws { OnOk result (state.new ≡ state_after 20 state.old) }
    ensures bound { state.new < 2 ^ 31 }
{
    for done in 0..10u64 {
        add_update(text, done + 1, state)?;
    }
    Ok(())
}

fn put_fail(text: &mut String, node: u64) -> Result<(), AllocError>
    requires { node < 20 }
    ensures { Puts result text.old text.new (fail_line node) }
{
    let number = 1 + node;
    write!(text, "node fail n{number}\n")
}

fn put_failure(text: &mut String, node: u64) -> Result<(), AllocError>
    requires { node < 20 }
    ensures { Puts result text.old text.new (failure node) }
{
    put_wait(text, 30_000)?;
    put_fail(text, node)?;
    put_wait(text, 30_000)?;
    put_settle(text)?;
    text.push_str("list services\n")
}

/// The script of the number: `node join`, `service create` and `service update` lines with drawn sizes, and a node that
/// fails while time goes by.
pub fn script(alloc: Global, number: u64) -> Result<String, AllocError>
    requires { number ≤ most_number }
    ensures { IfOk result (λ text. string_bytes text ≡ script_text number) }
{
    let mut text = String::new(alloc);
    let mut state = number;
    put_nodes(&mut text, &mut state)?;
    put_settle(&mut text)?;
    put_services(&mut text, &mut state)?;
    put_wait(&mut text, 1_000)?;
    put_updates(&mut text, &mut state)?;
    put_failure(&mut text, draw(&mut state, 20))?;
    Ok(text)
}
