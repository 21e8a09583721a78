// The line of an entry.
ghost use Rattle.std.specs.Prelude.{◌≡◌, ◌<◌, IfOk, IsTrue, false, length};
ghost use Rattle.serde_json.specs.Data.{array};
ghost use Rattle.serde_json.specs.View.{items_of, view};
ghost use Rattle.serde_json.specs.Written.{has_float};
ghost use Rattle.events_text.specs.Inside.Cuts.{inner};
ghost use Rattle.events_text.specs.Lines.{changes_data, entry_between, entry_line, text_data, what_text};
ghost use Rattle.script_grammar.specs.HasText.{has_text};
ghost use Rattle.swarm_model.specs.History.{step};
ghost use Rattle.swarm_model.specs.Outcome.{Gives};
ghost use Rattle.swarm_plain.specs.Entries.{HasOrder};
ghost use Rattle.swarm_plain.specs.Plain.{tables_of, world_of};
ghost use Rattle.swarm_print.specs.Details.{json_line};
ghost use Rattle.swarm_print.specs.Texts.{reply_text};

use crate::changed::changes;
use crate::rows::change_values;
use script_writer::write_entry;
use serde_json::{Value, json};
use std::alloc::{AllocError, Global};
use swarm_objects::{Entry, List, NoMemory, Reply};
use swarm_plain::Plain;
use swarm_print::reply_text;

fn text_value(alloc: Global, text: &[u8]) -> Result<Value, AllocError>
    ensures { IfOk result (λ value. view value ≡ text_data text.now) }
{
    let text = String::from_utf8_lossy(alloc, text)?;
    Ok(Value::String(text))
}

// The line without so many bytes at its front, and without its newline.
fn inner(line: &[u8], front: usize) -> &[u8]
    requires { front < length line.now }
    ensures { result.now ≡ inner front line.now }
{
    &line[front..line.len() - 1]
}

// The entry's text, but for its caller.
fn what_value(alloc: Global, entry: &Entry) -> Result<Value, NoMemory>
    requires { IsTrue (has_text entry.now) }
    ensures { IfOk result (λ value. view value ≡ text_data (what_text entry.now)) }
{
    let line = write_entry(alloc, entry)?;
    let by = entry.by.to_string(alloc)?;
    Ok(text_value(alloc, inner(line.as_slice(), by.len() + 1))?)
}

fn reply_value(alloc: Global, reply: &Reply) -> Result<Value, NoMemory>
    ensures { IfOk result (λ value. view value ≡ text_data (reply_text reply.now)) }
{
    let text = reply_text(alloc, reply)?;
    Ok(text_value(alloc, text.as_slice())?)
}

fn changes_value(alloc: Global, old: &Plain, new: &Plain) -> Result<Value, NoMemory>
    requires old { HasOrder (tables_of old.now) }
    requires new { HasOrder (tables_of new.now) }
    ensures { IfOk result (λ value.
        view value ≡ array (items_of (changes_data (world_of old.now) (world_of new.now)))) }
{
    let events = changes(alloc, new.entries, old, new)?;
    let values = change_values(alloc, old, new, events.as_slice())?;
    Ok(Value::Array(values.into_vec()))
}

fn entry_value(
    alloc: Global,
    old: &Plain,
    entry: &Entry,
    reply: &Reply,
    new: &Plain,
) -> Result<Value, NoMemory>
    requires text { IsTrue (has_text entry.now) }
    requires old { HasOrder (tables_of old.now) }
    requires new { HasOrder (tables_of new.now) }
    ensures { IfOk result (λ value.
        view value ≡ entry_between (world_of old.now) entry.now reply.now (world_of new.now)) }
{
    Ok(json!(in alloc; {
        "caller": entry.by,
        "changes": changes_value(alloc, old, new)?,
        "clock": new.clock,
        "entry": new.entries,
        "reply": reply_value(alloc, reply)?,
        "text": what_value(alloc, entry)?
    })?)
}

// The value without spaces, and a newline. Numbers with a point have no text in the contracts of `serde_json`.
#[tactic(auto, unfolding(swarm_print::specs::Details::json_line))]
fn json_text(alloc: Global, value: &Value) -> Result<List<u8>, AllocError>
    requires { has_float (view value.now) ≡ false }
    ensures { IfOk result (λ text. text ≡ json_line (view value.now)) }
{
    let mut text = value.to_string(alloc)?;
    text.push_str("\n")?;
    Ok(List::from_vec(text.into_bytes()))
}

/// The line of an entry that was answered so, between the worlds before and after it: JSON without spaces, and a
/// newline.
///
/// It asks for worlds whose rows stand by rising id, as all do that a legal history makes, and for an entry that has a
/// text.
pub fn entry_line(
    alloc: Global,
    old: &Plain,
    entry: &Entry,
    reply: &Reply,
    new: &Plain,
) -> Result<List<u8>, NoMemory>
    requires text { IsTrue (has_text entry.now) }
    requires old { HasOrder (tables_of old.now) }
    requires new { HasOrder (tables_of new.now) }
    requires step { Gives (step (world_of old.now) entry.now.what) reply.now (world_of new.now) }
    ensures { IfOk result (λ line. line ≡ entry_line (world_of old.now) entry.now) }
{
    let value = entry_value(alloc, old, entry, reply, new)?;
    Ok(json_text(alloc, &value)?)
}
