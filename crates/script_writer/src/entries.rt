// The lines of entries.
ghost use Rattle.std.specs.Prelude.{◌≡◌, ◌≤◌, length, IfOk, IsTrue, Ok};
ghost use Rattle.swarm_objects.specs.Limits.{longest_entry};
ghost use Rattle.swarm_objects.specs.Writers.{Puts};
ghost use Rattle.script_grammar.specs.Entries.{entry_meaning};
ghost use Rattle.script_grammar.specs.HasText.{has_text};
ghost use Rattle.script_grammar.specs.Texts.{entry_text, what_words};
ghost use Rattle.script_writer.specs.Behind.{behind};

use crate::calls::put_call;
use std::alloc::{AllocError, Global};
use std::fmt::Write;
use swarm_objects::{Entry, List, NoMemory, What, put_duty};

// Room for the line of a duty, as most entries are: it needn't grow.
const USUAL: usize = 64;

#[tactic(auto, using(crate::proofs::Fronts::duty_behind))]
fn put_what(text: &mut String, what: &What) -> Result<(), AllocError>
    ensures { Puts result text.old text.new (behind (what_words what.now)) }
{
    match what {
        What::Call(call) => put_call(text, call),
        What::Duty(duty) => {
            text.push_str(" duty ")?;
            put_duty(text, duty)
        }
    }
}

/// The line of any entry, with its newline.
pub fn line_of(alloc: Global, entry: &Entry) -> Result<List<u8>, NoMemory>
    ensures { IfOk result (λ line. line ≡ entry_text entry.now) }
{
    let mut text = String::with_capacity(alloc, USUAL)?;
    write!(text, "{}", entry.by)?;
    put_what(&mut text, &entry.what)?;
    text.push_str("\n")?;
    Ok(List::from_vec(text.into_bytes()))
}

/// The journal's line of an entry, with its newline: the caller's number, and the words of the call or duty
/// after single spaces.
///
/// It asks for an entry that has a text, since no line says a name that isn't one. The line is read back
/// as the entry unless it is longer than an entry's line may be.
pub fn write_entry(alloc: Global, entry: &Entry) -> Result<List<u8>, NoMemory>
    requires { IsTrue (has_text entry.now) }
    ensures text { IfOk result (λ line. line ≡ entry_text entry.now) }
    ensures again { IfOk result (λ line. length line ≤ longest_entry → entry_meaning line ≡ Ok entry.now) }
{
    line_of(alloc, entry)
}
