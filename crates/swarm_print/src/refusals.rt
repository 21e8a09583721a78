// The texts of refusals.
ghost use Rattle.std.specs.Prelude.{[], ◌∷◌, codes, decimal};
ghost use Rattle.swarm_print.specs.Lines.{line};
ghost use Rattle.swarm_print.specs.Refusals.{wanted_text, session_text, refusal_words};
ghost use Rattle.swarm_objects.specs.Values.Texts.{kind_text};
ghost use Rattle.swarm_objects.specs.Writers.{Puts};

use crate::words::{rule_word, state_word};
use std::alloc::AllocError;
use std::fmt::Write;
use swarm_objects::{Id, Kind, Refusal, Wanted};

fn put_wanted(text: &mut String, wanted: &Wanted) -> Result<(), AllocError>
    ensures { Puts result text.old text.new (wanted_text wanted.now) }
{
    match wanted {
        Wanted::Name(name) => text.push_str(name.as_str()),
        Wanted::Id(id) => write!(text, "{id}"),
    }
}

fn put_not_found(text: &mut String, kind: Kind, wanted: &Wanted) -> Result<(), AllocError>
    ensures { Puts result text.old text.new
        (line (codes "1" ∷ codes "NotFound" ∷ kind_text kind ∷ wanted_text wanted.now ∷ [])) }
{
    let kind = kind.as_str();
    write!(text, "1 NotFound {kind} ")?;
    put_wanted(text, wanted)?;
    text.push_str("\n")
}

// A refusal with these words before its value.
fn put_number(text: &mut String, words: &str, number: u64) -> Result<(), AllocError>
    ensures { Puts result text.old text.new (line (words.now ∷ decimal number ∷ [])) }
{
    write!(text, "{words} {number}\n")
}

fn put_word(text: &mut String, words: &str, word: &str) -> Result<(), AllocError>
    ensures { Puts result text.old text.new (line (words.now ∷ word.now ∷ [])) }
{
    write!(text, "{words} {word}\n")
}

fn put_session(text: &mut String, words: &str, session: Option<Id>) -> Result<(), AllocError>
    ensures { Puts result text.old text.new (line (words.now ∷ session_text session ∷ [])) }
{
    match session {
        Some(id) => put_number(text, words, id),
        None => put_word(text, words, "none"),
    }
}

pub fn put_refusal(text: &mut String, refusal: &Refusal) -> Result<(), AllocError>
    ensures { Puts result text.old text.new (line (refusal_words refusal.now)) }
{
    match refusal {
        Refusal::NotFound(kind, wanted) => put_not_found(text, *kind, wanted),
        Refusal::NameTaken(id) => put_number(text, "2 NameTaken", *id),
        Refusal::SequenceConflict(version) => put_number(text, "3 SequenceConflict", *version),
        Refusal::BadSpec(rule) => put_word(text, "4 BadSpec", rule_word(*rule)),
        Refusal::InUse(user) => put_number(text, "5 InUse", *user),
        Refusal::PortTaken(service) => put_number(text, "6 PortTaken", *service),
        Refusal::NodeNotDown(state) => put_word(text, "7 NodeNotDown", state_word(*state)),
        Refusal::ModeChange => text.push_str("8 ModeChange\n"),
        Refusal::TooManyOps(count) => put_number(text, "9 TooManyOps", *count),
        Refusal::NoPrevious => text.push_str("10 NoPrevious\n"),
        Refusal::BadTick(ms) => put_number(text, "11 BadTick", *ms),
        Refusal::InvalidSession(session) => put_session(text, "12 InvalidSession", *session),
        Refusal::SessionExpired(deadline) => put_number(text, "13 SessionExpired", *deadline),
        Refusal::NotThisNode(task) => put_number(text, "14 NotThisNode", *task),
        Refusal::BadState(state) => put_word(text, "15 BadState", state.as_str()),
        Refusal::WrongKind(node) => put_number(text, "16 WrongKind", *node),
        Refusal::UnknownWatcher(id) => put_number(text, "17 UnknownWatcher", *id),
        Refusal::Lagged(events) => put_number(text, "18 Lagged", *events),
        Refusal::TooMany(kind, count) => {
            let word = kind.as_str();
            write!(text, "19 TooMany {word} {count}\n")
        }
        Refusal::Halted => text.push_str("20 Halted\n"),
        Refusal::Full(entries) => put_number(text, "21 Full", *entries),
        Refusal::NoMemory => text.push_str("22 NoMemory\n"),
    }
}
