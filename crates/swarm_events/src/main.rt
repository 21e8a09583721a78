// The program: it makes the real ends and hands them to the call that tells the events.
#![tactic(auto)]

use events_top::tell_events;
use std::io;
use std::process::ExitCode;
use swarm_objects::{StdSink, StdSource};

fn main(rt: HostRuntime) -> ExitCode {
    let mut journal = StdSource::new(rt.reader());
    let mut out = StdSink::new(io::writer(&rt));
    let mut err = StdSink::new(rt.stderr());
    ExitCode::from(tell_events(rt.alloc(), &mut journal, &mut out, &mut err))
}
