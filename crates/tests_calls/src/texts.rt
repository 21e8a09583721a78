// Texts that no line of a script is answered by.
use std::alloc::Global;
use std::test::Fail;
use swarm_objects::views::{NodeDetail, NodeShown};
use swarm_objects::{
    Availability, List, Name, NoMemory, NodeRole, NodeState, Refusal, Reply, ViewReply, list_of,
};
use swarm_print::reply_text;

fn is_text(text: &Result<List<u8>, NoMemory>, wanted: &str) -> Result<bool, NoMemory> {
    match text {
        Ok(text) => Ok(text.as_slice() == wanted.as_bytes()),
        Err(NoMemory) => Err(NoMemory),
    }
}

fn prints(alloc: Global, reply: Reply, wanted: &str) -> Result<bool, NoMemory> {
    let text = reply_text(alloc, &reply);
    drop(reply);
    let is_wanted = is_text(&text, wanted);
    drop(text);
    is_wanted
}

#[test]
fn what_says_nothing(rt: HostRuntime) -> Result<(), Fail> {
    let alloc = rt.alloc();
    assert!(rt; prints(alloc, Reply::HaltDone, "")?);
    assert!(rt; prints(alloc, Reply::Did, "")?);
    assert!(rt; prints(alloc, Reply::Txn(List::new(alloc)), "ok\n")?);
    Ok(())
}

fn refuses(alloc: Global, refusal: Refusal, wanted: &str) -> Result<bool, NoMemory> {
    prints(alloc, Reply::Refused(refusal), wanted)
}

#[test]
fn refusals_that_are_no_entry(rt: HostRuntime) -> Result<(), Fail> {
    let alloc = rt.alloc();
    assert!(rt; refuses(alloc, Refusal::Halted, "refused 20 Halted\n")?);
    assert!(rt; refuses(alloc, Refusal::Full(300_000), "refused 21 Full 300000\n")?);
    assert!(rt; refuses(alloc, Refusal::NoMemory, "refused 22 NoMemory\n")?);
    Ok(())
}

fn listed_node(alloc: Global) -> Result<ViewReply, NoMemory> {
    let node = NodeShown {
        id: 1,
        name: Name::new(alloc, "n1")?,
        state: NodeState::Disconnected,
        availability: Availability::Active,
        role: NodeRole::Worker,
        cpu: 4_000,
        mem: 8_589_934_592,
    };
    Ok(ViewReply::Nodes(list_of(alloc, node)?))
}

fn inspected_node(alloc: Global) -> Result<ViewReply, NoMemory> {
    Ok(ViewReply::Node(NodeDetail {
        id: 1,
        version: 20,
        name: Name::new(alloc, "n1")?,
        labels: List::new(alloc),
        role: NodeRole::Worker,
        availability: Availability::Active,
        state: NodeState::Disconnected,
        cpu: 2_000,
        mem: 8_589_934_592,
    }))
}

fn shows_listed(alloc: Global, wanted: &str) -> Result<bool, NoMemory> {
    prints(alloc, Reply::View(listed_node(alloc)?), wanted)
}

fn shows_inspected(alloc: Global, wanted: &str) -> Result<bool, NoMemory> {
    prints(alloc, Reply::View(inspected_node(alloc)?), wanted)
}

// No node is ever DISCONNECTED.
#[test]
fn disconnected_nodes(rt: HostRuntime) -> Result<(), Fail> {
    let alloc = rt.alloc();
    let listed = "nodes 1\nnode 1 n1 DISCONNECTED ACTIVE worker 4000 8589934592\n";
    let inspected =
        "{\"availability\":\"ACTIVE\",\"cpu\":2000,\"id\":1,\"kind\":\"node\",\"labels\":{},\"mem\":8589934592,\"name\":\"n1\",\"role\":\"worker\",\"state\":\"DISCONNECTED\",\"version\":20}\n";
    let refused = Refusal::NodeNotDown(NodeState::Disconnected);
    assert!(rt; refuses(alloc, refused, "refused 7 NodeNotDown DISCONNECTED\n")?);
    assert!(rt; shows_listed(alloc, listed)?);
    assert!(rt; shows_inspected(alloc, inspected)?);
    Ok(())
}
