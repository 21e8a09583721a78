// Look-ups among sessions by rising node: at the likely place first, then by halving.
ghost use Rattle.std.specs.Prelude.{◌≡◌, ◌==◌, ◌≤◌, length, nat_lt, slice_get, true, false};
ghost use Rattle.std.specs.List.Sorted.{IsPartitionPoint};
ghost use Rattle.swarm_sessions.specs.OnRecord.{if_has};
ghost use Rattle.swarm_objects.specs.Rows.{IsRising, is_some_and, row_at, rows_before, session_node};

use swarm_objects::{Id, NodeSession};

// The point where the nodes stop being lesser.
fn parting(rows: &[NodeSession], node: Id) -> usize
    requires { IsRising session_node rows.now }
    ensures bound { result ≤ length rows.now }
    ensures parted { IsPartitionPoint (λ row. nat_lt (session_node row) node ≡ true)
        (λ row. nat_lt (session_node row) node ≡ false) rows.now result }
{
    rows.partition_point(|row| row.node < node)
}

/// How many sessions are those of lesser nodes.
pub fn lesser(rows: &[NodeSession], node: Id) -> usize
    requires { IsRising session_node rows.now }
    ensures bound { result ≤ length rows.now }
    ensures count { result ≡ rows_before session_node node rows.now }
{
    parting(rows, node)
}

/// Whether the session at the index is the node's.
pub fn is_at(rows: &[NodeSession], at: usize, node: Id) -> bool
    ensures { result ≡ is_some_and (λ row. session_node row == node) (slice_get rows.now at) }
{
    match rows.get(at) {
        Some(row) => row.node == node,
        None => false,
    }
}

/// The session at the index, where it is the node's.
pub fn session_at(rows: &[NodeSession], at: usize, node: Id) -> Option<NodeSession>
    ensures { result ≡ if_has node (slice_get rows.now at) }
{
    match rows.get(at) {
        Some(row) if row.node == node => Some(*row),
        _ => None,
    }
}

// Where the node's session stands if each node from the first one to it has one. It can't stand later.
fn likely_place(rows: &[NodeSession], node: Id) -> usize {
    match rows.first() {
        Some(first) if first.node <= node => (node - first.node) as usize,
        _ => 0,
    }
}

/// The node's session.
pub fn find(rows: &[NodeSession], node: Id) -> Option<NodeSession>
    requires { IsRising session_node rows.now }
    ensures { result ≡ row_at session_node node rows.now }
{
    // ids mostly follow one another
    match session_at(rows, likely_place(rows, node), node) {
        Some(row) => Some(row),
        None => session_at(rows, lesser(rows, node), node),
    }
}
