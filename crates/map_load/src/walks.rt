//! Whether the ways down from the last node end.

ghost use Rattle.std.specs.Prelude.{◌≡◌, ◌↔◌, ℕ, ◌+◌, ◌<◌, Bool, false, length, slice_index_or, IsTrue, IfOk, MatchOption};
ghost use Rattle.map_geometry.specs.Nodes.{IsBelow, WalksEnd};
ghost use Rattle.map_load.specs.Steps.{HaveChildren, IsSettled, node_of};

use map_geometry::Node;
use std::alloc::{AllocError, Global};

/// From here on a child is a subsector.
const SUBSECTOR: u16 = 0x8000;

/// Whether a child is a node that is not settled.
fn is_unsettled(settled: &[bool], child: u16) -> bool
    requires { child < 32768 → child < length settled.now }
    ensures { IsTrue result ↔ ((child < 32768) × (slice_index_or settled.now child false ≡ false)) }
{
    child < SUBSECTOR && !settled[usize::from(child)]
}

/// A child of a node that is a node and not settled.
fn unsettled_child(nodes: &[Node], settled: &[bool], at: usize) -> Option<usize>
    requires there { at < length nodes.now }
    requires marks { length settled.now ≡ length nodes.now }
    requires children { HaveChildren nodes.now }
    ensures { MatchOption result
        (IsSettled settled.now (node_of nodes.now at).child_0
        × IsSettled settled.now (node_of nodes.now at).child_1)
        (λ child. IsBelow nodes.now at child
        × (child < length nodes.now)
        × (slice_index_or settled.now child false ≡ false)) }
{
    let node = nodes[at];
    if is_unsettled(settled, node.child_0) {
        return Some(usize::from(node.child_0));
    }
    if is_unsettled(settled, node.child_1) {
        return Some(usize::from(node.child_1));
    }
    None
}

/// Whether no way down from the last node passes more nodes than there are.
///
/// The search goes down to a child that is not settled, and back from a node whose children are.
/// Each node is settled once, and a way of more nodes than there are has a loop, so it takes time
/// linear in the nodes.
pub fn walks_end(alloc: Global, nodes: &[Node]) -> Result<bool, AllocError>
    requires { HaveChildren nodes.now }
    ensures { IfOk result (λ ends. IsTrue ends ↔ WalksEnd nodes.now) }
{
    if nodes.is_empty() {
        return Ok(true);
    }
    let mut settled = vec![in alloc; false; nodes.len()]?;
    let mut path = vec![in alloc; nodes.len() - 1]?;
    while let Some(at) = path.pop() {
        if path.len() >= nodes.len() {
            return Ok(false);
        }
        let Some(child) = unsettled_child(nodes, &settled, at) else {
            settled[at] = true;
            continue;
        };
        path.push(at)?;
        path.push(child)?;
    }
    Ok(true)
}
