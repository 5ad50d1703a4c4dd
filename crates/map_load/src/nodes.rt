//! The first fault of the nodes: children that are not there, or a node that stands below itself.

ghost use Rattle.std.specs.Prelude.{◌≡◌, ◌↔◌, ◌<◌, length, IsTrue, IfOk};
ghost use Rattle.fixed_angle.specs.FirstFault.{FirstFault};
ghost use Rattle.map_geometry.specs.Nodes.{IsChildIn};
ghost use Rattle.map_geometry.specs.Level.{lists_of};
ghost use Rattle.map_geometry.specs.Conditions.{node_checks, node_conditions};
ghost use Rattle.map_load.specs.Steps.{child_conditions};

use crate::walks::walks_end;
use map_geometry::{LevelFault, LevelParts};
use std::alloc::{AllocError, Global};

/// The number of the lump of nodes among a map's ten.
const NODES: u32 = 7;

/// From here on a child is a subsector.
const SUBSECTOR: u16 = 0x8000;

/// Whether a child is there.
fn has_child(parts: &LevelParts, child: u16) -> bool
    ensures { IsTrue result
        ↔ IsChildIn (length (lists_of parts.now).nodes) (length (lists_of parts.now).subsectors)
        child }
{
    if child < SUBSECTOR {
        usize::from(child) < parts.nodes.len()
    } else {
        usize::from(child - SUBSECTOR) < parts.subsectors.len()
    }
}

/// The first fault of a node.
fn node_fault(parts: &LevelParts, i: usize) -> Option<LevelFault>
    requires { i < length (lists_of parts.now).nodes }
    ensures { FirstFault (node_conditions (lists_of parts.now) i) result }
{
    let node = parts.nodes[i];
    if !has_child(parts, node.child_0) || !has_child(parts, node.child_1) {
        return Some(LevelFault::LevelRef(NODES, i));
    }
    None
}

/// The first fault of the nodes' children.
fn children_fault(parts: &LevelParts) -> Option<LevelFault>
    ensures { FirstFault (child_conditions (lists_of parts.now)) result }
{
    for i in 0..parts.nodes.len() {
        if let Some(fault) = node_fault(parts, i) {
            return Some(fault);
        }
    }
    None
}

/// The first fault of the nodes.
pub fn nodes_fault(alloc: Global, parts: &LevelParts) -> Result<Option<LevelFault>, AllocError>
    ensures { IfOk result (FirstFault (node_checks (lists_of parts.now))) }
{
    if let Some(fault) = children_fault(parts) {
        return Ok(Some(fault));
    }
    if !walks_end(alloc, &parts.nodes)? {
        return Ok(Some(LevelFault::NodeLoop));
    }
    Ok(None)
}
