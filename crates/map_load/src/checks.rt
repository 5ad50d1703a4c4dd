//! The first fault of a map's lists.

ghost use Rattle.std.specs.Prelude.{IfOk};
ghost use Rattle.fixed_angle.specs.FirstFault.{FirstFault};
ghost use Rattle.map_geometry.specs.Level.{lists_of};
ghost use Rattle.map_geometry.specs.Conditions.{conditions};

use crate::blocks::blocks_fault;
use crate::lines::lines_fault;
use crate::nodes::nodes_fault;
use crate::subsectors::subsectors_fault;
use map_geometry::{LevelFault, LevelParts};
use std::alloc::{AllocError, Global};

/// The first fault of a map's lists, in their order: lines, subsectors, nodes, block map.
pub fn level_fault(alloc: Global, parts: &LevelParts) -> Result<Option<LevelFault>, AllocError>
    ensures { IfOk result (FirstFault (conditions (lists_of parts.now))) }
{
    if let Some(fault) = lines_fault(parts) {
        return Ok(Some(fault));
    }
    if let Some(fault) = subsectors_fault(parts) {
        return Ok(Some(fault));
    }
    if let Some(fault) = nodes_fault(alloc, parts)? {
        return Ok(Some(fault));
    }
    blocks_fault(alloc, parts)
}
