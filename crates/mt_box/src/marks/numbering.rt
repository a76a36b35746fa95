//! The nodes of a layout, as those of a box.
ghost use Rattle.std.specs.Prelude.{◌≡◌, ◌≤◌, ◌<◌, ◌+◌, ◌^◌, IfOk};
ghost use Rattle.mt_scaled.specs.Number.{Within};
ghost use Rattle.mt_box.specs.Extents.{ExtentsInRange};
ghost use Rattle.mt_box.specs.Layout.{layout_of};
ghost use Rattle.mt_box.specs.inner.Boxes.{reach};
ghost use Rattle.mt_box.specs.inner.Nodes.{node_places, AreMarks, AreFlat};

use crate::{Extents, Node, NodeId, Packed};
use std::alloc::AllocError;

// How far to a side a node of a new box may be.
const FAR: i64 = 3 << 61;

// The box of these nodes with these extents, which are in range.
pub(crate) fn box_of_nodes(
    nodes: Vec<Node>,
    extents: Extents,
    level: u32,
) -> Result<Packed, AllocError>
    requires marks { AreMarks nodes.items }
    requires extents { ExtentsInRange extents }
    requires level { level ≤ 2 ^ 20 }
    requires level_low { 1 ≤ level }
    ensures is { IfOk result (λ b. layout_of b ≡ record { extents = extents; places = node_places nodes.items }) }
    ensures level { IfOk result (λ b. b.level ≡ level) }
{
    let nodes = numbered(nodes)?;
    Ok(Packed {
        extents,
        level,
        nodes,
    })
}

// The nodes with their numbers in a box. Where one is further than `FAR` to a side, the answer is that memory ran out.
fn numbered(nodes: Vec<Node>) -> Result<Vec<Node>, AllocError>
    requires { AreMarks nodes.items }
    ensures flat { IfOk result (λ v. AreFlat (reach 0) 0 v.items) }
    ensures places { IfOk result (λ v. node_places v.items ≡ node_places nodes.items) }
{
    let mut nodes = nodes;
    for i in 0..nodes.len() {
        nodes[i] = with_number(nodes[i], i)?;
    }
    Ok(nodes)
}

fn with_number(node: Node, i: usize) -> Result<Node, AllocError>
    requires { i + 1 < 2 ^ 64 }
    ensures is { IfOk result (λ n. n ≡ record { x = node.x; y = node.y; mark = node.mark; after = record { 0 = i + 1 } }) }
    ensures near { IfOk result (λ n. Within (reach 0) node.x) }
{
    if node.x < -FAR || FAR < node.x {
        return Err(AllocError);
    }
    Ok(Node {
        after: NodeId(i + 1),
        ..node
    })
}
