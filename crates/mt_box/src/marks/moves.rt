//! Runs of nodes, moved and turned.
ghost use Rattle.std.specs.Prelude.{◌≡◌, ◌≤◌, ◌++◌, ◌+◌, ◌-◌, take, drop, length, OnOk};
ghost use Rattle.mt_box.specs.inner.Nodes.{node_moved, nodes_moved, AreMarks};

use crate::Node;
use std::alloc::AllocError;

/// How far a layout is moved to the right and up, in scaled points.
#[derive(Clone, Copy, Debug, PartialEq, Eq)]
pub struct Move {
    /// To the right, in scaled points.
    pub right: i64,
    /// Up, in scaled points.
    pub up: i64,
}

// Each node moved right and up. After a refusal some are moved and some are not.
pub(crate) fn move_all(nodes: &mut [Node], by: Move) -> Result<(), AllocError>
    ensures is { OnOk result (nodes.new ≡ nodes_moved by.right by.up nodes.old) }
    ensures marks { AreMarks nodes.old → AreMarks nodes.new }
    ensures len { length nodes.new ≡ length nodes.old }
{
    for node in nodes {
        move_node(node, by)?;
    }
    Ok(())
}

// The node moved right and up, if its offset is one of 64 bits then.
fn move_node(node: &mut Node, by: Move) -> Result<(), AllocError>
    ensures is { OnOk result (node.new ≡ node_moved by.right by.up node.old) }
    ensures mark { node.new.mark ≡ node.old.mark }
{
    let Some(x) = node.x.checked_add(by.right) else {
        return Err(AllocError);
    };
    let Some(y) = node.y.checked_add(by.up) else {
        return Err(AllocError);
    };
    node.x = x;
    node.y = y;
    Ok(())
}

// The nodes from `middle` on before `end` come before those from `start` on before `middle`.
pub(crate) fn turn_range(nodes: &mut Vec<Node>, start: usize, middle: usize, end: usize)
    requires start { start ≤ middle }
    requires middle { middle ≤ end }
    requires end { end ≤ length nodes.old.items }
    ensures is { nodes.new.items ≡ take start nodes.old.items
        ++ ((drop (middle - start) (take (end - start) (drop start nodes.old.items))
        ++ take (middle - start) (take (end - start) (drop start nodes.old.items))) ++ drop end nodes.old.items) }
    ensures marks { AreMarks nodes.old.items → AreMarks nodes.new.items }
{
    turn(&mut nodes[start..end], middle - start);
}

// The nodes from `middle` on come before the others.
fn turn(nodes: &mut [Node], middle: usize)
    requires { middle ≤ length nodes.old }
    ensures { nodes.new ≡ drop middle nodes.old ++ take middle nodes.old }
{
    if middle == 0 || middle == nodes.len() {
        return;
    }
    nodes[..middle].reverse();
    nodes[middle..].reverse();
    nodes.reverse();
}

/// Without the items from `start` on before `end`, which are places in the list.
pub fn cut<T: Copy>(items: &mut Vec<T>, start: usize, end: usize)
    requires start { start ≤ end }
    requires end { end ≤ length items.old.items }
    ensures { items.new.items ≡ take start items.old.items ++ drop end items.old.items }
{
    let len = items.len();
    items.copy_within(end..len, start);
    items.truncate(len - (end - start));
}

// The nodes from `start` on before `end` moved right and up. After a refusal some are moved and some are not.
pub(crate) fn move_range(
    nodes: &mut Vec<Node>,
    start: usize,
    end: usize,
    by: Move,
) -> Result<(), AllocError>
    requires start { start ≤ end }
    requires end { end ≤ length nodes.old.items }
    ensures is { OnOk result (nodes.new.items ≡ take start nodes.old.items
        ++ (nodes_moved by.right by.up (take (end - start) (drop start nodes.old.items)) ++ drop end nodes.old.items)) }
    ensures marks { AreMarks nodes.old.items → AreMarks nodes.new.items }
    ensures len { length nodes.new.items ≡ length nodes.old.items }
{
    move_all(&mut nodes[start..end], by)
}
