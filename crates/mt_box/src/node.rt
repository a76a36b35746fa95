//! The nodes of a box.

/// The number of a node among the nodes of its box, counted from 0. The number of all nodes is
/// their end.
#[derive(Clone, Copy, Debug, PartialEq, Eq)]
pub struct NodeId(pub usize);

/// What is at a node. All numbers but the font, the code and the count are scaled points.
#[derive(Clone, Copy, Debug, PartialEq, Eq)]
pub enum Mark {
    /// Nothing: the node holds others together.
    Group,
    /// A character of a font. The font is its number in the font list.
    Glyph {
        font: u16,
        code: u8,
    },
    /// A black rectangle, of a positive height and width.
    Rule {
        height: i64,
        width: i64,
    },
    /// So many glyphs, each a step below the one before.
    Stack {
        font: u16,
        code: u8,
        step: i64,
        count: u64,
    },
}

/// A node of a box, with its offset from its parent, or from the reference point where it has none.
/// x grows to the right and y upward, in scaled points.
#[derive(Clone, Copy, Debug, PartialEq, Eq)]
pub struct Node {
    /// The offset to the right, in scaled points.
    pub x: i64,
    /// The offset upward, in scaled points.
    pub y: i64,
    /// What is at the node.
    pub mark: Mark,
    /// The first node after this one that is not in it, or the end where there is none.
    pub after: NodeId,
}
