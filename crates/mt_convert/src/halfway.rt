//! A list between the two passes.

use crate::half::HalfList;
use std::marker::Model;

/// A list between the two passes: its items with their final classes, and the greatest height and
/// depth of its atoms, in scaled points.
///
/// A left boundary is only first, a right one only last, and middles only between these two. No
/// two neighbouring atoms have classes that are never side by side; a middle counts as Close to its
/// left and as Open to its right. There are at most 2^19 items, with at most 2^20 pieces in
/// their rows. Each number in it is at most 2^40 in size, the height and the depth are from 0 to
/// 2^30 - 1, and boxes have a level of at most 2^16.
#[derive(Drop)]
pub struct Halfway {
    /// The items, in order.
    pub items: HalfList,
    /// The greatest height, at least 0.
    pub height: i64,
    /// The greatest depth, at least 0.
    pub depth: i64,
}

impl Model for Halfway {
    ghost use Rattle.mt_convert.specs.Halfway.{HalfwayValue, IsHalfway};

    ghost Value = { HalfwayValue };

    ghost view = { λ h. record { items = h.items; height = h.height; depth = h.depth } };

    ghost invariant = { λ h. IsHalfway (record { items = h.items; height = h.height; depth = h.depth }) };
}
