//! Layouts one on another.
ghost use Rattle.std.specs.Prelude.{◌≡◌, ◌≤◌, ◌^◌, ◌+◌, ◌-◌, ◌-ℤ◌, ◌∷◌, [], ◌++◌, take, drop, length, pos, List, OnOk, OnErr, IfOk};
ghost use Rattle.mt_box.specs.declared.place.Place.{Place};
ghost use Rattle.mt_box.specs.declared.place.Place.TheVariants.{Glyph};
ghost use Rattle.mt_box.specs.Extents.{ExtentsInRange};
ghost use Rattle.mt_scaled.specs.Number.{Within};
ghost use Rattle.mt_box.specs.Layout.{layout_of};
ghost use Rattle.mt_box.specs.Placing.{all_lowered, Puts};
ghost use Rattle.mt_box.specs.Unfold.{marks, IsMark};
ghost use Rattle.mt_box.specs.marks.Layers.{begun, put_on, moved_layer, joined, swapped_layers, dropped, top};

use crate::marks::moves::{Move, cut, move_range, turn_range};
use crate::marks::numbering::box_of_nodes;
use crate::marks::starts::{
    Bounds, bounds_of, copy_starts, set_start, start_of, starts_without, top_start,
};
use crate::placing::put_nodes;
use crate::{Extents, Mark, Node, NodeId, Packed, Place, PlaceError};
use std::alloc::{AllocError, Global};
use std::marker::Model;

/// The marks of layouts one on another. Contracts see the places of each layout, those of the top one first.
///
/// That memory ran out is also the answer where a mark would be 2^63 scaled points or more from its reference point.
#[derive(Drop)]
pub struct Marks {
    // the marks of all layouts, from the lowest; what is `after` each has no meaning
    nodes: Vec<Node>,
    // where the marks of each layout begin
    starts: Vec<usize>,
}

impl Model for Marks {
    ghost use Rattle.std.specs.Prelude.{List};
    ghost use Rattle.mt_box.specs.declared.place.Place.{Place};

    ghost Value = { List (List Place) };

    ghost use Rattle.mt_box.specs.marks.inner.View.{layers_of, AreLayers};

    ghost view = { layers_of };

    ghost invariant = { AreLayers };
}

impl Marks {
    /// No layout.
    pub fn new(alloc: Global) -> Marks
        ensures { result ≡ [] }
    {
        Marks {
            nodes: Vec::new(alloc),
            starts: Vec::new(alloc),
        }
    }

    /// The layout of a box alone, whose list is taken over.
    pub fn of_box(alloc: Global, body: Packed) -> Result<Marks, AllocError>
        ensures { IfOk result (λ m. m ≡ body.places ∷ []) }
    {
        let mut starts = Vec::new(alloc);
        starts.push(0)?;
        Ok(Marks {
            nodes: body.nodes,
            starts,
        })
    }

    /// No layout, with room for so many marks and layouts.
    pub fn with_capacity(alloc: Global, marks: usize, layouts: usize) -> Result<Marks, AllocError>
        ensures { IfOk result (λ m. m ≡ []) }
    {
        Ok(Marks {
            nodes: Vec::with_capacity(alloc, marks)?,
            starts: Vec::with_capacity(alloc, layouts)?,
        })
    }

    /// How many layouts there are.
    pub fn len(&self) -> usize
        ensures { result ≡ length self.now }
    {
        self.starts.len()
    }

    /// A layout without marks on top.
    pub fn begin(&mut self) -> Result<(), AllocError>
        ensures is { OnOk result (self.new ≡ begun self.old) }
        ensures err { OnErr result (self.new ≡ self.old) }
    {
        self.starts.push(self.nodes.len())?;
        Ok(())
    }

    /// A mark at the end of the top layout, so far to the right of its reference point and so far above it. A rule has a
    /// positive height and width, and a stack has at most 2,000 glyphs.
    pub fn put(&mut self, at: Move, mark: Mark) -> Result<(), AllocError>
        requires { IsMark mark }
        ensures is { OnOk result (self.new ≡ put_on (marks mark at.right (pos 0 -ℤ at.up)) self.old) }
        ensures err { OnErr result (self.new ≡ self.old) }
    {
        self.nodes.push(node_at(at, mark))?;
        Ok(())
    }

    /// The layout under so many others moved right and up; the top one is under none. Where there is no such layout,
    /// nothing is moved.
    pub fn shift(&mut self, under: usize, by: Move) -> Result<(), AllocError>
        ensures { OnOk result (self.new ≡ moved_layer under by.right by.up self.old) }
    {
        if by.right == 0 && by.up == 0 {
            return Ok(());
        }
        let Some(Bounds { start, end }) = bounds_of(&self.starts, under, self.nodes.len()) else {
            return Ok(());
        };
        move_range(&mut self.nodes, start, end, by)
    }

    /// The two layouts on top become one: the marks of the lower one, and then those of the top one. A lone layout
    /// stays.
    pub fn join(&mut self)
        ensures { self.new ≡ joined self.old }
    {
        let count = self.starts.len();
        if 2 <= count {
            self.starts.truncate(count - 1);
        }
    }

    /// The layout under so many others and the one under it change places. Where there are not both, nothing changes.
    pub fn swap(&mut self, under: usize)
        ensures { self.new ≡ swapped_layers under self.old }
    {
        let end = self.nodes.len();
        let Some(upper) = bounds_of(&self.starts, under, end) else {
            return;
        };
        let Some(lower) = bounds_of(&self.starts, under + 1, end) else {
            return;
        };
        turn_range(&mut self.nodes, lower.start, upper.start, upper.end);
        set_start(
            &mut self.starts,
            under,
            lower.start + (upper.end - upper.start),
        );
    }

    /// The layout of a character of a font on top, at its reference point. The font is its number in the font list.
    pub fn push_glyph(&mut self, font: u16, code: u8) -> Result<(), AllocError>
        ensures { OnOk result (self.new ≡ (Glyph font code (pos 0) (pos 0) ∷ []) ∷ self.old) }
    {
        self.begin()?;
        self.put(Move { right: 0, up: 0 }, Mark::Glyph { font, code })
    }

    /// The layout of a box on top.
    pub fn push_box(&mut self, body: &Packed) -> Result<(), AllocError>
        ensures { OnOk result (self.new ≡ body.now.places ∷ self.old) }
    {
        self.starts.push(self.nodes.len())?;
        self.nodes.extend_from_slice(&body.nodes)?;
        Ok(())
    }

    /// The box of the top layout with these extents, which are in range, and this level, from 1 to 2^20. The layouts stay.
    ///
    /// That memory ran out is also the answer where a mark is more than 3·2^61 scaled points to a side.
    pub fn top_box(&self, alloc: Global, extents: Extents, level: u32) -> Result<Packed, AllocError>
        requires extents { ExtentsInRange extents }
        requires level { level ≤ 2 ^ 20 }
        requires level_low { 1 ≤ level }
        ensures is { IfOk result (λ b. layout_of b ≡ record { extents = extents; places = top self.now }) }
        ensures level { IfOk result (λ b. b.level ≡ level) }
    {
        let start = top_start(&self.starts, self.nodes.len());
        box_of_nodes(self.nodes[start..].to_vec(alloc)?, extents, level)
    }

    /// The box of the top layout, as by [`Marks::top_box`]. The other layouts are given up, and where there are none the
    /// box takes the list over.
    pub fn into_box(self, extents: Extents, level: u32) -> Result<Packed, AllocError>
        requires extents { ExtentsInRange extents }
        requires level { level ≤ 2 ^ 20 }
        requires level_low { 1 ≤ level }
        ensures is { IfOk result (λ b. layout_of b ≡ record { extents = extents; places = top self }) }
        ensures level { IfOk result (λ b. b.level ≡ level) }
    {
        let start = top_start(&self.starts, self.nodes.len());
        let mut nodes = self.nodes;
        cut(&mut nodes, 0, start);
        box_of_nodes(nodes, extents, level)
    }

    /// Puts the places of the layout that has so many others below it after others, as by [`crate::put_places`]: its
    /// reference point is at (h, v) of a page. Where there are not so many layouts, nothing is put.
    ///
    /// Refused as by [`crate::put_places`], and the list is as before then.
    pub fn put_layer(
        &self,
        number: usize,
        places: &mut Vec<Place>,
        h: i64,
        v: i64,
        room: u64,
    ) -> Result<(), PlaceError>
        requires h { Within (2 ^ 60) h }
        requires v { Within (2 ^ 60) v }
        requires room { length places.old.items ≤ room }
        ensures is { (above below : List (List Place)) (layer : List Place) → self.now ≡ above ++ (layer ∷ below) → length below ≡ number
            → Puts room places.old.items (all_lowered h v layer) result places.new.items }
        ensures fits { OnOk result (length places.new.items ≤ room) }
        ensures err { OnErr result (places.new.items ≡ places.old.items) }
    {
        if self.starts.len() <= number {
            return Ok(());
        }
        let end_of_all = self.nodes.len();
        let start = start_of(&self.starts, number, end_of_all);
        let end = start_of(&self.starts, number + 1, end_of_all);
        put_nodes(places, nodes_between(&self.nodes, start, end), h, v, room)
    }

    /// A copy of each of so many layouts on top, in their order. The first of them has so many others below it. Where
    /// there are not so many layouts, those that there are.
    pub fn copy_run(&mut self, first: usize, count: usize) -> Result<(), AllocError>
        ensures { (above run below : List (List Place)) → self.old ≡ above ++ (run ++ below) → length below ≡ first
            → length run ≡ count → OnOk result (self.new ≡ run ++ self.old) }
    {
        let first = first.min(self.starts.len());
        let last = first.saturating_add(count).min(self.starts.len());
        let end_of_all = self.nodes.len();
        let start = start_of(&self.starts, first, end_of_all);
        let end = start_of(&self.starts, last, end_of_all);
        self.nodes.extend_from_within(start..end)?;
        copy_starts(&mut self.starts, first, last, start, end_of_all)
    }

    /// Without so many layouts, the first of which is under so many others. Those under these stay.
    pub fn remove(&mut self, under: usize, count: usize)
        ensures { self.new ≡ take under self.old ++ drop (under + count) self.old }
    {
        let last = self.starts.len().saturating_sub(under);
        let first = last.saturating_sub(count);
        let end_of_all = self.nodes.len();
        let start = start_of(&self.starts, first, end_of_all);
        let end = start_of(&self.starts, last, end_of_all);
        cut(&mut self.nodes, start, end);
        starts_without(&mut self.starts, first, last, end.saturating_sub(start));
    }

    /// Without layouts. What memory they had stays.
    pub fn clear(&mut self)
        ensures { self.new ≡ [] }
    {
        self.starts.clear();
        self.nodes.clear();
    }

    /// Without the top layout.
    pub fn drop_top(&mut self)
        ensures { self.new ≡ dropped self.old }
    {
        if let Some(start) = self.starts.pop() {
            self.nodes.truncate(start);
        }
    }
}

// The nodes from `start` on before `end`.
fn nodes_between(nodes: &[Node], start: usize, end: usize) -> &[Node]
    requires start { start ≤ end }
    requires end { end ≤ length nodes.now }
    ensures { result.now ≡ take (end - start) (drop start nodes.now) }
{
    &nodes[start..end]
}

fn node_at(at: Move, mark: Mark) -> Node
    ensures { result ≡ record { x = at.right; y = at.up; mark = mark; after = record { 0 = 0 } } }
{
    Node {
        x: at.right,
        y: at.up,
        mark,
        after: NodeId(0),
    }
}
