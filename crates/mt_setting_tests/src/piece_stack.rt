//! The pieces of a row on one stack.
use crate::pieces::LETTER;
use mt_box::{Extents, Piece, glyph_box};
use mt_pieces::Pieces;
use mt_scaled::Length;

#[test]
fn begins_with_a_glyph(rt: HostRuntime) {
    let mut pieces = Pieces::new(rt.alloc());
    pieces.put_glyph(3, 97, LETTER).expect(&rt, "memory");
    pieces.put_kern(Length { sp: 1000 }).expect(&rt, "memory");
    assert!(rt; pieces.begins_with_glyph(0) && !pieces.begins_with_glyph(1));
}

#[test]
fn raises_a_box(rt: HostRuntime) {
    let mut pieces = Pieces::new(rt.alloc());
    let body = glyph_box(rt.alloc(), 3, 97, LETTER).expect(&rt, "a box");
    pieces.put_box(&body).expect(&rt, "memory");
    pieces.raise_last(Length { sp: 5 });
    assert!(rt; pieces.reach(0).height == 327685);
}

#[test]
fn leaves_a_lone_box_as_it_is(rt: HostRuntime) {
    let alloc = rt.alloc();
    let mut pieces = Pieces::new(alloc);
    let body = glyph_box(alloc, 3, 97, LETTER).expect(&rt, "a box");
    pieces
        .put_piece(Piece::Boxed { raise: 0, body })
        .expect(&rt, "memory");
    pieces.set_last_extents(Extents {
        width: 1000,
        height: -2000,
        depth: 3000,
    });
    pieces.clean(0).expect(&rt, "a box");
    // a packed box has no height below 0
    assert!(rt; pieces.last_extents().height == -2000);
}
