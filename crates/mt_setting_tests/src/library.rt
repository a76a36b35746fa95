//! What docs/LIBRARY.md shows: a list that is set, a TFM file that is read, and a DVI file that is written and read.
ghost use Rattle.std.specs.Prelude.{IfOk};
ghost use Rattle.mt_rules.specs.Modest.{IsModestList};

use mt_box::{Packed, Place, hpack, places};
use mt_convert::set_list;
use mt_dviread::read_dvi;
use mt_family::FontSet;
use mt_pages::source_file;
use mt_rules::{Atom, Class, Field, Item, Kind, Limits, MathList, Style, Symbol};
use mt_samples::{Toy, toy_fonts, toy_tfm};
use mt_status::Notes;
use mt_tfm::read_tfm;
use std::alloc::{AllocError, Global};
use std::process::Abort;

// x with the superscript 2. A list that is set has to be modest: the contract says that this one is.
fn square(alloc: Global) -> Result<MathList, AllocError>
    ensures { IfOk result IsModestList }
{
    let atom = Atom {
        kind: Kind::Plain(Class::Ord),
        limits: Limits::Default,
        nucleus: Field::Sym(Symbol { fam: 1, code: b'x' }),
        sup: Field::Sym(Symbol { fam: 0, code: b'2' }),
        sub: Field::Empty,
    };
    let mut items = Vec::new(alloc);
    items.push(Item::Atom(Box::new(alloc, atom)?))?;
    Ok(MathList::from_vec(items))
}

const SQUARE: [Place; 2] = [
    Place::Glyph {
        font: 3,
        code: b'x',
        h: 0,
        v: 475136,
    },
    Place::Glyph {
        font: 1,
        code: b'2',
        h: 327680,
        v: 229376,
    },
];

// The box of its row in text style.
fn square_box(rt: &impl Abort, alloc: Global, fonts: &FontSet) -> Result<Packed, AllocError> {
    let row = set_list(alloc, fonts, square(alloc)?, Style::T).expect(rt, "a row");
    Ok(hpack(alloc, row).expect(rt, "a box"))
}

#[test]
fn sets_a_list(rt: HostRuntime) {
    let alloc = rt.alloc();
    let fonts = toy_fonts(alloc).expect(&rt, "memory");
    let body = square_box(&rt, alloc, &fonts).expect(&rt, "memory");
    let found = places(alloc, &body, 0, body.extents().height, 100).expect(&rt, "its places");
    assert_eq!(rt; found.as_slice(), SQUARE.as_slice());
}

#[test]
fn reads_a_tfm_file(rt: HostRuntime) {
    let alloc = rt.alloc();
    let file = toy_tfm(alloc, Toy::Italic).expect(&rt, "memory");
    // At 10pt, with the character whose kerns place accents.
    let font = read_tfm(alloc, file.as_slice(), 655360, Some(127)).expect(&rt, "memory");
    assert!(rt; font.exists(b'x'));
    assert_eq!(rt;
        (font.width(b'x'), font.height(b'x'), font.depth(b'x')),
        (327680, 327680, 0)
    );
}

#[test]
fn reads_a_dvi_file(rt: HostRuntime) {
    let alloc = rt.alloc();
    let fonts = toy_fonts(alloc).expect(&rt, "memory");
    // The file of a source of one formula, on lines of 6.5in.
    let mut notes = Notes::none();
    let file = source_file(alloc, &fonts, 30785863, b"$x^2$", &mut notes).expect(&rt, "a file");
    let pages = read_dvi(alloc, &fonts, file.as_slice()).expect(&rt, "its pages");
    assert!(rt;
        pages
            .get(0)
            .is_some_and(|page| page.as_slice() == SQUARE.as_slice())
    );
}
