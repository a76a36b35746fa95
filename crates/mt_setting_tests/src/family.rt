ghost use Rattle.std.specs.Prelude.{◌<◌};

use crate::fonts::load;
use mt_family::{FontList, FontSet, ListError, SetError, Size, read_font_list};
use std::alloc::{AllocError, Global};
use std::process::Abort;

const FAULTS: [(&str, ListError); 11] = [
    ("", ListError::BadLine(1)),
    ("x", ListError::BadLine(1)),
    ("mathset fonts 1\nfont a/b 9 -", ListError::BadLine(2)),
    ("mathset fonts 1\nfont a 0 -", ListError::BadLine(2)),
    ("mathset fonts 1\nfont a 9 256", ListError::BadLine(2)),
    ("mathset fonts 1\n font a 9 -", ListError::BadLine(2)),
    ("mathset fonts 1\nfamily 16 - - -", ListError::BadLine(2)),
    (
        "mathset fonts 1\n%\n\nfont a 9 -\nfont  a 09 127\n",
        ListError::Repeated(5),
    ),
    (
        "mathset fonts 1\nfamily 0 - - -\nfamily 0 - - -",
        ListError::Repeated(3),
    ),
    (
        "mathset fonts 1\nfont a 9 -\nfamily 0 0 - 1",
        ListError::UnknownFont(3),
    ),
    (
        "mathset fonts 1\nfamily 0 - - -\nfamily 0 7 - -",
        ListError::Repeated(3),
    ),
];

fn read(alloc: Global, text: &[u8]) -> Result<FontList, ListError> {
    if text.len() > 65536 {
        return Err(ListError::OutOfMemory);
    }
    read_font_list(alloc, text)
}

#[test]
fn each_fault_has_its_line(rt: HostRuntime) {
    for (text, want) in FAULTS {
        assert!(rt; read(rt.alloc(), text.as_bytes()).is_err_and(|error| error == want));
    }
}

// A list of 48 fonts, of the sizes 100 to 147, and a last line.
fn full(rt: &impl Abort, alloc: Global, last_line: &[u8]) -> Vec<u8> {
    let mut text = b"mathset fonts 1".to_vec(alloc).expect(rt, "memory");
    for last in 0..48u8 {
        text.extend_from_slice(b"\nfont a 1").expect(rt, "memory");
        let digits = [b'0' + last / 10, b'0' + last % 10];
        text.extend_from_slice(&digits).expect(rt, "memory");
        text.extend_from_slice(b" -").expect(rt, "memory");
    }
    text.extend_from_slice(last_line).expect(rt, "memory");
    text
}

#[test]
fn a_list_has_at_most_48_fonts(rt: HostRuntime) {
    let alloc = rt.alloc();
    let text = full(&rt, alloc, b"");
    assert!(rt; read(alloc, &text).is_ok_and(|list| list.lines.len() == 48));
    let text = full(&rt, alloc, b"\nfont a 9 -");
    assert!(rt; read(alloc, &text).is_err_and(|error| error == ListError::TooMany(50)));
    // A font too many may repeat another.
    let text = full(&rt, alloc, b"\nfont a 100 -");
    assert!(rt; read(alloc, &text).is_err_and(|error| error == ListError::Repeated(50)));
}

#[test]
fn sizes_are_numbered(rt: HostRuntime) {
    assert_eq!(rt; Size::Text.index(), 0);
    assert_eq!(rt; Size::Script.index(), 1);
    assert_eq!(rt; Size::Scriptscript.index(), 2);
}

// A font of one character with so many parameters, of which parameter 5 is a quarter of the size, and a design size of
// 10pt.
fn font_file(rt: &impl Abort, alloc: Global, params: u8) -> Vec<u8>
    requires { params < 100 }
{
    font_file_of(rt, alloc, params, 0xA0)
}

// The same with a design size of so many sixteenths of a point.
fn font_file_of(rt: &impl Abort, alloc: Global, params: u8, design: u8) -> Vec<u8>
    requires { params < 100 }
{
    let words = [
        [0, 15 + params, 0, 2],
        [0, 97, 0, 97],
        [0, 2, 0, 2],
        [0, 1, 0, 1],
        [0, 0, 0, 0],
        [0, 0, 0, params],
        [0, 0, 0, 0],
        [0, design, 0, 0],
        [1, 0x10, 0, 0],
        [0, 0, 0, 0],
        [0, 8, 0, 0],
        [0, 0, 0, 0],
        [0, 8, 0, 0],
        [0, 0, 0, 0],
        [0, 0, 0, 0],
    ];
    let mut bytes = Vec::new(alloc);
    for word in words {
        bytes.extend_from_slice(&word).expect(rt, "memory");
    }
    for number in 1..=params {
        let quarter = if number == 5 { 4 } else { 0 };
        bytes
            .extend_from_slice(&[0, quarter, 0, 0])
            .expect(rt, "memory");
    }
    bytes
}

// The set of a list, whose fonts have so many parameters with a skew character and without.
fn set(
    rt: &impl Abort,
    alloc: Global,
    text: &str,
    skewed: u8,
    plain: u8,
) -> Result<FontSet, SetError>
    requires skewed { skewed < 100 }
    requires plain { plain < 100 }
{
    let list = read(alloc, text.as_bytes()).expect(rt, "a list");
    let skewed = font_file(rt, alloc, skewed);
    let plain = font_file(rt, alloc, plain);
    let fonts = load(rt, alloc, list.lines.as_slice(), &skewed, &plain).expect(rt, "memory");
    FontSet::build(alloc, list, fonts)
}

const TWO: &str = "mathset fonts 1\nfont a 655360 -\nfont b 327680 97\nfamily 2 0 1 1\n";

const APART: &str =
    "mathset fonts 1\nfont a 655360 -\nfont b 327680 97\nfamily 2 1 1 1\nfamily 3 0 0 0\n";

const ALL: &str =
    "mathset fonts 1\nfont a 655360 -\nfont b 327680 97\nfamily 2 0 1 1\nfamily 3 0 0 0\nfamily 0 1 - -\n";

#[test]
fn a_set_looks_fonts_up(rt: HostRuntime) {
    let set = set(&rt, rt.alloc(), ALL, 22, 22).expect(&rt, "a set");
    assert!(rt;
        (set.number_of(2, Size::Text), set.number_of(2, Size::Script)) == (Some(0), Some(1))
    );
    assert!(rt;
        set.number_of(0, Size::Script).is_none() && set.number_of(16, Size::Text).is_none()
    );
    let small = set.font_of(2, Size::Scriptscript).map(|font| font.at());
    assert!(rt; (small, set.font(0).map(|font| font.at())) == (Some(327680), Some(655360)));
    assert!(rt; set.font_count() == 2 && set.name(1).is_some_and(|name| name.len() == 1));
    assert!(rt; (set.find(b"b", 327680), set.find(b"b", 655360)) == (Some(1), None));
    assert!(rt; (set.sy(5, Size::Script), set.ex(5, Size::Script)) == (81920, 163840));
    assert!(rt; (set.units().em, set.units().ex) == (0, 81920));
}

// One name at thousandths of 10pt, and of 5pt.
const HALVES: &str = "mathset fonts 2\nfont a scaled 500\nfont a scaled 1000 97\n";

#[test]
fn fonts_of_other_design_sizes_can_have_one_size(rt: HostRuntime) {
    let alloc = rt.alloc();
    let list = read(alloc, HALVES.as_bytes()).expect(&rt, "a list");
    let skewed = font_file_of(&rt, alloc, 0, 0x50);
    let plain = font_file_of(&rt, alloc, 0, 0xA0);
    let fonts = load(&rt, alloc, list.lines.as_slice(), &skewed, &plain).expect(&rt, "memory");
    let refused = FontSet::build(alloc, list, fonts);
    assert!(rt; refused.is_err_and(|error| error == SetError::SameFont(1)));
}

// Fonts 0 and 2 have one name, and at a design size of 10pt one size.
const SAME: &str =
    "mathset fonts 2\nfont a scaled 500\nfont b scaled 500\nfont a 327680\nfamily 2 0 0 0\n";

#[test]
fn each_fault_of_a_set_is_found(rt: HostRuntime) {
    let size = Size::Text;
    // The list, how many parameters the fonts with a skew character have, and those without.
    let faults = [
        (TWO, 22, 22, SetError::NoMathFamily { fam: 3, size }),
        (APART, 22, 12, SetError::FewParameters { fam: 3, size }),
        (ALL, 21, 21, SetError::FewParameters { fam: 2, size }),
        // A name and a size are there once.
        (SAME, 22, 22, SetError::SameFont(2)),
    ];
    for (list, skewed, plain, want) in faults {
        assert!(rt; skewed < 100 && plain < 100);
        let refused = set(&rt, rt.alloc(), list, skewed, plain);
        assert!(rt; refused.is_err_and(|error| error == want));
    }
}
