//! The delimiters of the toy fonts.
use crate::pieces::NO_DELIMITER;
use mt_box::{Extents, Mark};
use mt_delim::{Variant, choose_variant, delimiter_box};
use mt_family::Size;
use mt_rules::{Delim, PartError, Symbol};
use mt_samples::toy_fonts;

const SLASH: Delim = Delim {
    small: Symbol { fam: 0, code: 47 },
    large: Symbol { fam: 3, code: 14 },
};

const BRACE: Delim = Delim {
    small: Symbol { fam: 2, code: 102 },
    large: Symbol { fam: 3, code: 8 },
};

#[test]
fn characters_by_the_wanted_size(rt: HostRuntime) {
    let fonts = toy_fonts(rt.alloc()).expect(&rt, "memory");
    // no slash is so tall
    assert_eq!(rt;
        choose_variant(&fonts, SLASH, Size::Text, 737919),
        Variant::Char { font: 9, code: 14 }
    );
    assert_eq!(rt;
        choose_variant(&fonts, NO_DELIMITER, Size::Text, 5),
        Variant::Null
    );
    // top, middle and bottom are 737280 high together, and two repeats 163840
    for (wanted, repeats) in [(737919, 1), (328417280, 2000), (328417281, 2001)] {
        assert_eq!(rt;
            choose_variant(&fonts, BRACE, Size::Text, wanted),
            Variant::Extensible {
                font: 9,
                code: 56,
                repeats
            }
        );
    }
}

// What is in the column of a brace with so many repeats in a row.
fn brace_marks(repeats: u64) -> [Mark; 5] {
    let stack = Mark::Stack {
        font: 9,
        code: 62,
        step: 81920,
        count: repeats,
    };
    [
        Mark::Glyph { font: 9, code: 56 },
        stack,
        Mark::Glyph { font: 9, code: 60 },
        stack,
        Mark::Glyph { font: 9, code: 58 },
    ]
}

#[test]
fn repeats_are_one_node(rt: HostRuntime) {
    let alloc = rt.alloc();
    let fonts = toy_fonts(alloc).expect(&rt, "memory");
    let brace = delimiter_box(alloc, &fonts, BRACE, Size::Text, 328417280).expect(&rt, "a brace");
    let marks = brace_marks(2000);
    assert!(rt; brace.body.nodes().len() == marks.len());
    for (node, mark) in brace.body.nodes().iter().zip(marks.iter()) {
        assert!(rt; &node.mark == mark);
    }
}

#[test]
fn a_slash_is_centred_by_its_raise(rt: HostRuntime) {
    let alloc = rt.alloc();
    let fonts = toy_fonts(alloc).expect(&rt, "memory");
    let slash = delimiter_box(alloc, &fonts, SLASH, Size::Text, 737919).expect(&rt, "a slash");
    let extents = Extents {
        width: 327680,
        height: 40960,
        depth: 450560,
    };
    assert!(rt; slash.raise == 368640 && slash.body.extents() == extents);
}

#[test]
fn refuses_more_than_2000_repeats(rt: HostRuntime) {
    let fonts = toy_fonts(rt.alloc()).expect(&rt, "memory");
    let refused = delimiter_box(rt.alloc(), &fonts, BRACE, Size::Text, 328417281);
    assert!(rt; matches!(refused, Err(PartError::TooTall(2001))));
}
