use mt_family::read_font_list;
use mt_samples::{Toy, generate, toy_list, toy_tfm};
use mt_tfm::{Font, Pair, Recipe, read_tfm};
use std::alloc::Global;
use std::process::Abort;

fn font(rt: &impl Abort, alloc: Global, which: Toy, skew: Option<u8>) -> Font {
    let bytes = toy_tfm(alloc, which).expect(rt, "memory");
    read_tfm(alloc, bytes.as_slice(), 655360, skew).expect(rt, "a font")
}

#[test]
fn the_toy_roman_has_its_tables(rt: HostRuntime) {
    let roman = font(&rt, rt.alloc(), Toy::Roman, None);
    assert!(rt; roman.pair(102, 105) == Pair::Join(12));
    assert!(rt; roman.pair(102, 102) == Pair::Kern(-40960));
    assert!(rt; roman.pair(102, 108) == Pair::Smart);
    assert!(rt; roman.param(2) == 204800);
}

#[test]
fn the_other_toy_fonts_have_their_tables(rt: HostRuntime) {
    let alloc = rt.alloc();
    assert!(rt; font(&rt, alloc, Toy::Italic, Some(127)).skew_of(102) == 40960);
    let symbols = font(&rt, alloc, Toy::Symbols, None);
    assert!(rt; (symbols.params(), symbols.param(21)) == (22, 655360));
    let extension = font(&rt, alloc, Toy::Extension, None);
    assert!(rt; extension.larger(0) == Some(16));
    let recipe = Recipe {
        top: 56,
        middle: 60,
        bottom: 58,
        repeat: 62,
    };
    assert!(rt; extension.recipe(56) == Some(recipe));
}

#[test]
fn the_toy_list_has_ten_fonts(rt: HostRuntime) {
    let bytes = toy_list(rt.alloc()).expect(&rt, "memory");
    let list = read_font_list(rt.alloc(), bytes.as_slice()).expect(&rt, "a list");
    assert!(rt; (list.lines.len(), list.families.len()) == (10, 4));
}

// The expected bytes were made by a program in another language, from the rule in docs/FORMATS.md.
#[test]
fn sources_are_those_of_their_seeds(rt: HostRuntime) {
    let sources: [(u64, u32, &[u8]); 3] = [
        (0, 0, b""),
        (1, 1, b"$\\hat d^2\\mathchoice{m}{s}{k}{d}$\n"),
        (
            0,
            3,
            b"$$\\sum_m^p{y\\over b+v}$$\n$\\hat t^2\\mathchoice{c}{b}{x}{g}$\n$$\\sum_h^y{y\\over r+m}$$\n",
        ),
    ];
    for (seed, count, want) in sources {
        let source = generate(rt.alloc(), seed, count).expect(&rt, "memory");
        assert!(rt; source.as_slice() == want);
    }
}

#[test]
fn every_20th_formula_ends_its_page(rt: HostRuntime) {
    let source = generate(rt.alloc(), 7, 100).expect(&rt, "memory");
    assert!(rt; source.len() == 2488);
    assert!(rt; source.as_slice().ends_with(b"$y_k^2-g_d^3$\n\\eject\n"));
}

#[test]
fn the_longest_source_fits_a_file(rt: HostRuntime) {
    let source = generate(rt.alloc(), 1, 20000).expect(&rt, "memory");
    assert!(rt; source.len() == 489646);
}
