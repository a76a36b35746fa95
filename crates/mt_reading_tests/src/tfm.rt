ghost use Rattle.std.specs.Prelude.{◌≤◌};
ghost use Rattle.mt_tfm.specs.Limits.{max_factor};

use mt_tfm::{Font, Pair, Recipe, TfmError, read_tfm, read_tfm_scaled};
use std::alloc::Global;
use std::process::Abort;

// The one character 97, half as wide and half as high as the font's size.
const FONT: [u8; 60] = [
    0x00, 0x0F, 0x00, 0x02, 0x00, 0x61, 0x00, 0x61, 0x00, 0x02, 0x00, 0x02, 0x00, 0x01, 0x00, 0x01,
    0x00, 0x00, 0x00, 0x00, 0x00, 0x00, 0x00, 0x00, 0x00, 0x00, 0x00, 0x00, 0x00, 0xA0, 0x00, 0x00,
    0x01, 0x10, 0x00, 0x00, 0x00, 0x00, 0x00, 0x00, 0x00, 0x08, 0x00, 0x00, 0x00, 0x00, 0x00, 0x00,
    0x00, 0x08, 0x00, 0x00, 0x00, 0x00, 0x00, 0x00, 0x00, 0x00, 0x00, 0x00,
];

// The font with bytes changed, and words after it.
fn changed(rt: &impl Abort, alloc: Global, changes: &[(usize, u8)], words: &[u8]) -> Vec<u8> {
    let mut bytes = FONT.to_vec(alloc).expect(rt, "memory");
    for (index, value) in changes {
        if let Some(byte) = bytes.get_mut(*index) {
            *byte = *value;
        }
    }
    bytes.extend_from_slice(words).expect(rt, "memory");
    bytes
}

// The font that such a file is at its design size.
fn font(rt: &impl Abort, alloc: Global, changes: &[(usize, u8)], words: &[u8]) -> Font {
    let bytes = changed(rt, alloc, changes, words);
    read_tfm(alloc, &bytes, 655360, None).expect(rt, "a font")
}

// The fault of such a file.
fn fault(
    rt: &impl Abort,
    alloc: Global,
    changes: &[(usize, u8)],
    words: &[u8],
) -> Option<TfmError> {
    let bytes = changed(rt, alloc, changes, words);
    read_tfm(alloc, &bytes, 655360, None).err()
}

#[test]
fn reads_a_font_of_one_character(rt: HostRuntime) {
    let font = font(&rt, rt.alloc(), &[], &[]);
    assert!(rt; font.exists(97) && !font.exists(98));
    let extents = (
        font.width(97),
        font.height(97),
        font.depth(97),
        font.italic(97),
    );
    assert!(rt; extents == (327680, 327680, 0, 0));
    assert!(rt; font.larger(97).is_none() && font.recipe(97).is_none());
    assert!(rt; font.pair(97, 97) == Pair::None && font.skew_of(97) == 0);
    assert!(rt; (font.params(), font.param(1), font.checksum()) == (0, 0, 0));
    assert!(rt; (font.design(), font.at()) == (655360, 655360));
}

#[test]
fn a_tag_names_a_program(rt: HostRuntime) {
    // The program joins 97 with 97 to 97.
    let font = font(
        &rt,
        rt.alloc(),
        &[(1, 16), (17, 1), (34, 1)],
        &[128, 97, 0, 97],
    );
    assert!(rt; font.pair(97, 97) == Pair::Join(97));
}

#[test]
fn a_tag_names_a_larger_character(rt: HostRuntime) {
    // The character 98 is larger than 97.
    let changes = [
        (1, 16),
        (7, 98),
        (34, 2),
        (35, 98),
        (36, 1),
        (37, 16),
        (41, 0),
        (45, 8),
        (49, 0),
        (53, 8),
    ];
    let font = font(&rt, rt.alloc(), &changes, &[0; 4]);
    assert!(rt; (font.larger(97), font.larger(98)) == (Some(98), None));
}

#[test]
fn a_tag_names_a_recipe(rt: HostRuntime) {
    // The recipe of 97 has no top and no bottom.
    let font = font(
        &rt,
        rt.alloc(),
        &[(1, 16), (21, 1), (34, 3)],
        &[0, 97, 0, 97],
    );
    let recipe = Recipe {
        top: 0,
        middle: 97,
        bottom: 0,
        repeat: 97,
    };
    assert!(rt; font.recipe(97) == Some(recipe));
}

#[test]
fn a_boundary_character_need_not_exist(rt: HostRuntime) {
    // The boundary character is 98, and the program joins 97 with it to 97.
    let changes = [(1, 17), (17, 2), (34, 1), (35, 1)];
    let font = font(&rt, rt.alloc(), &changes, &[255, 98, 0, 0, 128, 98, 0, 97]);
    assert!(rt; !font.exists(98));
    assert!(rt; font.pair(97, 98) == Pair::Join(97));
}

#[test]
fn a_font_cut_short_is_truncated(rt: HostRuntime) {
    for length in 0..60usize {
        let fault = read_tfm(rt.alloc(), &FONT[..length], 655360, None).err();
        assert!(rt; fault == Some(TfmError::Truncated));
    }
}

#[test]
fn each_check_has_its_fault(rt: HostRuntime) {
    let faults: [(&[(usize, u8)], &[u8], TfmError); 10] = [
        (&[(3, 1)], &[], TfmError::BadCounts),
        (&[(28, 128)], &[], TfmError::BadHeader),
        (&[(33, 0x20)], &[], TfmError::BadIndex(97)),
        (&[(34, 2), (35, 97)], &[], TfmError::ChainCycle(97)),
        // The word of a code that does not exist is checked too.
        (&[(32, 0), (34, 2), (35, 97)], &[], TfmError::ChainCycle(97)),
        (&[(40, 1)], &[], TfmError::BadFix { table: 1, n: 1 }),
        // Parameter 1 is not tested, and parameter 2 is entry 0.
        (
            &[(1, 17), (23, 2)],
            &[1, 0, 0, 0, 1, 0, 0, 0],
            TfmError::BadFix { table: 6, n: 0 },
        ),
        (&[(47, 1)], &[], TfmError::BadZero(2)),
        (
            &[(1, 16), (17, 1)],
            &[0, 98, 0, 97],
            TfmError::BadProgram(0),
        ),
        (&[(1, 16), (21, 1)], &[0, 0, 0, 98], TfmError::BadRecipe(0)),
    ];
    for (changes, words, want) in faults {
        assert!(rt; fault(&rt, rt.alloc(), changes, words) == Some(want));
    }
}

// The font that such a file is at thousandths of its design size.
fn scaled(
    rt: &impl Abort,
    alloc: Global,
    changes: &[(usize, u8)],
    factor: u32,
) -> Result<Font, TfmError>
    requires low { 1 ≤ factor }
    requires high { factor ≤ max_factor }
{
    let bytes = changed(rt, alloc, changes, &[]);
    read_tfm_scaled(alloc, &bytes, factor, None)
}

#[test]
fn a_font_is_scaled(rt: HostRuntime) {
    // Thousandths of 10pt, cut off to scaled points.
    let sizes = [
        (1, 655),
        (2, 1310),
        (500, 327680),
        (700, 458752),
        (1000, 655360),
        (32768, 21474836),
    ];
    for (factor, size) in sizes {
        let font = scaled(&rt, rt.alloc(), &[], factor).expect(&rt, "a font");
        assert!(rt; font.exists(97));
        assert!(rt; (font.at(), font.width(97)) == (size, size / 2));
    }
}

#[test]
fn a_font_of_the_greatest_and_of_the_smallest_design_size(rt: HostRuntime) {
    // The greatest size, as a design size of 2^27 - 1 sp.
    let greatest = [(28, 127), (29, 255), (30, 255), (31, 240)];
    let font = scaled(&rt, rt.alloc(), &greatest, 1000);
    assert!(rt; font.is_ok_and(|font| font.at() == 134217727));
    let font = scaled(&rt, rt.alloc(), &[(29, 16)], 1);
    assert!(rt; font.is_ok_and(|font| font.at() == 65));
}

#[test]
fn a_size_is_tested_after_the_design_size(rt: HostRuntime) {
    // What is changed, the thousandths, the fault there, and the one at a size of its own.
    let faults: [(&[(usize, u8)], u32, TfmError, Option<TfmError>); 4] = [
        (
            &[(28, 0x7D), (29, 0)],
            32768,
            TfmError::BadSize(4294967296),
            None,
        ),
        (
            &[(28, 0x40), (29, 0)],
            2000,
            TfmError::BadSize(134217728),
            None,
        ),
        // The design size is tested before the size, and the characters after it.
        (
            &[(28, 0x80), (29, 0)],
            32768,
            TfmError::BadHeader,
            Some(TfmError::BadHeader),
        ),
        (
            &[(28, 0x7D), (29, 0), (33, 0x20)],
            32768,
            TfmError::BadSize(4294967296),
            Some(TfmError::BadIndex(97)),
        ),
    ];
    for (changes, factor, at_factor, at_size) in faults {
        assert!(rt; scaled(&rt, rt.alloc(), changes, factor).err() == Some(at_factor));
        assert!(rt; fault(&rt, rt.alloc(), changes, &[]) == at_size);
    }
}
