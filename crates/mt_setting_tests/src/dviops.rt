//! The file of one page, picked and joined.
ghost use Rattle.std.specs.Prelude.{◌≡◌, ◌≤◌, IfOk, length};

use mt_dviops::{FileBytes, OpError, append_files, select_pages};
use mt_dviread::DviError;
use mt_samples::toy_fonts;
use mt_scaled::{Bytes, Items};
use std::alloc::{AllocError, Global};
use std::test::Fail;

// A page of one glyph.
const ONE_GLYPH: [u8; 148] = [
    247, 2, 1, 131, 146, 192, 28, 59, 0, 0, 0, 0, 3, 232, 0, 139, 0, 0, 0, 1, 0, 0, 0, 0, 0, 0, 0,
    0, 0, 0, 0, 0, 0, 0, 0, 0, 0, 0, 0, 0, 0, 0, 0, 0, 0, 0, 0, 0, 0, 0, 0, 0, 0, 0, 0, 0, 255,
    255, 255, 255, 243, 3, 0, 0, 0, 0, 0, 10, 0, 0, 0, 10, 0, 0, 0, 4, 116, 111, 121, 109, 174,
    160, 0, 5, 0, 0, 97, 140, 248, 0, 0, 0, 15, 1, 131, 146, 192, 28, 59, 0, 0, 0, 0, 3, 232, 0, 5,
    0, 0, 0, 5, 0, 0, 0, 0, 0, 1, 243, 3, 0, 0, 0, 0, 0, 10, 0, 0, 0, 10, 0, 0, 0, 4, 116, 111,
    121, 109, 249, 0, 0, 0, 88, 2, 223, 223, 223, 223, 223,
];

// The offset 35.
const POINTER: [u8; 4] = [0, 0, 0, 35];

// The file, and as many bytes of it as are asked for.
fn two_files(alloc: Global, cut: usize) -> Result<FileBytes, AllocError>
    requires { cut ≤ 148 }
    ensures { IfOk result (λ files. length files ≡ 2) }
{
    let mut files = Vec::new(alloc);
    files.push(Bytes::from_vec(Vec::from_slice(alloc, &ONE_GLYPH)?))?;
    files.push(Bytes::from_vec(Vec::from_slice(alloc, &ONE_GLYPH[..cut])?))?;
    Ok(Items::from_vec(files))
}

#[test]
fn picks_a_page(rt: HostRuntime) -> Result<(), Fail> {
    let fonts = toy_fonts(rt.alloc()).expect(&rt, "the fonts");
    let file = select_pages(rt.alloc(), &fonts, &ONE_GLYPH, &[1]).expect(&rt, "a file");
    let bytes = file.as_slice();
    assert_eq!(rt; bytes.len(), 148);
    assert_eq!(rt; bytes[..15], ONE_GLYPH[..15]);
    assert_eq!(rt; bytes[15..35], ONE_GLYPH[60..80]);
    assert_eq!(rt; bytes[35..80], ONE_GLYPH[15..60]);
    assert_eq!(rt; bytes[80..89], ONE_GLYPH[80..89]);
    assert_eq!(rt; bytes[89..93], POINTER[..]);
    assert_eq!(rt; bytes[93..], ONE_GLYPH[93..]);
    assert_eq!(rt;
        select_pages(rt.alloc(), &fonts, &ONE_GLYPH, &[1, 2, 0]).err(),
        Some(OpError::PageOutOfRange(2))
    );
    Ok(())
}

#[test]
fn joins_files(rt: HostRuntime) -> Result<(), Fail> {
    let fonts = toy_fonts(rt.alloc()).expect(&rt, "the fonts");
    let files = two_files(rt.alloc(), 148).expect(&rt, "two files");
    let file = append_files(rt.alloc(), &fonts, &files).expect(&rt, "a file");
    let bytes = file.as_slice();
    assert_eq!(rt; bytes.len(), 200);
    assert_eq!(rt; bytes[35..80], ONE_GLYPH[15..60]);
    assert_eq!(rt; bytes[129..133], POINTER[..]);
    let files = two_files(rt.alloc(), 1).expect(&rt, "two files");
    let error = append_files(rt.alloc(), &fonts, &files).err();
    assert_eq!(rt;
        error,
        Some(OpError::BadFile {
            file: 1,
            cause: DviError::Truncated(0)
        })
    );
    Ok(())
}
