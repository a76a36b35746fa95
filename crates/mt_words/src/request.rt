//! What the words of a command line ask for.
use std::marker::Model;

/// A source to be set in the fonts of a list.
#[derive(Debug, Drop)]
pub struct Source<'a> {
    /// The name of the font list.
    pub fonts: &'a str,
    /// The name of the source.
    pub source: &'a str,
    /// The width of a line in sp, 1 to `MAX_DIMEN`.
    pub line: i64,
}

impl<'a> Model for Source<'a> {
    ghost use Rattle.std.specs.Prelude.{◌≤ℤ◌, pos};
    ghost use Rattle.mt_scaled.specs.Number.{max_dimen};
    ghost use Rattle.mt_words.specs.RequestValues.{SourceValue};

    ghost Value = { SourceValue };

    ghost view = { λ s. record { fonts = s.fonts.now; source = s.source.now; line = s.line } };

    ghost invariant = { λ s. (pos 1 ≤ℤ s.line) × (s.line ≤ℤ pos max_dimen) };
}

/// A DVI file to be read with the fonts of a list.
#[derive(Debug, Drop)]
pub struct DviSource<'a> {
    /// The name of the font list.
    pub fonts: &'a str,
    /// The name of the DVI file.
    pub dvi: &'a str,
}

impl<'a> Model for DviSource<'a> {
    ghost use Rattle.mt_words.specs.RequestValues.{DviValue};

    ghost Value = { DviValue };

    ghost view = { λ f. record { fonts = f.fonts.now; dvi = f.dvi.now } };
}

/// Pages of a DVI file, to be read with the fonts of a list.
#[derive(Debug, Drop)]
pub struct DviPages<'a> {
    /// The name of the font list.
    pub fonts: &'a str,
    /// The name of the DVI file.
    pub dvi: &'a str,
    /// The numbers of the pages, from 1 on, in the order that is asked for; a page may come twice.
    pub pages: Vec<u32>,
}

impl<'a> Model for DviPages<'a> {
    ghost use Rattle.mt_words.specs.RequestValues.{DviPagesValue};

    ghost Value = { DviPagesValue };

    ghost view = { λ p. record { fonts = p.fonts.now; dvi = p.dvi.now; pages = p.pages.items } };
}

/// DVI files to be read with the fonts of a list, 1 to 16.
#[derive(Debug, Drop)]
pub struct DviFiles<'a> {
    /// The name of the font list.
    pub fonts: &'a str,
    /// The names of the DVI files.
    pub files: Vec<&'a str>,
}

impl<'a> Model for DviFiles<'a> {
    ghost use Rattle.std.specs.Prelude.{◌≤◌, length, map};
    ghost use Rattle.mt_words.specs.Limits.{max_joined};
    ghost use Rattle.mt_words.specs.RequestValues.{DviFilesValue};

    ghost Value = { DviFilesValue };

    ghost view = { λ j. record { fonts = j.fonts.now; files = map (λ name. name.now) j.files.items } };

    ghost invariant = { λ j. (1 ≤ length j.files.items) × (length j.files.items ≤ max_joined) };
}

/// Formulas to be generated.
#[derive(Debug, Drop)]
pub struct Sample {
    /// The seed of the generator.
    pub seed: u64,
    /// How many formulas, 0 to `mt_samples::MAX_COUNT`.
    pub count: u32,
}

impl Model for Sample {
    ghost use Rattle.std.specs.Prelude.{◌≤◌};
    ghost use Rattle.mt_samples.specs.Limits.{max_count};
    ghost use Rattle.mt_words.specs.RequestValues.{SampleValue};

    ghost Value = { SampleValue };

    ghost view = { λ s. record { seed = s.seed; count = s.count } };

    ghost invariant = { λ s. s.count ≤ max_count };
}

/// What the words of a command line ask for.
#[derive(Debug, Drop)]
pub enum Request<'a> {
    /// `set FONTS SOURCE`: the DVI file of the source's pages.
    Set(Source<'a>),
    /// `places FONTS SOURCE`: the same pages as a text.
    Places(Source<'a>),
    /// `read FONTS DVI`: the places of the DVI file as a text.
    Read(DviSource<'a>),
    /// `pick FONTS DVI RANGE..`: a DVI file of these pages of the DVI file.
    Pick(DviPages<'a>),
    /// `join FONTS DVI..`: a DVI file of all pages of the DVI files, in order.
    Join(DviFiles<'a>),
    /// `gen SEED COUNT`: a summary of generated formulas.
    Gen(Sample),
}
