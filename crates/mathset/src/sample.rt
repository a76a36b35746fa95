//! The command `gen`: generated formulas, set with the toy fonts.
ghost use Rattle.std.specs.Prelude.{◌≡◌, ◌≤◌, ◌++◌, ◌∷◌, [], IfOk, List, OnOk, codes};
ghost use Rattle.mt_outside.specs.declared.files.Held.{Held as HeldFields};
ghost use Rattle.mt_samples.specs.Which.{toy_bytes};
ghost use Rattle.mathset.specs.Samples.{sample_files};
ghost use Rattle.mathset.specs.Steps.{gen_answer};
ghost use Rattle.mt_status.specs.Origins.{IsPure};
ghost use Rattle.mathset.specs.inner.Steps.{text_of};

use crate::typesetting::{Form, typeset};
use mt_outside::{FileList, Held, SteadyCabinet};
use mt_samples::{Toy, generate, toy_list, toy_tfm};
use mt_scaled::{Bytes, Name};
use mt_status::{Notes, Status};
use mt_words::{DEFAULT_LINE, Sample, Source};
use std::alloc::{AllocError, Global};

fn push_file(
    files: &mut Vec<Held>,
    alloc: Global,
    name: &str,
    bytes: Bytes,
) -> Result<(), AllocError>
    ensures { OnOk result (files.new.items
        ≡ files.old.items ++ record { name = name.now; bytes = bytes } ∷ []) }
{
    let name = Name::from_slice(alloc, name.as_bytes())?;
    files.push(Held { name, bytes })?;
    Ok(())
}

fn push_font(files: &mut Vec<Held>, alloc: Global, name: &str, font: Toy) -> Result<(), AllocError>
    ensures { OnOk result (files.new.items
        ≡ files.old.items ++ record { name = name.now; bytes = toy_bytes font } ∷ []) }
{
    push_file(files, alloc, name, toy_tfm(alloc, font)?)
}

// Adds the toy font list, the toy fonts and the generated source.
fn push_files(files: &mut Vec<Held>, alloc: Global, sample: &Sample) -> Result<(), AllocError>
    requires { files.old.items ≡ [] }
    ensures { OnOk result (files.new.items ≡ sample_files sample.now.seed sample.now.count) }
{
    push_file(files, alloc, "toy.fonts", toy_list(alloc)?)?;
    push_font(files, alloc, "toyr.tfm", Toy::Roman)?;
    push_font(files, alloc, "toym.tfm", Toy::Italic)?;
    push_font(files, alloc, "toys.tfm", Toy::Symbols)?;
    push_font(files, alloc, "toyx.tfm", Toy::Extension)?;
    let source = generate(alloc, sample.seed, sample.count)?;
    push_file(files, alloc, "generated.tex", source)
}

fn sample_files(alloc: Global, sample: &Sample) -> Result<FileList, AllocError>
    ensures { IfOk result (λ files. files ≡ sample_files sample.now.seed sample.now.count) }
{
    let mut files = Vec::new(alloc);
    push_files(&mut files, alloc, sample)?;
    Ok(FileList::from_vec(files))
}

/// Sets generated formulas with the toy fonts: what is made is the summary of their pages.
///
/// # Errors
///
/// Those of a source that is set; `OutOfMemory` where memory ran out.
pub fn generated_summary(alloc: Global, sample: &Sample) -> Result<Bytes, Status>
    ensures is { IsPure (gen_answer sample.now) (text_of result) }
{
    let mut cabinet = SteadyCabinet::new(sample_files(alloc, sample)?);
    let words = Source {
        fonts: "toy.fonts",
        source: "generated.tex",
        line: DEFAULT_LINE,
    };
    let form = Form::Summary(sample.count);
    typeset(alloc, &words, form, &mut cabinet, &mut Notes::none())
}
