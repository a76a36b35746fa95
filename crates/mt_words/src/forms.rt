//! The forms of a command line.
ghost use Rattle.std.specs.Prelude.{◌≡◌, ◌&&◌, IfOk, None, Some, codes, if◌then◌else◌, map};
ghost use Rattle.std.specs.Prelude.{nat_le, option_and_then, option_map, string_bytes};
ghost use Rattle.clap.specs.Words.{all_of, first_of, found_of, rows_of};
ghost use Rattle.mt_scaled.specs.Number.{max_dimen};
ghost use Rattle.mt_words.specs.Request.{dvi_files_of, dvi_pages_of, has_line, line_width, line_source};
ghost use Rattle.mt_words.specs.Request.{names_request, pair_request, request_by, request_in};
ghost use Rattle.mt_words.specs.Request.{request_of, sample_of, source_of};
ghost use Rattle.mt_words.specs.declared.request.Request.TheVariants.{Join, Pick};

use crate::command_line::match_words;
use crate::number::decimal_between;
use crate::range::pages_of_ranges;
use crate::request::{DviFiles, DviPages, DviSource, Request, Sample, Source};
use clap::ArgMatches;
use clap::parser::ValueSource;
use mt_samples::MAX_COUNT;
use mt_scaled::MAX_DIMEN;
use std::alloc::{AllocError, Global};

/// The most ranges of pages.
const MAX_RANGES: usize = 64;

/// The most DVI files that are joined.
const MAX_JOINED: usize = 16;

fn sample_of(seed: &str, count: &str) -> Option<Sample>
    ensures { result ≡ sample_of seed.now count.now }
{
    let seed = decimal_between(0, u64::MAX, seed)?;
    let count = decimal_between(0, u64::from(MAX_COUNT), count)?;
    Some(Sample {
        seed,
        count: count as u32,
    })
}

fn width_in_range(line: Option<u32>) -> Option<u32>
    ensures { result
        ≡ option_and_then (λ n. if nat_le 1 n && nat_le n max_dimen then Some n else None) line }
{
    match line {
        Some(line) if 1 <= line && i64::from(line) <= MAX_DIMEN => Some(line),
        _ => None,
    }
}

// The width of a line, from the words or by default.
fn line_width(matches: &ArgMatches<'_>) -> Option<u32>
    ensures { result ≡ line_width (rows_of (found_of matches.now)) }
{
    width_in_range(matches.get_one::<u32>("line"))
}

// Where the width of a line comes from.
fn line_source(matches: &ArgMatches<'_>) -> Option<ValueSource>
    ensures { result ≡ line_source (rows_of (found_of matches.now)) }
{
    matches.value_source("line")
}

// Whether the words have the option `--line`.
fn has_line(matches: &ArgMatches<'_>) -> bool
    ensures { result ≡ has_line (rows_of (found_of matches.now)) }
{
    matches!(line_source(matches), Some(ValueSource::CommandLine))
}

fn source_of<'a>(fonts: &'a str, source: &'a str, matches: &ArgMatches<'a>) -> Option<Source<'a>>
    ensures { result ≡ source_of fonts.now source.now (rows_of (found_of matches.now)) }
{
    let line = line_width(matches)?;
    Some(Source {
        fonts,
        source,
        line: i64::from(line),
    })
}

// Pages of a DVI file, by their ranges.
fn dvi_pages_of<'a>(alloc: Global, names: &[&'a str]) -> Result<Option<DviPages<'a>>, AllocError>
    ensures { IfOk result (λ pages. pages ≡ dvi_pages_of (map (λ name. name.now) names.now)) }
{
    let [fonts, dvi, ranges @ ..] = names else {
        return Ok(None);
    };
    if ranges.is_empty() || ranges.len() > MAX_RANGES {
        return Ok(None);
    }
    match pages_of_ranges(alloc, ranges)? {
        Some(pages) => Ok(Some(DviPages { fonts, dvi, pages })),
        None => Ok(None),
    }
}

// DVI files to be joined.
fn dvi_files_of<'a>(alloc: Global, names: &[&'a str]) -> Result<Option<DviFiles<'a>>, AllocError>
    ensures { IfOk result (λ files. files ≡ dvi_files_of (map (λ name. name.now) names.now)) }
{
    let [fonts, files @ ..] = names else {
        return Ok(None);
    };
    if files.is_empty() || files.len() > MAX_JOINED {
        return Ok(None);
    }
    Ok(Some(DviFiles {
        fonts,
        files: Vec::from_slice(alloc, files)?,
    }))
}

// The commands of two names each.
fn pair_request<'a>(
    action: &str,
    first: &'a str,
    second: &'a str,
    matches: &ArgMatches<'a>,
) -> Option<Request<'a>>
    ensures { result
        ≡ pair_request action.now first.now second.now (rows_of (found_of matches.now)) }
{
    match action {
        "set" => Some(Request::Set(source_of(first, second, matches)?)),
        "places" => Some(Request::Places(source_of(first, second, matches)?)),
        _ if has_line(matches) => None,
        "read" => Some(Request::Read(DviSource {
            fonts: first,
            dvi: second,
        })),
        "gen" => Some(Request::Gen(sample_of(first, second)?)),
        _ => None,
    }
}

fn names_request<'a>(
    action: &str,
    names: &[&'a str],
    matches: &ArgMatches<'a>,
) -> Option<Request<'a>>
    ensures { result ≡ names_request action.now (map (λ name. name.now) names.now)
        (rows_of (found_of matches.now)) }
{
    let [first, second] = names else {
        return None;
    };
    pair_request(action, first, second, matches)
}

fn pick_request<'a>(alloc: Global, names: &[&'a str]) -> Result<Option<Request<'a>>, AllocError>
    ensures { IfOk result (λ request. request
        ≡ option_map Pick (dvi_pages_of (map (λ name. name.now) names.now))) }
{
    Ok(dvi_pages_of(alloc, names)?.map(Request::Pick))
}

fn join_request<'a>(alloc: Global, names: &[&'a str]) -> Result<Option<Request<'a>>, AllocError>
    ensures { IfOk result (λ request. request
        ≡ option_map Join (dvi_files_of (map (λ name. name.now) names.now))) }
{
    Ok(dvi_files_of(alloc, names)?.map(Request::Join))
}

fn request_by<'a>(
    alloc: Global,
    action: &str,
    names: &[&'a str],
    matches: &ArgMatches<'a>,
) -> Result<Option<Request<'a>>, AllocError>
    ensures { IfOk result (λ request. request ≡ request_by action.now
        (map (λ name. name.now) names.now) (rows_of (found_of matches.now))) }
{
    match action {
        "pick" | "join" if has_line(matches) => Ok(None),
        "pick" => pick_request(alloc, names),
        "join" => join_request(alloc, names),
        _ => Ok(names_request(action, names, matches)),
    }
}

fn action_of<'a>(matches: &ArgMatches<'a>) -> Option<&'a str>
    ensures { option_map (λ action. action.now) result
        ≡ first_of (codes "action") (rows_of (found_of matches.now)) }
{
    matches.get_str("action")
}

fn names_of<'a, 'm>(matches: &'m ArgMatches<'a>) -> Option<&'m [&'a str]>
    ensures { option_map (λ names. map (λ name. name.now) names.now) result
        ≡ all_of (codes "names") (rows_of (found_of matches.now)) }
{
    matches.get_strs("names")
}

fn request_in<'a>(
    alloc: Global,
    matches: &ArgMatches<'a>,
) -> Result<Option<Request<'a>>, AllocError>
    ensures { IfOk result (λ request. request ≡ request_in (rows_of (found_of matches.now))) }
{
    let Some(action) = action_of(matches) else {
        return Ok(None);
    };
    let Some(names) = names_of(matches) else {
        return Ok(None);
    };
    request_by(alloc, action, names, matches)
}

/// What the words of a command line ask for, the program's name first. `None` where they are none
/// of the forms of `Request`.
///
/// They are read by `clap` as an option `--line` with a number from 1 to 1073741823, 30785863
/// (6.5in) by default, a required ACTION, and NAMES: two in each form, but three or more with `pick`,
/// whose RANGES are 1 to 64, and two or more with `join`, whose files are 1 to 16. `--line` goes with
/// `set` and `places` alone. SEED and COUNT are digits alone. A RANGE is a page or two with a `-`
/// between them, digits alone, from 1 to 65535: `A-B` are the pages from A to B, downward where B is
/// below A.
///
/// # Errors
///
/// `AllocError` where memory ran out.
pub fn read_words(alloc: Global, words: &[String]) -> Result<Option<Request<'_>>, AllocError>
    ensures { IfOk result (λ request. request ≡ request_of (map string_bytes words.now)) }
{
    match match_words(alloc, words)? {
        Some(matches) => request_in(alloc, &matches),
        None => Ok(None),
    }
}
