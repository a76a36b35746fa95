//! The command line, as `clap` reads it.
ghost use Rattle.std.specs.Prelude.{◌≡◌, IfOk, false, map, option_map, pos, string_bytes};
ghost use Rattle.clap.specs.Words.{app_of, found_of, rows_of, rule_of};
ghost use Rattle.clap.specs.declared.builder.value_parser.ValueParser.TheVariants.{Signed};
ghost use Rattle.mt_scaled.specs.Number.{max_dimen};
ghost use Rattle.mt_words.specs.CommandLine.{action_rule, command_line, found_rows, line_rule};
ghost use Rattle.mt_words.specs.CommandLine.{names_rule, plain_command};

use clap::builder::ValueParser;
use clap::error::ErrorKind;
use clap::{Arg, ArgAction, ArgMatches, Command};
use mt_scaled::MAX_DIMEN;
use std::alloc::{AllocError, Global};

/// The width of a line in sp where the words give none: 6.5in.
pub const DEFAULT_LINE: i64 = 30_785_863;

// The same as a word, for `clap`.
const DEFAULT_WORD: &str = "30785863";

fn line_range<'a>() -> ValueParser<'a>
    ensures { result ≡ Signed (pos 1) (pos max_dimen) }
{
    ValueParser::Signed(1, MAX_DIMEN)
}

// The option `--line`: the width of a line in sp, 6.5in where it is not given.
fn line_argument<'a>(alloc: Global) -> Arg<'a>
    ensures rule { rule_of result ≡ line_rule }
    ensures own { result.global ≡ false }
{
    Arg::new(alloc, "line")
        .long("line")
        .action(ArgAction::Set)
        .value_parser(line_range())
        .default_value(DEFAULT_WORD)
}

fn action_argument<'a>(alloc: Global) -> Arg<'a>
    ensures rule { rule_of result ≡ action_rule }
    ensures own { result.global ≡ false }
{
    Arg::new(alloc, "action")
        .required(true)
        .action(ArgAction::Set)
}

fn names_argument<'a>(alloc: Global) -> Arg<'a>
    ensures rule { rule_of result ≡ names_rule }
    ensures own { result.global ≡ false }
{
    Arg::new(alloc, "names")
        .num_args(1..)
        .action(ArgAction::Append)
}

// A command line without a flag for help or for a version.
fn plain_command<'a>(alloc: Global) -> Command<'a>
    ensures { app_of result ≡ plain_command }
{
    Command::new(alloc, "mathset")
        .disable_help_flag(true)
        .disable_version_flag(true)
}

fn command_line<'a>(alloc: Global) -> Result<Command<'a>, AllocError>
    ensures { IfOk result (λ command. app_of command ≡ command_line) }
{
    let line = line_argument(alloc);
    let action = action_argument(alloc);
    let names = names_argument(alloc);
    let with_line = plain_command(alloc).arg(line)?;
    let with_action = with_line.arg(action)?;
    with_action.arg(names)
}

/// What `clap` finds in the words, the program's name first: `--line` with a number, ACTION, and
/// NAMES. `None` where its reading of them has a fault.
///
/// # Errors
///
/// `AllocError` where memory ran out.
pub fn match_words<'a>(
    alloc: Global,
    words: &'a [String],
) -> Result<Option<ArgMatches<'a>>, AllocError>
    ensures { IfOk result (λ found. option_map (λ matches. rows_of (found_of matches)) found
        ≡ found_rows (map string_bytes words.now)) }
{
    let command = command_line(alloc)?;
    match command.try_get_matches_from(words) {
        Ok(matches) => Ok(Some(matches)),
        Err(error) => {
            if error.kind() == ErrorKind::OutOfMemory {
                Err(AllocError)
            } else {
                Ok(None)
            }
        }
    }
}
