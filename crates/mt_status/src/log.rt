//! The line that a refusal writes to the log; the name of a file is in it unchanged, line feeds too.
ghost use Rattle.std.specs.Prelude.{◌≡◌, ◌∷◌, [], codes, decimal};
ghost use Rattle.std.specs.List.{concat};
ghost use Rattle.mt_status.specs.Log.{Gets};
ghost use Rattle.mt_status.specs.Statuses.{log_line, much_text};
ghost use Rattle.mt_status.specs.inner.LogParts.{part_bytes};

use crate::log_part::{LogPart, write_parts};
use crate::status::{Much, Status};
use mt_family::Size;
use mt_outside::Sink;
use mt_scaled::Name;

fn write_text<L: Sink>(log: &mut L, text: &[u8])
    ensures { Gets L.written L.faults log.old log.new (text.now) }
{
    write_parts(log, &[LogPart::Text(text)]);
}

// A file that is refused, by its name.
fn write_file<'a, L: Sink>(log: &mut L, head: &'a [u8], name: &'a Name)
    ensures { Gets L.written L.faults log.old log.new
        (concat (head.now ∷ name.now ∷ codes "\n" ∷ [])) }
{
    write_parts(
        log,
        &[
            LogPart::Text(head),
            LogPart::Text(name.as_slice()),
            LogPart::Text(b"\n"),
        ],
    );
}

// How far the output was written.
fn write_written<L: Sink>(log: &mut L, count: u64)
    ensures { Gets L.written L.faults log.old log.new (log_line (Status.WriteFault count)) }
{
    write_parts(
        log,
        &[
            LogPart::Text(b"mathset: cannot write after "),
            LogPart::Long(count),
            LogPart::Text(b" bytes\n"),
        ],
    );
}

// A place in a file, by its number, and the cause of its fault.
fn write_place<'a, L: Sink>(log: &mut L, head: &'a [u8], place: LogPart<'a>, cause: u8)
    ensures { Gets L.written L.faults log.old log.new
        (concat (head.now ∷ part_bytes place.entry ∷ codes " cause " ∷ decimal cause
        ∷ codes "\n" ∷ [])) }
{
    write_parts(
        log,
        &[
            LogPart::Text(head),
            place,
            LogPart::Text(b" cause "),
            LogPart::Byte(cause),
            LogPart::Text(b"\n"),
        ],
    );
}

fn write_list_line<L: Sink>(log: &mut L, line: u32, cause: u8)
    ensures { Gets L.written L.faults log.old log.new (log_line (Status.FontList line cause)) }
{
    write_place(log, b"mathset: font list line ", LogPart::Word(line), cause);
}

fn write_font<L: Sink>(log: &mut L, font: u32, cause: u8)
    ensures { Gets L.written L.faults log.old log.new (log_line (Status.BadTfm font cause)) }
{
    write_place(log, b"mathset: font ", LogPart::Word(font), cause);
}

fn write_source_byte<L: Sink>(log: &mut L, offset: u64, cause: u8)
    ensures { Gets L.written L.faults log.old log.new (log_line (Status.BadSource offset cause)) }
{
    write_place(log, b"mathset: source byte ", LogPart::Long(offset), cause);
}

fn write_dvi_byte<L: Sink>(log: &mut L, offset: u64, cause: u8)
    ensures { Gets L.written L.faults log.old log.new (log_line (Status.BadDvi offset cause)) }
{
    write_place(log, b"mathset: dvi byte ", LogPart::Long(offset), cause);
}

fn write_family<L: Sink>(log: &mut L, fam: u8, size: Size, cause: u8)
    ensures { Gets L.written L.faults log.old log.new (log_line (Status.BadFamily fam size cause)) }
{
    write_parts(
        log,
        &[
            LogPart::Text(b"mathset: family "),
            LogPart::Byte(fam),
            LogPart::Text(b" size "),
            LogPart::Size(size),
            LogPart::Text(b" cause "),
            LogPart::Byte(cause),
            LogPart::Text(b"\n"),
        ],
    );
}

// A formula, by its number, and what is wrong with it as a whole.
fn write_formula<L: Sink>(log: &mut L, n: u32, tail: &[u8])
    ensures { Gets L.written L.faults log.old log.new
        (concat (codes "mathset: formula " ∷ decimal n ∷ tail.now ∷ [])) }
{
    write_parts(
        log,
        &[
            LogPart::Text(b"mathset: formula "),
            LogPart::Word(n),
            LogPart::Text(tail),
        ],
    );
}

fn write_token<L: Sink>(log: &mut L, n: u32, token: u32, cause: u8)
    ensures { Gets L.written L.faults log.old log.new (log_line (Status.BadFormula n token cause)) }
{
    write_parts(
        log,
        &[
            LogPart::Text(b"mathset: formula "),
            LogPart::Word(n),
            LogPart::Text(b" token "),
            LogPart::Word(token),
            LogPart::Text(b" cause "),
            LogPart::Byte(cause),
            LogPart::Text(b"\n"),
        ],
    );
}

fn write_depth<L: Sink>(log: &mut L, n: u32, token: u32)
    ensures { Gets L.written L.faults log.old log.new (log_line (Status.TooDeep n token)) }
{
    write_parts(
        log,
        &[
            LogPart::Text(b"mathset: formula "),
            LogPart::Word(n),
            LogPart::Text(b" token "),
            LogPart::Word(token),
            LogPart::Text(b" depth\n"),
        ],
    );
}

fn write_missing_family<L: Sink>(log: &mut L, n: u32, fam: u8, size: Size)
    ensures { Gets L.written L.faults log.old log.new (log_line (Status.MissingFamily n fam size)) }
{
    write_parts(
        log,
        &[
            LogPart::Text(b"mathset: formula "),
            LogPart::Word(n),
            LogPart::Text(b" family "),
            LogPart::Byte(fam),
            LogPart::Text(b" size "),
            LogPart::Size(size),
            LogPart::Text(b" missing\n"),
        ],
    );
}

fn write_missing_char<L: Sink>(log: &mut L, n: u32, fam: u8, size: Size, code: u8)
    ensures { Gets L.written L.faults log.old log.new
        (log_line (Status.MissingChar n fam size code)) }
{
    write_parts(
        log,
        &[
            LogPart::Text(b"mathset: formula "),
            LogPart::Word(n),
            LogPart::Text(b" family "),
            LogPart::Byte(fam),
            LogPart::Text(b" size "),
            LogPart::Size(size),
            LogPart::Text(b" code "),
            LogPart::Byte(code),
            LogPart::Text(b" missing\n"),
        ],
    );
}

fn write_pair<L: Sink>(log: &mut L, n: u32, fam: u8, size: Size, first: u8, second: u8)
    ensures { Gets L.written L.faults log.old log.new
        (log_line (Status.SmartLigature n fam size first second)) }
{
    write_parts(
        log,
        &[
            LogPart::Text(b"mathset: formula "),
            LogPart::Word(n),
            LogPart::Text(b" family "),
            LogPart::Byte(fam),
            LogPart::Text(b" size "),
            LogPart::Size(size),
            LogPart::Text(b" pair "),
            LogPart::Byte(first),
            LogPart::Text(b" "),
            LogPart::Byte(second),
            LogPart::Text(b"\n"),
        ],
    );
}

fn write_overflow<L: Sink>(log: &mut L, n: u32, value: &i128)
    ensures { Gets L.written L.faults log.old log.new (log_line (Status.Overflow n value.now)) }
{
    write_parts(
        log,
        &[
            LogPart::Text(b"mathset: formula "),
            LogPart::Word(n),
            LogPart::Text(b" overflow "),
            LogPart::Signed(value),
            LogPart::Text(b"\n"),
        ],
    );
}

fn write_repeats<L: Sink>(log: &mut L, n: u32, count: u64)
    ensures { Gets L.written L.faults log.old log.new (log_line (Status.TooTall n count)) }
{
    write_parts(
        log,
        &[
            LogPart::Text(b"mathset: formula "),
            LogPart::Word(n),
            LogPart::Text(b" repeats "),
            LogPart::Long(count),
            LogPart::Text(b"\n"),
        ],
    );
}

fn much_text(kind: Much) -> &'static [u8]
    ensures { result.now ≡ much_text kind }
{
    match kind {
        Much::Pages => b"pages",
        Much::Places => b"places",
        Much::Bytes => b"bytes",
    }
}

fn write_too_many<L: Sink>(log: &mut L, kind: Much, count: u64)
    ensures { Gets L.written L.faults log.old log.new (log_line (Status.TooMuch kind count)) }
{
    write_parts(
        log,
        &[
            LogPart::Text(b"mathset: too many "),
            LogPart::Text(much_text(kind)),
            LogPart::Text(b" "),
            LogPart::Long(count),
            LogPart::Text(b"\n"),
        ],
    );
}

// A page that is not there.
fn write_page<L: Sink>(log: &mut L, page: u32)
    ensures { Gets L.written L.faults log.old log.new (log_line (Status.BadPick page)) }
{
    write_parts(
        log,
        &[
            LogPart::Text(b"mathset: no page "),
            LogPart::Word(page),
            LogPart::Text(b"\n"),
        ],
    );
}

fn write_clash<L: Sink>(log: &mut L, file: u32)
    ensures { Gets L.written L.faults log.old log.new (log_line (Status.MagClash file)) }
{
    write_parts(
        log,
        &[
            LogPart::Text(b"mathset: file "),
            LogPart::Word(file),
            LogPart::Text(b" mag\n"),
        ],
    );
}

fn write_file_byte<L: Sink>(log: &mut L, file: u32, offset: u64, cause: u8)
    ensures { Gets L.written L.faults log.old log.new
        (log_line (Status.BadFile file offset cause)) }
{
    write_parts(
        log,
        &[
            LogPart::Text(b"mathset: file "),
            LogPart::Word(file),
            LogPart::Text(b" byte "),
            LogPart::Long(offset),
            LogPart::Text(b" cause "),
            LogPart::Byte(cause),
            LogPart::Text(b"\n"),
        ],
    );
}

/// Writes the line of a refusal, and nothing for `Done`. A fault of the log changes nothing else.
///
/// The name of a file is in the line unchanged: one that has a line feed makes two lines. It takes no memory, so
/// that lack of memory can be reported too.
pub fn write_line<L: Sink>(log: &mut L, status: &Status)
    ensures { Gets L.written L.faults log.old log.new (log_line status.now) }
{
    match status {
        Status::Done => {}
        Status::BadWords => write_text(log, b"mathset: words\n"),
        Status::ReadFault { name } => write_file(log, b"mathset: cannot read ", name),
        Status::TooLong { name } => write_file(log, b"mathset: too long ", name),
        Status::WriteFault { written } => write_written(log, *written),
        Status::FontList { line, cause } => write_list_line(log, *line, *cause),
        Status::BadTfm { font, cause } => write_font(log, *font, *cause),
        Status::BadFamily { fam, size, cause } => write_family(log, *fam, *size, *cause),
        Status::BadSource { offset, cause } => write_source_byte(log, *offset, *cause),
        Status::BadFormula { n, token, cause } => write_token(log, *n, *token, *cause),
        Status::Budget { n } => write_formula(log, *n, b" budget\n"),
        Status::MissingFamily { n, fam, size } => write_missing_family(log, *n, *fam, *size),
        Status::MissingChar { n, fam, size, code } => write_missing_char(
            log, *n, *fam, *size, *code,
        ),
        Status::SmartLigature {
            n,
            fam,
            size,
            first,
            second,
        } => write_pair(log, *n, *fam, *size, *first, *second),
        Status::Overflow { n, value } => write_overflow(log, *n, value),
        Status::TooTall { n, count } => write_repeats(log, *n, *count),
        Status::TooDeep { n, token } => write_depth(log, *n, *token),
        Status::TooMuch { kind, count } => write_too_many(log, *kind, *count),
        Status::BadDvi { offset, cause } => write_dvi_byte(log, *offset, *cause),
        Status::BadPick { page } => write_page(log, *page),
        Status::MagClash { file } => write_clash(log, *file),
        Status::BadFile {
            file,
            offset,
            cause,
        } => write_file_byte(log, *file, *offset, *cause),
        Status::OutOfMemory => write_text(log, b"mathset: out of memory\n"),
    }
}
