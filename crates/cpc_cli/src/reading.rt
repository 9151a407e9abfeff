//! The files of a command: its text, and the program that it is.
ghost use Rattle.std.specs.Prelude.{◌≡◌, ◌≤◌, ◌+◌, IfOk, IsErrOf, []};
ghost use Rattle.cpc_base.specs.Bytes.{Text};
ghost use Rattle.cpc_base.specs.Outside.{AskedTo, Rose};
ghost use Rattle.cpc_base.specs.declared.stop.Dialect.TheVariants as D;
ghost use Rattle.cpc_check.specs.Accepted.{Accepts};
ghost use Rattle.cpc_tree.specs.Locate.{located};
ghost use Rattle.cpc_tree.specs.Located.{LProgram};
ghost use Rattle.cpc_cli.specs.declared.answer.End.{End};
ghost use Rattle.cpc_cli.specs.Command.{events_source, file_source, text_limit as limit_in, threads_source};
ghost use Rattle.cpc_cli.specs.Answer.{AcceptedAs, IsTranslated, NotAccepted, Nothing, Printed, RefusesText, TextHas, unread_end};

use crate::answer::{End, Report, Role};
use cpc_base::{Dialect, ReadFault, Shelf, Stop, read_file};
use cpc_check::Checked;
use cpc_translate::{TextFault, read, translate};
use std::alloc::Global;

/// The most bytes of a text of threads.
pub const TEXT_LIMIT: usize = 262_144;

/// The most bytes of a text of events.
pub const EVENT_TEXT_LIMIT: usize = 16_777_216;

/// The most bytes of a history.
pub const HISTORY_LIMIT: usize = 16_777_216;

/// The most bytes of a text.
pub(crate) fn text_limit(dialect: Dialect) -> usize
    ensures { result ≡ limit_in dialect }
{
    match dialect {
        Dialect::Cpc => TEXT_LIMIT,
        Dialect::Event => EVENT_TEXT_LIMIT,
    }
}

// Reads the text of a file.
fn read_text<F: Shelf>(
    alloc: Global,
    file: &str,
    dialect: Dialect,
    shelf: &mut F,
) -> Result<Vec<u8>, End>
    ensures text { IfOk result (λ t. TextHas (F.files shelf.old) (file_source dialect file.now) (λ bytes. t.items ≡ bytes)) }
    ensures refused { (end : End) → IsErrOf result end → NotAccepted (F.files shelf.old) (file_source dialect file.now)
        (λ name. Rose (F.faults shelf.old name) (F.faults shelf.new name)) end }
    ensures later { (name : Text) → F.faults shelf.old name ≤ F.faults shelf.new name }
    ensures stays { F.files shelf.new ≡ F.files shelf.old }
    ensures asked { AskedTo (F.asked shelf.old) (F.asked shelf.new) file.now (limit_in dialect + 1) }
{
    match read_file(alloc, shelf, file, text_limit(dialect)) {
        Ok(text) => Ok(text),
        Err(Stop::Memory) => Err(End::Memory),
        Err(Stop::Fault(ReadFault::Unread)) => Err(End::Unread(Role::Text)),
        Err(Stop::Fault(ReadFault::TooLong)) => Err(End::TooLong(Role::Text)),
    }
}

// The end of a call whose text is not read.
fn unread(stop: Stop<TextFault>) -> End
    ensures { result ≡ unread_end stop }
{
    match stop {
        Stop::Memory => End::Memory,
        Stop::Fault(fault) => End::Refused(fault),
    }
}

/// Reads the text of a file, and the program that it is.
pub(crate) fn checked<F: Shelf>(
    alloc: Global,
    file: &str,
    dialect: Dialect,
    shelf: &mut F,
) -> Result<Checked, End>
    ensures accepted { IfOk result (λ c. TextHas (F.files shelf.old) (file_source dialect file.now) (λ text. Accepts dialect text (located c.program))) }
    ensures dialect { IfOk result (λ c. c.dialect ≡ dialect) }
    ensures refused { (end : End) → IsErrOf result end → NotAccepted (F.files shelf.old) (file_source dialect file.now)
        (λ name. Rose (F.faults shelf.old name) (F.faults shelf.new name)) end }
    ensures later { (name : Text) → F.faults shelf.old name ≤ F.faults shelf.new name }
    ensures stays { F.files shelf.new ≡ F.files shelf.old }
    ensures asked { AskedTo (F.asked shelf.old) (F.asked shelf.new) file.now (limit_in dialect + 1) }
{
    let text = match read_text(alloc, file, dialect, shelf) {
        Ok(text) => text,
        Err(end) => return Err(end),
    };
    match read(alloc, text.as_slice(), dialect) {
        Ok(checked) => Ok(checked),
        Err(stop) => Err(unread(stop)),
    }
}

/// Translates a text, and gives the event program that is read of its print, which goes into the report.
pub(crate) fn translated_text(
    alloc: Global,
    text: &[u8],
    report: &mut Report,
) -> Result<Checked, End>
    requires { Nothing report.old [] }
    ensures printed { IfOk result (λ q. Printed (located q.program) report.new) }
    ensures dialect { IfOk result (λ q. q.dialect ≡ D.Event) }
    ensures same { IfOk result (λ q. (p : LProgram) × Accepts D.Cpc text.now p × IsTranslated p (located q.program)) }
    ensures refused { (end : End) → IsErrOf result end → RefusesText text.now end }
    ensures none { (end : End) → IsErrOf result end → Nothing report.new [] }
{
    match translate(alloc, text) {
        Ok(translated) => {
            report.printed = translated.printed;
            Ok(translated.read_back)
        }
        Err(stop) => Err(unread(stop)),
    }
}

/// Reads the text of a file, and gives the event program that is read of its print, which goes into the report.
pub(crate) fn translated<F: Shelf>(
    alloc: Global,
    file: &str,
    shelf: &mut F,
    report: &mut Report,
) -> Result<Checked, End>
    requires { Nothing report.old [] }
    ensures printed { IfOk result (λ q. Printed (located q.program) report.new) }
    ensures dialect { IfOk result (λ q. q.dialect ≡ D.Event) }
    ensures same { IfOk result (λ q. AcceptedAs (F.files shelf.old) (threads_source file.now) (λ p. IsTranslated p (located q.program))) }
    ensures refused { (end : End) → IsErrOf result end → NotAccepted (F.files shelf.old) (threads_source file.now)
        (λ name. Rose (F.faults shelf.old name) (F.faults shelf.new name)) end }
    ensures none { (end : End) → IsErrOf result end → Nothing report.new [] }
    ensures later { (name : Text) → F.faults shelf.old name ≤ F.faults shelf.new name }
    ensures stays { F.files shelf.new ≡ F.files shelf.old }
    ensures asked { AskedTo (F.asked shelf.old) (F.asked shelf.new) file.now (limit_in D.Cpc + 1) }
{
    let text = match read_text(alloc, file, Dialect::Cpc, shelf) {
        Ok(text) => text,
        Err(end) => return Err(end),
    };
    translated_text(alloc, text.as_slice(), report)
}

/// Reads the text of a file, and gives the event program that it is.
pub(crate) fn taken<F: Shelf>(alloc: Global, file: &str, shelf: &mut F) -> Result<Checked, End>
    ensures accepted { IfOk result (λ q. TextHas (F.files shelf.old) (events_source file.now) (λ text. Accepts D.Event text (located q.program))) }
    ensures dialect { IfOk result (λ q. q.dialect ≡ D.Event) }
    ensures refused { (end : End) → IsErrOf result end → NotAccepted (F.files shelf.old) (events_source file.now)
        (λ name. Rose (F.faults shelf.old name) (F.faults shelf.new name)) end }
    ensures later { (name : Text) → F.faults shelf.old name ≤ F.faults shelf.new name }
    ensures stays { F.files shelf.new ≡ F.files shelf.old }
    ensures asked { AskedTo (F.asked shelf.old) (F.asked shelf.new) file.now (limit_in D.Event + 1) }
{
    checked(alloc, file, Dialect::Event, shelf)
}
