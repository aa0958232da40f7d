//! Printing the verdict.
ghost use Rattle.std.specs.Prelude.{◌≡◌, IfOk, IfErr, IsTrue, IsFalse};
ghost use Rattle.std.specs.Io.KnownBytes.{Appends};
ghost use Rattle.std.specs.String.{string_bytes};
ghost use Rattle.ds_io.specs.Faults.{Rose};
ghost use Rattle.ds_audit.specs.Audits.{IfUnwritten, IsPrinted, status_of, verdict_text};

use crate::status::AuditStatus;
use ds_check::Verdict;
use ds_io::{Sink, write_all};
use std::alloc::{AllocError, Global};

/// Prints the line of a verdict, and gives its status; or why it couldn't.
pub(crate) fn print<O: Sink>(alloc: Global, verdict: Verdict, output: &mut O) -> AuditStatus
    ensures printed { IsPrinted verdict (O.held output.old) (O.held output.new) (O.faults output.old) (O.faults output.new) result }
    ensures unwritten { IfUnwritten result (output.new ≡ output.old) }
{
    match text_of(alloc, verdict) {
        Ok(text) => print_text(verdict, text.as_str().as_bytes(), output),
        Err(_) => AuditStatus::NoMemory,
    }
}

/// Prints the line of a verdict, which is this text.
fn print_text<O: Sink>(verdict: Verdict, text: &[u8], output: &mut O) -> AuditStatus
    requires { text.now ≡ verdict_text verdict }
    ensures printed { IsPrinted verdict (O.held output.old) (O.held output.new) (O.faults output.old) (O.faults output.new) result }
    ensures unwritten { IfUnwritten result (output.new ≡ output.old) }
{
    if write_whole(output, text) {
        status_of(verdict)
    } else {
        AuditStatus::WriteFault
    }
}

/// The status of a printed verdict.
fn status_of(verdict: Verdict) -> AuditStatus
    ensures { result ≡ status_of verdict }
{
    match verdict {
        Verdict::Legal => AuditStatus::Legal,
        _ => AuditStatus::NotLegal,
    }
}

/// The line of a verdict.
fn text_of(alloc: Global, verdict: Verdict) -> Result<String, AllocError>
    ensures { IfOk result (λ text. string_bytes text ≡ verdict_text verdict) }
{
    match verdict {
        Verdict::Legal => format!(in alloc; "legal\n"),
        Verdict::Reply { line } => format!(in alloc; "not legal: line {line}\n"),
        Verdict::Count => format!(in alloc; "not legal: count\n"),
        Verdict::Numbers => format!(in alloc; "not legal: numbers\n"),
        Verdict::Ids => format!(in alloc; "not legal: ids\n"),
    }
}

/// Whether the whole text was written and sent on its way; where it wasn't, the output failed.
fn write_whole<O: Sink>(output: &mut O, text: &[u8]) -> bool
    ensures whole { IsTrue result → Appends (O.held output.old) (O.held output.new) text.now }
    ensures fault { IsFalse result → Rose (O.faults output.old) (O.faults output.new) }
{
    match write_all(output, text) {
        Ok(()) => output.flush().is_ok(),
        Err(_) => false,
    }
}
