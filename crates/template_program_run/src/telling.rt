//! Faults, told on one line, or with a place behind it. What cannot be written changes nothing.
ghost use Rattle.std.specs.Prelude.{◌≡◌};
ghost use Rattle.template_program_output.specs.Lines.{error_line, fault_line};
ghost use Rattle.template_program_output.specs.Shown.{Puts};
ghost use Rattle.template_program_places.specs.Told.{PutsBefore};
ghost use Rattle.template_program_run.specs.Starts.{TellsLine, file_line, memory_line};
ghost use Rattle.template_program_run.specs.Status.{file_status};

use std::alloc::Global;
use template_program_output::{Output, write_error, write_fault, write_whole};
use template_program_parts::{FILE, FileFault, MEMORY};
use template_program_places::{write_placed, write_placed_word};
use template_values_errors::{Error, ErrorKind};

/// Writes `fault: `, a word and a newline.
pub(crate) fn tell_word<F: Output>(fault: &mut F, word: &str)
    ensures { Puts (F.shown fault.old) (F.shown fault.new) (fault_line word.now) }
{
    let _ = write_fault(fault, word);
}

/// Writes the line of an error.
pub(crate) fn tell_error<F: Output>(fault: &mut F, error: &Error)
    ensures { Puts (F.shown fault.old) (F.shown fault.new) (error_line error.now) }
{
    let _ = write_error(fault, error);
}

/// Writes the line of want of memory.
pub(crate) fn tell_memory<F: Output>(fault: &mut F)
    ensures { Puts (F.shown fault.old) (F.shown fault.new) memory_line }
{
    tell_error(fault, &Error::new(ErrorKind::OutOfMemory));
}

/// Writes a text as it is.
pub(crate) fn tell_text<F: Output>(fault: &mut F, text: &str)
    ensures { Puts (F.shown fault.old) (F.shown fault.new) text.now }
{
    let _ = write_whole(fault, text.as_bytes());
}

/// Tells that a file or an input is refused, and behind that its path where places are asked for. Gives the status.
pub(crate) fn refuse_file<F: Output>(
    alloc: Global,
    refused: FileFault,
    tells_where: bool,
    path: &str,
    fault: &mut F,
) -> u8
    ensures status { result ≡ file_status refused }
    ensures told { TellsLine tells_where (file_line refused) (F.shown fault.old) (F.shown fault.new) }
{
    tell_refused(alloc, refused, tells_where, path, fault);
    match refused {
        FileFault::File => FILE,
        FileFault::Memory => MEMORY,
    }
}

fn tell_refused<F: Output>(
    alloc: Global,
    refused: FileFault,
    tells_where: bool,
    path: &str,
    fault: &mut F,
)
    ensures { TellsLine tells_where (file_line refused) (F.shown fault.old) (F.shown fault.new) }
{
    if tells_where {
        tell_file_at(alloc, refused, path, fault);
    } else {
        tell_file(refused, fault);
    }
}

fn tell_file<F: Output>(refused: FileFault, fault: &mut F)
    ensures { Puts (F.shown fault.old) (F.shown fault.new) (file_line refused) }
{
    match refused {
        FileFault::File => tell_word(fault, "File"),
        FileFault::Memory => tell_memory(fault),
    }
}

fn tell_file_at<F: Output>(alloc: Global, refused: FileFault, path: &str, fault: &mut F)
    ensures { PutsBefore (F.shown fault.old) (F.shown fault.new) (file_line refused) }
{
    match refused {
        FileFault::File => write_placed_word(fault, "File", path),
        FileFault::Memory => tell_memory_first(alloc, fault),
    }
}

fn tell_memory_first<F: Output>(alloc: Global, fault: &mut F)
    ensures { PutsBefore (F.shown fault.old) (F.shown fault.new) memory_line }
{
    write_placed(alloc, fault, &Error::new(ErrorKind::OutOfMemory), &[]);
}
