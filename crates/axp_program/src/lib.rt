//! The program as a function of the runtime, for every program crate whose `main` does this work.
#![tactic(auto)]

ghost use Rattle.std.specs.Prelude.{◌≡◌, IfOk, IfErr, OnErr, IfSome};
ghost use Rattle.std.specs.IoError.{error_kind};
ghost use Rattle.std.specs.Process.{exit_status};
ghost use Rattle.axp_top.specs.Outside.{outside_at};
ghost use Rattle.axp_top.specs.Statuses.{number_of_status};
ghost use Rattle.axp_top.specs.Words.{order_of};
ghost use Rattle.axp_program.specs.Numbers.{IsExitNumber, number_without_words, number_once_flushed};
ghost use Rattle.axp_program.specs.Served.{IsServed};

use axp_base::NoMemory;
use axp_explain::explain;
use axp_io::{Desk, FileDesk, OutSink, Sink, SinkFault};
use axp_top::{Status, Word, serve_plain};
use std::alloc::Global;
use std::env::{self, Env};
use std::io::{self, ErrorKind};
use std::process::ExitCode;
use std::rt::Files;

/// The number that the process ends with where the system does not give the words.
const REFUSED_WORDS: u8 = 17;

/// What the program says of itself to a person.
const VERSION: &str = "axp 0.1.0\n";

/// What the program tells a person that it can do.
const HELP: &str = "\
axp: an emulator of Alpha AXP processors that share memory

usage: axp seed IMAGE CPUS BUDGET SEED  the trace of a run whose events the seed chooses
       axp replay IMAGE FILE            the trace of an event list; or runs a trace
                                        again and compares
       axp check IMAGE TRACE            whether a trace, whoever made it, can be
                                        an Alpha's shared memory
       axp gen NUMBER                   counts what seeded runs of a litmus test showed
       axp elf FILE MEMORY STACK TABLE  the image file of an executable
       axp asm FILE                     the image file of an assembler source
       axp list IMAGE                   the assembler source of an image
       axp --help                       this, on standard error
       axp --version                    the name and the version, on standard error

examples: axp seed examples/spin_lock/image.bin 2 4000 7
          axp replay examples/spin_lock/image.bin examples/spin_lock/events.txt
          axp asm examples/spin_lock/program.s >spin_lock.img

Standard output has the trace or the file, or a line that says why there is
none, and the exit number says how the work ended.
";

/// Does what the words of the command line say, with the runtime's files and standard output, and
/// answers what the process ends with: `docs/FORMATS.md` has the numbers.
pub fn run<R: Env + Files + Print + Eprint + AllocGlobal>(rt: &R) -> ExitCode
    ensures { IsExitNumber (exit_status result) }
{
    let mut desk = FileDesk::new(rt);
    let mut sink = OutSink::new(rt.alloc(), rt);
    let words = read_words(rt);
    if let Ok(words) = &words {
        tell_person(rt, words.as_slice());
    }
    let served = serve_words(rt.alloc(), &words, &mut desk, &mut sink);
    let number = number_after(served.number, sink.flush());
    if let (Ok(words), Some(status)) = (&words, served.status) {
        tell_refusal(rt, words.as_slice(), &mut desk, status);
    }
    ExitCode::from(number)
}

/// What was served.
#[derive(Clone, Copy, Debug, PartialEq, Eq)]
struct Served {
    /// The number that the process ends with.
    number: u8,
    /// The status, where the system gave the words.
    status: Option<Status>,
}

/// Tells a person on standard error what the words ask for: the help where there are none or
/// `--help` alone, and the version for `--version` alone.
///
/// A failure is ignored: what scripts read is standard output and the number.
fn tell_person<R: Eprint>(rt: &R, words: &[Word]) {
    let text = match words {
        [] => HELP,
        [word] if word.as_str() == "--help" => HELP,
        [word] if word.as_str() == "--version" => VERSION,
        _ => return,
    };
    let _ = rt.eprint(text);
}

/// Tells a person on standard error where and why the work of these words was refused, which ended
/// with this status.
///
/// A failure is ignored, as above.
fn tell_refusal<R: Eprint + AllocGlobal, D: Desk>(
    rt: &R,
    words: &[Word],
    desk: &mut D,
    status: Status,
) {
    if let Ok(Some(line)) = explain(rt.alloc(), words, desk, status) {
        if let Ok(line) = str::from_utf8(line.as_slice()) {
            let _ = rt.eprint(line);
        }
    }
}

/// The number that the process ends with once all that was put is written: that of what was served,
/// or of WriteFault where the writing failed.
fn number_after(served: u8, flushed: Result<(), SinkFault>) -> u8
    ensures by_flush { result ≡ number_once_flushed served flushed }
    ensures number { IsExitNumber served → IsExitNumber result }
{
    match flushed {
        Ok(()) => served,
        Err(_) => Status::WriteFault.number(),
    }
}

/// Serves the words where the system gave them, and answers the number that the process ends with.
fn serve_words<D: Desk, K: Sink>(
    alloc: Global,
    words: &io::Result<Vec<Word>>,
    desk: &mut D,
    sink: &mut K,
) -> Served
    // The number is that of a status, and the top call's promises hold with this status.
    ensures served { let at = outside_at D.faults D.asks K.taken K.faults K.puts in
        IfOk words.now (λ words. IsServed (D.told desk.old) (at desk.old sink.old)
        (at desk.new sink.new) (order_of words.items) result.number) }
    ensures status { IfSome result.status (λ s. result.number ≡ number_of_status s) }
    ensures no_words { IfErr words.now (λ error. result.number ≡ number_without_words (error_kind error)) }
    ensures nothing_asked { OnErr words.now (D.asks desk.new ≡ D.asks desk.old) }
    ensures nothing_put { OnErr words.now (K.puts sink.new ≡ K.puts sink.old) }
    ensures number { IsExitNumber result.number }
{
    match words {
        Ok(words) => {
            let status = serve_plain(alloc, words.as_slice(), desk, sink);
            Served {
                number: status.number(),
                status: Some(status),
            }
        }
        Err(error) => Served {
            number: number_without_words(error.kind()),
            status: None,
        },
    }
}

/// The number that the process ends with where the system did not give the words.
fn number_without_words(kind: ErrorKind) -> u8
    ensures number { result ≡ number_without_words kind }
    ensures exit { IsExitNumber result }
{
    match kind {
        ErrorKind::OutOfMemory => Status::Memory.number(),
        _ => REFUSED_WORDS,
    }
}

/// The words of the command line after the program's name.
fn read_words<R: Env + AllocGlobal>(rt: &R) -> io::Result<Vec<Word>> {
    let mut words = Vec::new(rt.alloc());
    for text in env::args(rt)?.skip(1) {
        let word = match Word::new(rt.alloc(), text.as_str()) {
            Ok(word) => word,
            Err(NoMemory) => return Err(io::Error::from(ErrorKind::OutOfMemory)),
        };
        words.push(word)?;
    }
    Ok(words)
}
