ghost use Rattle.std.specs.Prelude.{◌≡◌, ◌≤◌, ◌<◌, ℕ, List, length, Option, None, IfOk, IfSome};
ghost use Rattle.axp_io.specs.Asks.{asks_in};
ghost use Rattle.axp_io.specs.Causes.{FetchCount, FetchGiven, FetchAsks};
ghost use Rattle.axp_io.specs.Courses.{Opening, OpensAs, FetchesSo};
ghost use Rattle.axp_io.specs.Files.{fresh_files};

use crate::asks::{Asked, Asks};
use crate::reading::{Reader, StandardReader, read_whole};
use crate::troubles::{Trouble, trouble_in};
use crate::{Desk, FetchFault};
use axp_base::Bytes;
use std::alloc::Global;
use std::fs;
use std::marker::Model;
use std::rt::Files;

/// The desk over files: a name is the path of a file, and its list the file's bytes.
///
/// A file that cannot be opened or read is a failure. It tells no list, since a file may change at
/// any time; what it does with what a file gives is the contract of `fetch_from`.
#[derive(Drop)]
pub struct FileDesk<R> {
    opener: FileOpener<R>,
    kept: Kept,
}

impl<R> Model for FileDesk<R> {
    ghost use Rattle.axp_io.specs.Files.{FilesView};

    ghost Value = { FilesView };

    ghost view = { λ d. d.kept };
}

impl<R: AllocGlobal> FileDesk<R> {
    /// The desk over the runtime's files.
    pub fn new(rt: R) -> FileDesk<R>
        ensures { result ≡ fresh_files }
    {
        let kept = Kept::new(rt.alloc());
        FileDesk {
            opener: FileOpener { rt },
            kept,
        }
    }
}

impl<R> FileDesk<R> {
    /// The asks that came so far, in order.
    pub fn asks(&self) -> &[Asked]
        ensures { asks_in result.now ≡ self.now.asks }
    {
        self.kept.asks.as_slice()
    }

    /// The number of fetches that failed so far, at most 2^64 - 1.
    pub fn faults(&self) -> u64
        ensures { result ≡ self.now.faults }
    {
        self.kept.faults
    }

    /// The number of bytes read so far, at most 2^64 - 1.
    pub fn given(&self) -> u64
        ensures { result ≡ self.now.given }
    {
        self.kept.given
    }
}

impl<R: Files> Desk for FileDesk<R> {
    ghost told = { λ _ _. None };

    ghost faults = { λ d. d.faults };

    ghost given = { λ d. d.given };

    ghost asks = { λ d. d.asks };

    fn fetch(&mut self, alloc: Global, name: &str, most: u64) -> Result<Bytes, FetchFault> {
        fetch_from(&self.opener, &mut self.kept, alloc, name, most)
    }
}

/// What a desk over an opener keeps: its counts, and the asks that came.
#[derive(Drop)]
struct Kept {
    faults: u64,
    given: u64,
    asks: Asks,
}

impl Model for Kept {
    ghost use Rattle.axp_io.specs.Files.{FilesView};

    ghost Value = { FilesView };

    ghost view = { λ k. record { faults = k.faults; given = k.given; asks = k.asks } };
}

impl Kept {
    /// Nothing came yet.
    fn new(alloc: Global) -> Kept
        ensures { result ≡ fresh_files }
    {
        Kept {
            faults: 0,
            given: 0,
            asks: Asks::empty(alloc),
        }
    }
}

/// What opens names for reading.
///
/// - `opens`: what opening a name gives, where that is known.
trait Opener {
    type File: Reader + Drop;

    ghost opens: { Self → List ℕ → Option Opening };

    /// Opens a name. The standard library tries an interrupted opening again by itself.
    fn open(&self, name: &str) -> Result<Self::File, Trouble>
        ensures { IfSome (opens self.now name.now)
            (λ opening. OpensAs Self.File.course opening result) };
}

/// Opens the runtime's files; what they hold is not known.
#[derive(Drop)]
struct FileOpener<R> {
    rt: R,
}

impl<R: Files> Opener for FileOpener<R> {
    type File = StandardReader<R::File>;

    ghost opens = { λ _ _. None };

    fn open(&self, name: &str) -> Result<StandardReader<R::File>, Trouble> {
        match fs::open(&self.rt, name) {
            Ok(inner) => Ok(StandardReader { inner }),
            Err(error) => Err(trouble_in(error)),
        }
    }
}

/// The whole list under a name: it is opened and read to its end.
///
/// A name that cannot be opened is a failure, as is a reader that meets a fault.
fn fetch_from<O: Opener>(
    opener: &O,
    kept: &mut Kept,
    alloc: Global,
    name: &str,
    most: u64,
) -> Result<Bytes, FetchFault>
    // An ask that was not kept, for want of memory, opens nothing.
    ensures opens { length kept.old.asks < length kept.new.asks
        → IfSome (O.opens opener.now name.now) (λ opening. FetchesSo opening most result) }
    ensures most { IfOk result (λ bytes. length bytes ≤ most) }
    ensures faults_grow { kept.old.faults ≤ kept.new.faults }
    ensures count { FetchCount kept.old.faults kept.new.faults result }
    ensures given_grow { kept.old.given ≤ kept.new.given }
    ensures given { FetchGiven kept.old.given kept.new.given most result }
    ensures asks { FetchAsks kept.old.asks kept.new.asks (name.now, most) result }
{
    let Ok(()) = kept.asks.keep(alloc, name, most) else {
        return Err(FetchFault::Memory);
    };
    let result = open_and_read(opener, alloc, name, most, &mut kept.given);
    if let Err(FetchFault::Failed) = result {
        kept.faults = kept.faults.saturating_add(1);
    }
    result
}

/// Opens a name and reads to the end, and counts the bytes given.
fn open_and_read<O: Opener>(
    opener: &O,
    alloc: Global,
    name: &str,
    most: u64,
    given: &mut u64,
) -> Result<Bytes, FetchFault>
    ensures opens { IfSome (O.opens opener.now name.now)
        (λ opening. FetchesSo opening most result) }
    ensures most { IfOk result (λ bytes. length bytes ≤ most) }
    ensures grows { given.old ≤ given.new }
    ensures given { FetchGiven given.old given.new most result }
{
    match opener.open(name) {
        Ok(mut file) => read_whole(alloc, &mut file, most, given),
        Err(Trouble::Memory) => Err(FetchFault::Memory),
        Err(Trouble::Interrupted | Trouble::Fault) => Err(FetchFault::Failed),
    }
}

#[cfg(test)]
mod tests {
    use super::*;
    use crate::reading::CHUNK;
    use crate::tests::answers;
    use std::test::Fail;

    #[test]
    fn a_name_is_a_path(rt: HostRuntime) -> Result<(), Fail> {
        let alloc = rt.alloc();
        let mut desk = FileDesk::new(&rt);
        // More than one read gives.
        let list = [7; CHUNK + 904];
        fs::write(&rt, "a_list_for_a_test", &list)?;

        let whole = answers(&mut desk, alloc, "a_list_for_a_test", 5000, Ok(&list));
        let cut = answers(
            &mut desk,
            alloc,
            "a_list_for_a_test",
            4999,
            Err(FetchFault::TooLong),
        );
        fs::remove_file(&rt, "a_list_for_a_test")?;
        let gone = answers(
            &mut desk,
            alloc,
            "a_list_for_a_test",
            5000,
            Err(FetchFault::Failed),
        );

        // A directory can be opened, and each read of it is an error.
        let folder = answers(&mut desk, alloc, ".", 5000, Err(FetchFault::Failed));

        assert_eq!(rt; (whole, cut, gone, folder), (true, true, true, true));
        assert_eq!(rt;
            (desk.asks().len(), desk.faults(), desk.given()),
            (4, 2, 10000)
        );
        Ok(())
    }
}
