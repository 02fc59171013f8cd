ghost use Rattle.std.specs.Prelude.{◌≡◌, ◌≤◌, ◌<◌, length, Some, None, Ok, Err, IfOk, OnErr, IsErrOf, IsOk, IfSome, IsSome, false};
ghost use Rattle.std.specs.Io.KnownBytes.{ReadConsumes, WriteAppends};
ghost use Rattle.std.proofs.Common.{rules};
ghost use Rattle.dgn_desk.specs.Desk.{Counts, TakesSome, one_more};

use crate::desk::Desk;
use crate::failing::failed;
use crate::stop::Stop;
use std::fs;
use std::io::{self, Read, Write};
use std::rt::Files;

/// The desk of the machine: the files of the system and standard output.
///
/// A name is a path as std takes it. All that is said goes to standard output, and nothing goes to
/// standard error. Each error of the system is answered as `Failed` and counted, want of memory in the
/// system too; the desk itself takes no memory, so none of its calls answers `Memory`. It tells nothing of what it
/// holds, and is never willing.
#[derive(Drop)]
pub struct HostDesk<R: Files> {
    rt: R,
    reading: Option<R::File>,
    writing: Option<R::File>,
    // What stands in the lower and the upper of the places of standard input and output that are closed.
    lower: Option<R::File>,
    upper: Option<R::File>,
    read_faults: u64,
    write_faults: u64,
}

impl<R: Files + Print + Drop> HostDesk<R> {
    /// A desk over this runtime, with no faults, that has begun no file. Where standard input or output is closed, a file
    /// of no bytes that is opened for reading takes its place, so that none that is begun does: to a closed standard
    /// output nothing can be said.
    pub fn new(rt: R) -> HostDesk<R>
        ensures read_faults { ⟦<HostDesk<R> as Desk>⟧.read_faults result ≡ 0 }
        ensures write_faults { ⟦<HostDesk<R> as Desk>⟧.write_faults result ≡ 0 }
    {
        let lower = nothing(&rt);
        let upper = nothing(&rt);
        HostDesk {
            rt,
            reading: None,
            writing: None,
            lower,
            upper,
            read_faults: 0,
            write_faults: 0,
        }
    }
}

impl<R: Files + Print + Drop> Desk for HostDesk<R> {
    ghost read_faults = { λ d. d.read_faults };

    ghost write_faults = { λ d. d.write_faults };

    ghost content = { λ _. None };

    ghost willing = { λ _. false };

    ghost strict = { false };

    ghost tells = { Prim.search rules };

    fn begin_read(&mut self, name: &str) -> Result<(), Stop>
        ensures cause { Counts self.old.read_faults self.new.read_faults result }
        ensures other { self.new.write_faults ≡ self.old.write_faults }
        ensures memory { ¬ IsErrOf result Stop.Memory }
        ensures begun { IfOk result (λ _. IsSome self.new.reading) }
    {
        let given = fs::open(&self.rt, name);
        begun(given, &mut self.reading, &mut self.read_faults)
    }

    /// Where no file was begun, 0.
    fn read(&mut self, buf: &mut [u8]) -> Result<usize, Stop>
        ensures cause { Counts self.old.read_faults self.new.read_faults result }
        ensures other { self.new.write_faults ≡ self.old.write_faults }
        ensures within { IfOk result (λ count. count ≤ length buf.new) }
        ensures memory { ¬ IsErrOf result Stop.Memory }
        ensures begun { IsSome self.old.reading → IsSome self.new.reading }
        ensures moved { IfSome self.old.reading (λ old. IfSome self.new.reading (λ new. ReadConsumes
            (⟦<R::File as Read>⟧.remaining old) (⟦<R::File as Read>⟧.remaining new) result buf.new)) }
    {
        let Some(file) = &mut self.reading else {
            return Ok(0);
        };
        let given = file.read(buf);
        answered(given, &mut self.read_faults)
    }

    fn begin_write(&mut self, name: &str) -> Result<(), Stop>
        ensures cause { Counts self.old.write_faults self.new.write_faults result }
        ensures other { self.new.read_faults ≡ self.old.read_faults }
        ensures memory { ¬ IsErrOf result Stop.Memory }
        ensures begun { IfOk result (λ _. IsSome self.new.writing) }
    {
        let given = fs::create(&self.rt, name);
        begun(given, &mut self.writing, &mut self.write_faults)
    }

    /// Where no file was begun, `Failed`.
    fn write(&mut self, bytes: &[u8]) -> Result<usize, Stop>
        ensures cause { Counts self.old.write_faults self.new.write_faults result }
        ensures other { self.new.read_faults ≡ self.old.read_faults }
        ensures taken { IfOk result (TakesSome bytes.now) }
        ensures memory { ¬ IsErrOf result Stop.Memory }
        ensures begun { IsSome self.old.writing → IsSome self.new.writing }
        ensures moved { IfSome self.old.writing (λ old. IfSome self.new.writing (λ new. WriteAppends
            (⟦<R::File as Write>⟧.contents old) (⟦<R::File as Write>⟧.contents new) result bytes.now)) }
    {
        let Some(file) = &mut self.writing else {
            return failed(&mut self.write_faults);
        };
        let given = file.write(bytes);
        taken(bytes, given, &mut self.write_faults)
    }

    fn say(&mut self, bytes: &[u8]) -> Result<usize, Stop>
        ensures cause { Counts self.old.write_faults self.new.write_faults result }
        ensures other { self.new.read_faults ≡ self.old.read_faults }
        ensures taken { IfOk result (TakesSome bytes.now) }
        ensures memory { ¬ IsErrOf result Stop.Memory }
    {
        let given = self.rt.write_some(bytes);
        taken(bytes, given, &mut self.write_faults)
    }
}

// Takes the file that the system gave in the place of another, where each error is `Failed`, and is counted.
fn begun<F: Drop>(given: io::Result<F>, file: &mut Option<F>, faults: &mut u64) -> Result<(), Stop>
    ensures taken { IfOk given (λ f. file.new ≡ Some f) }
    ensures kept { OnErr given (file.new ≡ file.old) }
    ensures given { IfOk given (λ _. IsOk result) }
    ensures cause { Counts faults.old faults.new result }
    ensures failed { OnErr given (result ≡ Err Stop.Failed) }
    ensures counted { OnErr given (faults.new ≡ one_more faults.old) }
    ensures memory { ¬ IsErrOf result Stop.Memory }
{
    let Ok(one) = given else {
        return failed(faults);
    };
    *file = Some(one);
    Ok(())
}

// What the system gave, where each error is `Failed`, and is counted.
fn answered(given: io::Result<usize>, faults: &mut u64) -> Result<usize, Stop>
    ensures given { IfOk given (λ count. result ≡ Ok count) }
    ensures cause { Counts faults.old faults.new result }
    ensures failed { OnErr given (result ≡ Err Stop.Failed) }
    ensures counted { OnErr given (faults.new ≡ one_more faults.old) }
{
    match given {
        Ok(count) => Ok(count),
        Err(_) => failed(faults),
    }
}

// The same of how many of these bytes it took. None of some is an error too.
fn taken(bytes: &[u8], given: io::Result<usize>, faults: &mut u64) -> Result<usize, Stop>
    requires { IfOk given (λ count. count ≤ length bytes.now) }
    ensures cause { Counts faults.old faults.new result }
    ensures taken { IfOk result (TakesSome bytes.now) }
    ensures as_given { IfOk given (λ count. 0 < count → result ≡ Ok count) }
    ensures only { IfOk given (λ count. IfOk result (λ n. n ≡ count)) }
    ensures failed { OnErr given (result ≡ Err Stop.Failed) }
    ensures counted { OnErr given (faults.new ≡ one_more faults.old) }
    ensures memory { ¬ IsErrOf result Stop.Memory }
{
    match answered(given, faults) {
        Ok(0) if !bytes.is_empty() => failed(faults),
        answer => answer,
    }
}

// The file of no bytes, opened for reading, where there is one.
fn nothing<R: Files>(rt: &R) -> Option<R::File> {
    fs::open(rt, "/dev/null").ok()
}
