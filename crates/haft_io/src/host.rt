//! The real devices: files that are named on the command line, and standard output. What the system
//! gives and takes is trusted, so these tell no bytes.
ghost use Rattle.std.specs.Prelude.{◌≡◌, ◌≤◌, length, IfOk, IfSome, OnErr};
ghost use Rattle.std.specs.Option.{option_copied};
ghost use Rattle.haft_io.specs.Device.{Rose};

use crate::{Failed, Inputs, Sink, Which};
use std::fs;
use std::io::{Print, Read};
use std::marker::Model;
use std::rt::Files;

// One file, opened at its first read.
#[derive(Drop)]
struct Named<'a, F> {
    name: Option<&'a str>,
    file: Option<F>,
    faults: u64,
}

impl<'a, F: Read + Drop> Named<'a, F> {
    fn new(name: Option<&'a str>) -> Named<'a, F>
        ensures name { option_copied result.name ≡ option_copied name.entry }
        ensures faults { result.faults ≡ 0 }
    {
        Named {
            name,
            file: None,
            faults: 0,
        }
    }

    fn read<R: Files<File = F>>(&mut self, rt: &R, buf: &mut [u8]) -> Result<usize, Failed>
        ensures within { IfOk result (λ n. n ≤ length buf.old) }
        ensures failed { OnErr result (Rose self.old.faults self.new.faults) }
        ensures never_falls { self.old.faults ≤ self.new.faults }
    {
        match self.open_and_read(rt, buf) {
            Some(count) => Ok(count),
            None => {
                self.faults = self.faults.saturating_add(1);
                Err(Failed)
            }
        }
    }

    fn open_and_read<R: Files<File = F>>(&mut self, rt: &R, buf: &mut [u8]) -> Option<usize>
        ensures within { IfSome result (λ n. n ≤ length buf.old) }
        ensures faults { self.new.faults ≡ self.old.faults }
    {
        if self.file.is_none() {
            self.file = Some(fs::open(rt, self.name?).ok()?);
        }
        self.file.as_mut()?.read(buf).ok()
    }
}

/// Two files of the file system. Each is opened at its first read. A file that has no name or can't
/// be opened is a failed read.
#[derive(Drop)]
pub struct FileInputs<'a, R: Files> {
    rt: &'a R,
    first: Named<'a, R::File>,
    second: Named<'a, R::File>,
}

impl<'a, R: Files> Model for FileInputs<'a, R> {
    ghost use Rattle.std.specs.Option.{option_copied};
    ghost use Rattle.haft_io.specs.Host.{NamedFiles};

    ghost Value = { NamedFiles };

    ghost view = { λ f. record {
      first = option_copied f.first.name;
      second = option_copied f.second.name;
      first_faults = f.first.faults;
      second_faults = f.second.faults;
    } };
}

impl<'a, R: Files> FileInputs<'a, R> {
    /// The files with these names, where they have one.
    pub fn new(rt: &'a R, first: Option<&'a str>, second: Option<&'a str>) -> FileInputs<'a, R>
        ensures { result ≡ record {
          first = option_copied first.entry;
          second = option_copied second.entry;
          first_faults = 0;
          second_faults = 0;
        } }
    {
        FileInputs {
            rt,
            first: Named::new(first),
            second: Named::new(second),
        }
    }
}

impl<'a, R: Files> Inputs for FileInputs<'a, R> {
    ghost use Rattle.std.specs.Prelude.{None};
    ghost use Rattle.haft_io.specs.Device.{of_file};

    ghost left = { λ _ _. None };

    ghost faults = { λ inputs. of_file inputs.first_faults inputs.second_faults };

    fn read(&mut self, which: Which, buf: &mut [u8]) -> Result<usize, Failed> {
        match which {
            Which::First => self.first.read(self.rt, buf),
            Which::Second => self.second.read(self.rt, buf),
        }
    }
}

/// Standard output. Nothing is kept back, so an output that fails is noticed at the write.
#[derive(Drop)]
pub struct StdSink<'a, R: Print> {
    rt: &'a R,
    faults: u64,
}

impl<'a, R: Print> Model for StdSink<'a, R> {
    ghost use Rattle.std.specs.Prelude.{ℕ};

    ghost Value = { ℕ };

    ghost view = { λ sink. sink.faults };
}

impl<'a, R: Print> StdSink<'a, R> {
    /// The standard output of this runtime. Contracts see it as the count of its faults.
    pub fn new(rt: &'a R) -> StdSink<'a, R>
        ensures { result ≡ 0 }
    {
        StdSink { rt, faults: 0 }
    }
}

impl<'a, R: Print> Sink for StdSink<'a, R> {
    ghost use Rattle.std.specs.Prelude.{None};

    ghost written = { λ _. None };

    ghost faults = { λ sink. sink };

    fn write(&mut self, bytes: &[u8]) -> Result<usize, Failed> {
        match self.rt.write_some(bytes) {
            Ok(count) if count > 0 => Ok(count),
            _ => {
                self.faults = self.faults.saturating_add(1);
                Err(Failed)
            }
        }
    }
}
