//! A bench over real files. It tells names, accesses and sizes, and no bytes.
ghost use Rattle.std.specs.Prelude.{◌≡◌, ◌+◌, ◌≤◌, length as length_of, OnOk, IfOk, is_ok};
ghost use Rattle.udf_outside.specs.Causes.{HasCause};
ghost use Rattle.udf_outside.specs.Files.{file_of, Attaches, Resizes};
ghost use Rattle.udf_outside.specs.OverFiles.{nothing_attached};

use crate::real_file::RealFile;
use crate::{Access, Bench, Failed, Role};
use std::fs;
use std::fs::Files;
use std::marker::Model;

/// A bench over real files. The length of a file is the one that was found at attaching, moved by the bench's own writes.
/// Each file is locked while it is attached, so that no two runs change one image, and one file under two names is not
/// attached twice.
#[derive(Drop)]
pub struct FileBench<R: Files<File = fs::File> + Alloc + Drop> {
    runtime: R,
    image: RealFile,
    side: RealFile,
    faults: u64,
}

impl<R: Files<File = fs::File> + Alloc + Drop> Model for FileBench<R> {
    ghost use Rattle.udf_outside.specs.OverFiles.{Attached};

    ghost Value = { Attached };

    ghost view = { λ bench. record {
      files = record { image = bench.image; side = bench.side };
      faults = bench.faults;
    } };
}

impl<R: Files<File = fs::File> + Alloc + Drop> FileBench<R> {
    /// A bench that was asked for no file.
    pub fn new(runtime: R) -> FileBench<R>
        ensures { result ≡ nothing_attached }
    {
        FileBench {
            runtime,
            image: RealFile::unasked(),
            side: RealFile::unasked(),
            faults: 0,
        }
    }

    /// Counts a call that failed.
    fn counted(&mut self, answer: Result<(), Failed>) -> Result<(), Failed>
        ensures files { self.new.files ≡ self.old.files }
        ensures answer { result ≡ answer }
        ensures cause { HasCause self.old.faults self.new.faults result }
        ensures calm { OnOk result (self.new.faults ≡ self.old.faults) }
    {
        if answer.is_err() {
            self.faults = self.faults.saturating_add(1);
        }
        answer
    }
}

impl<R: Files<File = fs::File> + Alloc + Drop> Bench for FileBench<R> {
    ghost use Rattle.udf_outside.specs.Held.{nothing_held};

    ghost tells = { ⊥ };

    ghost files = { λ bench. bench.files };

    ghost held = { λ bench. nothing_held };

    ghost faults = { λ bench. bench.faults };

    ghost sizes = { λ bench role told attached. absurd told };

    fn known(&self) {}

    fn attach(&mut self, role: Role, name: &str, access: Access) -> Result<(), Failed> {
        let file = RealFile::attached(&self.runtime, name, access);
        let answer = file.answer();
        match role {
            Role::Image => self.image = file,
            Role::Side => self.side = file,
        }
        self.counted(answer)
    }

    fn length(&mut self, role: Role) -> Result<u64, Failed> {
        match role {
            Role::Image => Ok(self.image.len()),
            Role::Side => Ok(self.side.len()),
        }
    }

    fn read_at(&mut self, role: Role, at: u64, into: &mut [u8]) -> Result<(), Failed> {
        let answer = match role {
            Role::Image => self.image.read(at, into),
            Role::Side => self.side.read(at, into),
        };
        self.counted(answer)
    }

    fn write_at(&mut self, role: Role, at: u64, from: &[u8]) -> Result<(), Failed> {
        let answer = match role {
            Role::Image => self.image.write(at, from),
            Role::Side => self.side.write(at, from),
        };
        self.counted(answer)
    }

    fn sync(&mut self, role: Role) -> Result<(), Failed> {
        let answer = match role {
            Role::Image => self.image.sync(),
            Role::Side => self.side.sync(),
        };
        self.counted(answer)
    }
}
