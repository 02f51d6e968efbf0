//! A file as a disk.

ghost use Rattle.std.specs.Prelude.{◌≤◌};
ghost use Rattle.fam_base.specs.Causes.{Rose};

use crate::disk::Disk;
use fam_base::Failed;
use std::fs::{File, Files, OpenOptions};
use std::io;
use std::os::unix::fs::FileExt;

/// A file. It tells neither what it reads nor what a crash may leave.
#[derive(Drop)]
pub struct FileDisk {
    file: File,
    faults: u64,
}

impl FileDisk {
    /// The file with this name, made empty where there is none.
    pub fn open<R: Files<File = File>>(files: &R, path: &str) -> io::Result<FileDisk> {
        let file = OpenOptions::new()
            .read(true)
            .write(true)
            .create(true)
            .open(files, path)?;
        Ok(FileDisk { file, faults: 0 })
    }

    /// Counts one more fault.
    fn fault(&mut self) -> Failed
        ensures rose { Rose self.old.faults self.new.faults }
        ensures later { self.old.faults ≤ self.new.faults }
    {
        self.faults = self.faults.saturating_add(1);
        Failed
    }
}

impl Disk for FileDisk {
    ghost use Rattle.fam_disk.specs.File.{file_state, tells_no_image, reads_no_content};

    ghost state = { file_state };

    ghost tells_content = { tells_no_image };

    ghost reads_image = { reads_no_content };

    fn len(&mut self) -> Result<u64, Failed> {
        match self.file.metadata() {
            Ok(metadata) => Ok(metadata.len()),
            Err(_) => Err(self.fault()),
        }
    }

    fn read(&mut self, at: u64, into: &mut [u8]) -> Result<(), Failed> {
        match self.file.read_exact_at(into, at) {
            Ok(()) => Ok(()),
            Err(_) => Err(self.fault()),
        }
    }

    fn write_at(&mut self, at: u64, from: &[u8]) -> Result<(), Failed> {
        match self.file.write_all_at(from, at) {
            Ok(()) => Ok(()),
            Err(_) => Err(self.fault()),
        }
    }

    fn sync(&mut self) -> Result<(), Failed> {
        match self.file.sync_all() {
            Ok(()) => Ok(()),
            Err(_) => Err(self.fault()),
        }
    }

    fn disk_faults(&self) -> u64 {
        self.faults
    }
}
