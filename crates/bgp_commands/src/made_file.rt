//! A file that is made at its first write.

ghost use Rattle.std.specs.Prelude.{◌≡◌, None};

use std::io::Write;
use std::rt::Files;
use std::{fs, io};

/// A file that is made, or emptied, at its first write: where nothing is written it stays as it
/// was.
#[derive(Drop)]
pub struct MadeFile<'r, 'n, R: Files> {
    rt: &'r R,
    name: &'n str,
    file: Option<R::File>,
}

impl<'r, 'n, R: Files> MadeFile<'r, 'n, R> {
    /// The file of this name, which isn't made yet.
    pub fn new(rt: &'r R, name: &'n str) -> MadeFile<'r, 'n, R>
        ensures { result.file ≡ None }
    {
        MadeFile {
            rt,
            name,
            file: None,
        }
    }
}

impl<R: Files> Write for MadeFile<'_, '_, R> {
    fn write(&mut self, octets: &[u8]) -> io::Result<usize> {
        if let Some(file) = &mut self.file {
            return file.write(octets);
        }
        let mut file = fs::create(self.rt, self.name)?;
        let written = file.write(octets);
        self.file = Some(file);
        written
    }

    fn flush(&mut self) -> io::Result<()> {
        match &mut self.file {
            Some(file) => file.flush(),
            None => Ok(()),
        }
    }
}
