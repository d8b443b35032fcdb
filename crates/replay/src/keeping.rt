// The image after the run, for OUT. It is written to a new file and flushed to the disk; ./replay gives that file OUT's
// name when the run is complete, so that a run that fails or is interrupted leaves OUT as it was.
//
// The new file has the permissions of any new file, and none is made where the name is taken.
use crate::fault::{Fault, Reason};
use std::fs::{OpenFile, OpenOptions};
use std::io::Write;
use std::rt::Runtime;
use std::{fs, io};

// The file is closed where it is dropped.
fn write_through(mut file: impl Write + OpenFile + Drop, image: &[u8]) -> io::Result<()> {
    file.write_all(image)?;
    file.sync_all()
}

fn write_new(rt: &impl Runtime, name: &str, image: &[u8]) -> io::Result<()> {
    let file = OpenOptions::new()
        .write(true)
        .create_new(true)
        .open(rt, name)?;
    let written = write_through(file, image);
    if written.is_err() {
        let _ = fs::remove_file(rt, name);
    }
    written
}

pub(crate) fn keep_image(rt: &impl Runtime, name: String, image: &[u8]) -> Result<(), Fault> {
    write_new(rt, name.as_str(), image).map_err(|error| Fault::NotKept(name, Reason(error)))
}
