use crate::course::course_setup;
use crate::options::Options;
use crate::trouble::Trouble;
use std::io::Read;
use std::{fs, io};

/// The bytes that were read, or which file it was that could not be.
fn told(what: &'static str, name: &String, read: io::Result<Vec<u8>>) -> Result<Vec<u8>, Trouble> {
    match read {
        Ok(bytes) => Ok(bytes),
        Err(error) => Err(Trouble::Unread {
            what,
            name: name.clone()?,
            error,
        }),
    }
}

fn read_stdin(rt: &HostRuntime) -> io::Result<Vec<u8>> {
    let mut bytes = Vec::new(rt.alloc());
    rt.stdin().read_to_end(&mut bytes)?;
    Ok(bytes)
}

/// The setup records: those of the file named, or the course's.
pub fn read_setup(rt: &HostRuntime, options: &Options) -> Result<Vec<u8>, Trouble> {
    match &options.settings.setup {
        Some(name) => told("setup file", name, fs::read(rt, name.as_str())),
        None => Ok(course_setup(rt.alloc())?),
    }
}

/// The answer file, or standard input.
pub fn read_answers(rt: &HostRuntime, options: &Options) -> Result<Vec<u8>, Trouble> {
    let name = &options.answers;
    if name.as_str() == "-" {
        return told("answer file", name, read_stdin(rt));
    }
    told("answer file", name, fs::read(rt, name.as_str()))
}
