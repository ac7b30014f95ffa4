//! Writes generated files.

use std::rt::Files;
use std::{fs, io};

/// A file that is generated.
#[derive(Drop)]
pub struct File {
    /// Its path, from the working directory on.
    pub path: String,
    /// Its text.
    pub text: String,
}

// Writes a file, and makes its folder.
fn write_file<R: Files>(rt: &R, file: &File) -> io::Result<()> {
    let path = file.path.as_str();
    if let Some((folder, _)) = path.rsplit_once('/') {
        fs::create_dir_all(rt, folder)?;
    }
    fs::write(rt, path, file.text.as_str())
}

/// Writes files.
pub fn write_files<R: Files>(rt: &R, files: &[File]) -> io::Result<()> {
    for file in files {
        write_file(rt, file)?;
    }
    Ok(())
}
