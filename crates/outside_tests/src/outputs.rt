//! Files that are written in place of others, as the system has them.

use outside::{Fault, Shelf};
use outside_os::FileShelf;
use std::io::Read;
use std::os::fd::AsRawFd;
use std::os::unix::fs::{PermissionsExt, symlink};
use std::test::Fail;
use std::{fs, io, process};

fn writes<S: Shelf>(shelf: &mut S, name: &str, bytes: &[u8]) -> bool {
    shelf.write(name, bytes) == Ok(())
}

fn holds(rt: &HostRuntime, name: &str, bytes: &[u8]) -> io::Result<bool> {
    Ok(fs::read(rt, name)?.as_slice() == bytes)
}

/// How many files are in the folder.
fn count(rt: &HostRuntime, folder: &str) -> io::Result<usize> {
    Ok(fs::read_dir(rt, folder)?.count())
}

/// Writes a file that no other may read, and makes a link that leads to it.
fn lay(rt: &HostRuntime, notes: &str, link: &str) -> io::Result<()> {
    fs::write(rt, notes, b"old and long")?;
    fs::set_permissions(rt, notes, fs::Permissions::from_mode(0o640))?;
    symlink(rt, "notes", link)
}

/// Whether the file has its permissions and these bytes, and the link leads to it.
fn stands(rt: &HostRuntime, notes: &str, link: &str, bytes: &[u8]) -> io::Result<bool> {
    let is_link = fs::symlink_metadata(rt, link)?.is_symlink();
    let mode = fs::metadata(rt, notes)?.permissions().mode();
    Ok(is_link && mode & 0o777 == 0o640 && holds(rt, notes, bytes)?)
}

/// Whether a file is replaced through a link, keeps its permissions, and leaves nothing beside.
fn replaces(rt: &HostRuntime, folder: &str, notes: &str) -> Result<bool, Fail> {
    let link = format!(in rt.alloc(); "{folder}/link")?;
    lay(rt, notes, link.as_str())?;
    let is_written = writes(&mut FileShelf::new(rt.clone()?), link.as_str(), b"new");
    Ok(is_written && stands(rt, notes, link.as_str(), b"new")? && count(rt, folder)? == 2)
}

/// Files stand where one is written beside another.
fn crowd(rt: &HostRuntime, folder: &str) -> Result<(), Fail> {
    let id = process::id(rt.process());
    for tried in 0..16 {
        let beside = format!(in rt.alloc(); "{folder}/.unfinished_{id}_{tried}")?;
        fs::write(rt, beside.as_str(), b"left")?;
    }
    Ok(())
}

/// Whether the old bytes stay where no file can be made beside them.
fn keeps_old_bytes(rt: &HostRuntime, folder: &str, notes: &str) -> Result<bool, Fail> {
    crowd(rt, folder)?;
    let refused = FileShelf::new(rt.clone()?).write(notes, b"lost");
    Ok(refused == Err(Fault::Failed) && holds(rt, notes, b"new")?)
}

/// Whether a file is replaced in a folder of its own, and kept where it can't be.
fn is_replaced_or_kept(rt: &HostRuntime, folder: &str) -> Result<bool, Fail> {
    let notes = format!(in rt.alloc(); "{folder}/notes")?;
    Ok(replaces(rt, folder, notes.as_str())? && keeps_old_bytes(rt, folder, notes.as_str())?)
}

#[test]
fn outputs(rt: HostRuntime) -> Result<(), Fail> {
    let id = process::id(rt.process());
    let folder = format!(in rt.alloc(); "/tmp/outside_tests_outputs_{id}")?;
    fs::create_dir(&rt, folder.as_str())?;
    let is_well = is_replaced_or_kept(&rt, folder.as_str())?;
    fs::remove_dir_all(&rt, folder.as_str())?;
    assert!(rt; is_well);
    Ok(())
}

/// Whether a pipe and a device are written as they stand.
fn writes_in_place(rt: &HostRuntime) -> Result<bool, Fail> {
    let (mut reader, writer) = io::pipe(rt)?;
    let name = format!(in rt.alloc(); "/dev/fd/{}", writer.as_raw_fd())?;
    let mut shelf = FileShelf::new(rt.clone()?);
    let is_sent = writes(&mut shelf, name.as_str(), b"sent");
    let mut piece = [0; 4];
    reader.read_exact(&mut piece)?;
    let is_gone = writes(&mut shelf, "/dev/null", b"gone")
        && !fs::metadata(rt, "/dev/null")?.is_file();
    Ok(is_sent && piece == *b"sent" && is_gone)
}

#[test]
fn pipe_and_device(rt: HostRuntime) -> Result<(), Fail> {
    assert!(rt; writes_in_place(&rt)?);
    Ok(())
}
