//! The calls on a file: a new one is opened, and blocks of bytes are read and written at their
//! offsets.
ghost use Rattle.std.specs.Prelude.{◌≡◌, ◌<◌, ◌≤◌, true, Some, is_some, length, take};
ghost use Rattle.std.specs.Prelude.{OnOk, IfOk, IfSome};
ghost use Rattle.std.specs.Io.KnownBytes.{Consumes, IsAtEnd};
ghost use Rattle.em_file.specs.Padded.{padded};

use std::fs::{self, Files, OpenFile, OpenOptions, Permissions};
use std::io::{self, ErrorKind, Read, Seek, SeekFrom, Write};
use std::os::unix::fs::{MetadataExt, OpenOptionsExt, PermissionsExt};

/// The permissions of the file: its owner may read and write it.
const MODE: u32 = 0o600;

/// How often a new file is tried. Each time another run may take the name at the same moment.
const TRIES: u32 = 100;

/// Makes a file at `path` with no bytes in it and the permissions `MODE`. The name is taken from a file
/// that stands there; another run that has that file open keeps it.
///
/// A symbolic link at `path` isn't followed. It is refused, as are all else that isn't a regular
/// file, a file with a second name, and one whose permissions this user may not set.
pub(crate) fn open_empty<R: Files>(rt: &R, path: &str) -> io::Result<R::File> {
    for _ in 0..TRIES {
        match open_new(rt, path) {
            Ok(file) => return keep_made(rt, path, &file),
            Err(error) if error.kind() == ErrorKind::AlreadyExists => free_name(rt, path)?,
            Err(error) => return Err(error),
        }
    }
    Err(ErrorKind::AlreadyExists.into())
}

/// Makes the file at `path`. Nothing may stand there.
fn open_new<R: Files>(rt: &R, path: &str) -> io::Result<R::File> {
    OpenOptions::new()
        .read(true)
        .write(true)
        .create_new(true)
        .mode(MODE)
        .open(rt, path)
}

/// The copy of a file that was just made. If it can't be had, the file is removed.
fn keep_made<R: Files>(rt: &R, path: &str, made: &R::File) -> io::Result<R::File> {
    let copy = apart_from_streams(made);
    if copy.is_err() {
        let _gone = fs::remove_file(rt, path);
    }
    copy
}

/// The same open file under another descriptor, which is above 2. A program that was started with a
/// standard stream closed gets that stream's descriptor for the first file that it opens, and what
/// is meant for the stream must not land in the file.
fn apart_from_streams<F: OpenFile>(file: &F) -> io::Result<F> {
    file.try_clone()
}

/// Takes the name from the regular file that stands at `path`, if that is still there. A file that is
/// refused keeps its name and its bytes.
fn free_name<R: Files>(rt: &R, path: &str) -> io::Result<()> {
    let Some(named) = if_there(fs::symlink_metadata(rt, path))? else {
        return Ok(());
    };
    if !named.is_file() {
        return Err(ErrorKind::Unsupported.into());
    }
    let Some(first) = if_there(OpenOptions::new().read(true).write(true).open(rt, path))? else {
        return Ok(());
    };
    let file = apart_from_streams(&first)?;
    let opened = file.metadata()?;
    // Between the two calls another run may have taken the name, or given it to another file.
    if opened.nlink() == 0 || opened.dev() != named.dev() || opened.ino() != named.ino() {
        return Ok(());
    }
    // A file with a second name may be another program's.
    if opened.nlink() != 1 {
        return Err(ErrorKind::Unsupported.into());
    }
    // Only the file's owner may do this, so that another user's file is refused.
    file.set_permissions(Permissions::from_mode(MODE))?;
    if_there(fs::remove_file(rt, path))?;
    Ok(())
}

/// What a call on a name gave, or none if nothing has the name.
fn if_there<T>(given: io::Result<T>) -> io::Result<Option<T>> {
    match given {
        Ok(it) => Ok(Some(it)),
        Err(error) if error.kind() == ErrorKind::NotFound => Ok(None),
        Err(error) => Err(error),
    }
}

/// Writes these bytes to the open file, from byte `offset` on.
pub(crate) fn write_at<F: Write + Seek>(
    file: &mut Option<F>,
    offset: u64,
    from: &[u8],
) -> io::Result<()>
    requires { is_some file.old ≡ true }
    ensures { is_some file.new ≡ true }
{
    let Some(file) = file else { unreachable!() };
    seek_to(file, offset)?;
    file.write_all(from)
}

/// Fills `into` with the bytes of the open file from byte `offset` on. Past the file's end they are
/// zeros.
pub(crate) fn read_at<F: Read + Seek>(
    file: &mut Option<F>,
    offset: u64,
    into: &mut [u8],
) -> io::Result<()>
    requires { is_some file.old ≡ true }
    ensures { is_some file.new ≡ true }
{
    let Some(file) = file else { unreachable!() };
    seek_to(file, offset)?;
    read_padded(file, into)
}

/// Moves to byte `offset` of a file.
fn seek_to<F: Seek>(file: &mut F, offset: u64) -> io::Result<()>
    ensures { OnOk result (IfSome (F.stream_position file.old)
        (λ _. F.stream_position file.new ≡ Some offset)) }
{
    file.seek(SeekFrom::Start(offset))?;
    Ok(())
}

/// Fills `into` with the bytes that a reader gives, and with zeros past their end.
fn read_padded<F: Read>(file: &mut F, into: &mut [u8]) -> io::Result<()>
    ensures { OnOk result (IfSome (F.remaining file.old)
        (λ xs. into.new ≡ padded (length into.old) xs)) }
{
    let count = read_front(file, into)?;
    into[count..].fill(0);
    Ok(())
}

/// Reads until `into` is full or the reader has ended, and answers the number of bytes. A call that
/// was interrupted is repeated.
fn read_front<F: Read>(file: &mut F, into: &mut [u8]) -> io::Result<usize>
    ensures within { IfOk result (λ n. n ≤ length into.new) }
    ensures read { IfOk result (λ n.
        Consumes (F.remaining file.old) (F.remaining file.new) (take n into.new)) }
    ensures end { IfOk result (λ n. n < length into.new → IsAtEnd (F.remaining file.new)) }
{
    let mut filled = 0;
    // As std does, it gives up after 2^64 calls, so that it ends over every reader.
    for _ in 0..u64::MAX {
        if filled == into.len() {
            return Ok(filled);
        }
        match file.read(&mut into[filled..]) {
            Ok(0) => return Ok(filled),
            Ok(count) => filled += count,
            Err(error) if error.kind() == ErrorKind::Interrupted => {}
            Err(error) => return Err(error),
        }
    }
    Err(ErrorKind::TimedOut.into())
}
