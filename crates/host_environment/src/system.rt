//! Calls of the system, and what their errors are here.
ghost use Rattle.std.specs.Prelude.{◌≡◌, ◌≤◌, ◌↔◌, IsOk, IsErrOf};
ghost use Rattle.sw_base.specs.Environment.{Rose, HasCause};
ghost use Rattle.sw_base.specs.declared.trouble.Trouble.TheVariants as trouble;

use std::fs::{self, File, OpenOptions};
use std::io::{self, Error, ErrorKind, Seek, SeekFrom, Write};
use std::path::Path;
use std::rt::Files;
use sw_base::Trouble;

/// What an error of the system is here: each raises the count, but want of memory.
pub(crate) fn trouble(error: Error, faults: &mut u64) -> Trouble
    ensures later { faults.old ≤ faults.new }
    ensures rose { result ≡ trouble.Failed → Rose faults.old faults.new }
    ensures memory { result ≡ trouble.Memory → faults.new ≡ faults.old }
{
    if error.kind() == ErrorKind::OutOfMemory {
        return Trouble::Memory;
    }
    *faults = faults.saturating_add(1);
    Trouble::Failed
}

/// What a call of the system came to. An error is a fault that is counted, or want of memory; where there is none, none is counted.
pub(crate) fn counted(outcome: io::Result<()>, faults: &mut u64) -> Result<(), Trouble>
    ensures ok { IsOk result ↔ IsOk outcome }
    ensures none { IsOk outcome → faults.new ≡ faults.old }
    ensures cause { HasCause faults.old faults.new result }
    ensures memory { IsErrOf result trouble.Memory → faults.new ≡ faults.old }
{
    match outcome {
        Ok(()) => Ok(()),
        Err(error) => Err(trouble(error, faults)),
    }
}

pub(crate) fn is_missing(error: &Error) -> bool {
    error.kind() == ErrorKind::NotFound || error.kind() == ErrorKind::NotADirectory
}

/// Writes the whole piece and flushes, with as many calls as that takes. Once something was written, want of memory is an error as others are.
///
/// # Errors
///
/// Those of the writer, and `WriteZero` where it takes no more bytes.
pub fn write_whole<W: Write>(to: &mut W, piece: &[u8]) -> io::Result<()> {
    let mut rest = piece;
    while !rest.is_empty() {
        match to.write(rest) {
            Ok(0) => return Err(Error::from(ErrorKind::WriteZero)),
            Ok(count) => rest = &rest[count..],
            Err(_) if rest.len() < piece.len() => return Err(Error::from(ErrorKind::Other)),
            Err(error) => return Err(error),
        }
    }
    match to.flush() {
        Ok(()) => Ok(()),
        Err(_) if !piece.is_empty() => Err(Error::from(ErrorKind::Other)),
        Err(error) => Err(error),
    }
}

/// Makes the file hold these bytes, and the folder of its name if there is none.
pub(crate) fn put_whole<R: Files>(rt: &R, name: &str, bytes: &[u8]) -> io::Result<()> {
    if let Some(dir) = Path::new(name).parent() {
        fs::create_dir_all(rt, dir)?;
    }
    let mut file = File::create(rt, name)?;
    write_whole(&mut file, bytes)
}

// Another end of a file than the one that its log left.
fn check_end(end: u64, due: u64) -> io::Result<()> {
    if end == due {
        Ok(())
    } else {
        Err(Error::from(ErrorKind::Other))
    }
}

/// Adds the piece to a file that ends here. It is an error if the file ends elsewhere, or is gone: then someone else changed it.
pub(crate) fn append_at<R: Files>(rt: &R, name: &str, end: u64, piece: &[u8]) -> io::Result<()> {
    let mut file = OpenOptions::new().append(true).open(rt, name)?;
    check_end(file.seek(SeekFrom::End(0))?, end)?;
    write_whole(&mut file, piece)
}

/// It is an error if the file doesn't end here.
pub(crate) fn find_end<R: Files>(rt: &R, name: &str, end: u64) -> io::Result<()> {
    check_end(size_of(rt, name)?, end)
}

/// How many bytes a regular file has. It is an error if something else has this name: what can be read of that no size tells.
pub(crate) fn size_of<R: Files>(rt: &R, name: &str) -> io::Result<u64> {
    let about = fs::metadata(rt, name)?;
    if about.is_file() {
        Ok(about.len())
    } else {
        Err(Error::from(ErrorKind::Other))
    }
}

/// Opens a file to be read, and tells how many bytes it has. One that is no regular file is an error and isn't opened: it may have no end, or wait
/// for who writes into it.
pub(crate) fn open_regular<R: Files>(rt: &R, name: &str) -> io::Result<(R::File, u64)> {
    let size = size_of(rt, name)?;
    Ok((File::open(rt, name)?, size))
}

/// Makes the file, or empties it.
pub(crate) fn make_empty<R: Files>(rt: &R, name: &str) -> io::Result<()> {
    File::create(rt, name)?;
    Ok(())
}
