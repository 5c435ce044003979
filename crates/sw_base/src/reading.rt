//! Reads a whole file of a folder.
ghost use Rattle.std.specs.Prelude.{◌≡◌, Some, None, IfOk, IsErrOf, MatchOption};
ghost use Rattle.sw_base.specs.Environment.{WhereTold};
ghost use Rattle.sw_base.specs.OnlyReads.{OnlyReads};

use crate::environment::Folder;
use crate::trouble::Trouble;
use std::alloc::Global;

/// How many bytes are asked for at once.
const WINDOW: usize = 4096;

/// The bytes of the named file. `None` where there is none.
pub fn read_file<F: Folder>(
    alloc: Global,
    folder: &mut F,
    name: &str,
) -> Result<Option<Vec<u8>>, Trouble>
    ensures read { IfOk result (λ file. WhereTold (F.state folder.old).content (λ c.
        MatchOption file (c.held name.now ≡ None) (λ bytes. c.held name.now ≡ Some bytes.items))) }

    ensures reads { OnlyReads F.Folder folder.old folder.new (IsErrOf result Trouble.Failed) }
{
    let Some(size) = folder.size(alloc, name)? else {
        return Ok(None);
    };
    let mut bytes = Vec::new(alloc);
    let mut window = [0; WINDOW];
    'windows: while (bytes.len() as u64) < size {
        let count = folder.read(alloc, name, bytes.len() as u64, &mut window)?;
        if count == 0 {
            break;
        }
        bytes.extend_from_slice(&window[..count])?;
    }
    Ok(Some(bytes))
}
