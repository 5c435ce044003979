//! Reads a file of a folder from its start on, a window at a time.
ghost use Rattle.std.specs.Prelude.{◌≡◌, ◌+◌, ◌-◌, ◌^◌, ◌<◌, ◌≤◌, ◌≢◌, ◌++◌, length, take, drop, IsTrue, IsFalse, IfOk, OnOk, IsErrOf};
ghost use Rattle.sw_base.specs.Environment.{WhereTold};
ghost use Rattle.sw_base.specs.OnlyReads.{OnlyReads};
ghost use Rattle.sw_base.specs.Window.{at_start, skipped, file_of, Shows, ShowsNext};

use crate::environment::Folder;
use crate::trouble::{Memory, Trouble};
use std::alloc::Global;
use std::marker::Model;

/// What was read of a file and not yet passed. Contracts see where in the file the next byte stands, and the bytes from there that
/// were read ahead.
#[derive(Drop)]
pub struct Window {
    /// Where in the file the next byte stands.
    place: u64,
    /// Room for what is read. The bytes ahead are those from here to there.
    bytes: Vec<u8>,
    from: usize,
    to: usize,
}

impl Model for Window {
    ghost use Rattle.std.specs.Prelude.{◌^◌, ◌<◌, ◌≤◌, length, take, drop};
    ghost use Rattle.sw_base.specs.Window.{Window as Ahead};

    ghost Value = { Ahead };

    ghost view = { λ w. record { place = w.place; ahead = drop w.from (take w.to w.bytes.items) } };

    ghost invariant = { λ w. (w.place < 2 ^ 63) × (w.from ≤ w.to) × (w.to ≤ length w.bytes.items) };
}

/// Moves these bytes to the front.
fn move_front(bytes: &mut Vec<u8>, from: usize, to: usize)
    requires from { from ≤ to }
    requires to { to ≤ length bytes.old.items }
    ensures length { length bytes.new.items ≡ length bytes.old.items }
    ensures front { take (to - from) bytes.new.items ≡ drop from (take to bytes.old.items) }
{
    bytes.copy_within(from..to, 0);
}

/// Makes room for so many bytes. The first stay.
fn make_room(bytes: &mut Vec<u8>, to: usize, count: usize) -> Result<(), Memory>
    requires { to ≤ length bytes.old.items }
    ensures same { take to bytes.new.items ≡ take to bytes.old.items }
    ensures longer { length bytes.old.items ≤ length bytes.new.items }
    ensures room { OnOk result (count ≤ length bytes.new.items) }
{
    if bytes.len() < count {
        bytes.resize(count, 0)?;
    }
    Ok(())
}

/// Reads on into the free end until so many bytes are there, or the file ends. There are so many before and after.
fn read_on<F: Folder>(
    alloc: Global,
    folder: &mut F,
    name: &str,
    place: u64,
    bytes: &mut [u8],
    to: &mut usize,
    count: usize,
) -> Result<(), Trouble>
    requires place { place < 2 ^ 63 }
    requires to { to.old ≤ length bytes.old }
    requires room { count ≤ length bytes.old }
    ensures length { length bytes.new ≡ length bytes.old }
    ensures within { to.new ≤ length bytes.old }
    ensures shows { WhereTold (F.state folder.old).content (λ c. Shows (record { place = place; ahead = take to.old bytes.old }) (file_of c name.now)
        → Shows (record { place = place; ahead = take to.new bytes.new }) (file_of c name.now)) }
    ensures next { OnOk result (WhereTold (F.state folder.old).content (λ c. Shows (record { place = place; ahead = take to.old bytes.old }) (file_of c name.now)
        → ShowsNext count (record { place = place; ahead = take to.new bytes.new }) (file_of c name.now))) }

    ensures reads { OnlyReads F.Folder folder.old folder.new (IsErrOf result Trouble.Failed) }
{
    'reads: while *to < count {
        let more = folder.read(alloc, name, place + *to as u64, &mut bytes[*to..])?;
        if more == 0 {
            return Ok(());
        }
        *to += more;
    }
    Ok(())
}

impl Window {
    /// A window for files, with room for so many bytes.
    pub fn new(alloc: Global, size: usize) -> Result<Window, Memory>
        ensures { IfOk result (λ window. window ≡ at_start) }
    {
        Ok(Window {
            place: 0,
            bytes: vec![in alloc; 0; size]?,
            from: 0,
            to: 0,
        })
    }

    /// Goes to the start of a file.
    pub fn restart(&mut self)
        ensures { self.new ≡ at_start }
    {
        self.place = 0;
        self.from = 0;
        self.to = 0;
    }

    /// Reads on in the named file until so many bytes are ahead, or the file ends.
    pub fn fill<F: Folder>(
        &mut self,
        alloc: Global,
        folder: &mut F,
        name: &str,
        count: usize,
    ) -> Result<(), Trouble>
        ensures place { self.new.place ≡ self.old.place }
        ensures shows { WhereTold (F.state folder.old).content (λ c. Shows self.old (file_of c name.now) → Shows self.new (file_of c name.now)) }
        ensures next { OnOk result (WhereTold (F.state folder.old).content (λ c. Shows self.old (file_of c name.now) → ShowsNext count self.new (file_of c name.now))) }

        ensures reads { OnlyReads F.Folder folder.old folder.new (IsErrOf result Trouble.Failed) }
    {
        let ahead = self.to - self.from;
        if ahead >= count {
            return Ok(());
        }
        move_front(&mut self.bytes, self.from, self.to);
        self.from = 0;
        self.to = ahead;
        make_room(&mut self.bytes, ahead, count)?;
        read_on(
            alloc,
            folder,
            name,
            self.place,
            &mut self.bytes,
            &mut self.to,
            count,
        )?;
        Ok(())
    }

    /// The bytes that are ahead.
    pub fn ahead(&self) -> &[u8]
        ensures { result.now ≡ self.now.ahead }
    {
        &self.bytes[self.from..self.to]
    }

    /// Passes so many of the bytes ahead.
    pub fn skip(&mut self, count: usize)
        requires there { count ≤ length self.old.ahead }
        requires place { self.old.place + count < 2 ^ 63 }
        ensures { self.new ≡ skipped count self.old }
    {
        self.place += count as u64;
        self.from += count;
    }

    /// Passes the first eight bytes of the named file, where they are these. Else false.
    pub fn pass_header<F: Folder>(
        &mut self,
        alloc: Global,
        folder: &mut F,
        name: &str,
        header: &[u8; 8],
    ) -> Result<bool, Trouble>
        requires { self.old ≡ at_start }
        ensures place { IfOk result (λ passed. IsTrue passed → self.new.place ≡ 8) }
        ensures passed { IfOk result (λ passed. IsTrue passed → WhereTold (F.state folder.old).content (λ c.
            Shows self.new (file_of c name.now) × (file_of c name.now ≡ header.now ++ drop 8 (file_of c name.now)))) }
        ensures other { IfOk result (λ passed. IsFalse passed → WhereTold (F.state folder.old).content (λ c. take 8 (file_of c name.now) ≢ header.now)) }

        ensures reads { OnlyReads F.Folder folder.old folder.new (IsErrOf result Trouble.Failed) }
    {
        self.fill(alloc, folder, name, 8)?;
        if !self.ahead().starts_with(header) {
            return Ok(false);
        }
        self.skip(8);
        Ok(true)
    }
}
