//! The bytes of an opened log that were read ahead.
ghost use Rattle.std.specs.Prelude.{◌≡◌, ◌≢◌, ◌+◌, ◌-◌, ◌<◌, ◌≤◌, ◌++◌, [], length, take, drop, IsTrue, IsFalse, IfOk, OnOk, IsErrOf};
ghost use Rattle.std.specs.Option.{option_map};
ghost use Rattle.sw_base.specs.Environment.{WhereTold};
ghost use Rattle.log_walk.specs.Unread.{CountsFaults, unread};

use std::alloc::Global;
use std::marker::Model;
use sw_base::{File, Memory, Trouble};

/// How many bytes of a log are read at once: 2,730 records.
const SIZE: usize = 65_520;

/// What was read of a log and not yet passed, in a buffer that serves log after log. Contracts see the bytes ahead.
#[derive(Drop)]
pub struct Window {
    bytes: Vec<u8>,
    /// The bytes ahead are those from here to there.
    from: usize,
    to: usize,
}

impl Model for Window {
    ghost use Rattle.std.specs.Prelude.{◌≤◌, ℕ, List, length, take, drop};

    ghost Value = { List ℕ };

    ghost view = { λ w. drop w.from (take w.to w.bytes.items) };

    ghost invariant = { λ w. (w.from ≤ w.to) × (w.to ≤ length w.bytes.items) × (24 ≤ length w.bytes.items) };
}

/// Moves these bytes to the front.
fn move_front(bytes: &mut Vec<u8>, from: usize, to: usize)
    requires from { from ≤ to }
    requires to { to ≤ length bytes.old.items }
    ensures length { length bytes.new.items ≡ length bytes.old.items }
    ensures front { take (to - from) bytes.new.items ≡ drop from (take to bytes.old.items) }
{
    bytes.copy_within(from..to, 0);
}

/// Reads on into the free end until so many bytes are there, or the file ends. There are so many before and after.
fn read_on<T: File>(
    alloc: Global,
    file: &mut T,
    bytes: &mut [u8],
    to: &mut usize,
    count: usize,
) -> Result<(), Trouble>
    requires to { to.old ≤ length bytes.old }
    requires room { count ≤ length bytes.old }
    ensures length { length bytes.new ≡ length bytes.old }
    ensures within { to.new ≤ length bytes.old }
    ensures unread { OnOk result (unread (take to.new bytes.new) (T.rest file.new) ≡ unread (take to.old bytes.old) (T.rest file.old)) }
    ensures all { OnOk result (to.new < count → WhereTold (T.rest file.new) (λ rest. rest ≡ [])) }

    ensures reads { CountsFaults (T.faults file.old) (T.faults file.new) (IsErrOf result Trouble.Failed) }
{
    'reads: while *to < count {
        let more = file.read(alloc, &mut bytes[*to..])?;
        if more == 0 {
            return Ok(());
        }
        *to += more;
    }
    Ok(())
}

impl Window {
    /// A window for logs.
    pub fn new(alloc: Global) -> Result<Window, Memory> {
        Ok(Window {
            bytes: vec![in alloc; 0; SIZE]?,
            from: 0,
            to: 0,
        })
    }

    /// Moves the bytes ahead to the front, and reads on until so many are there, or the file ends.
    fn read_more<T: File>(
        &mut self,
        alloc: Global,
        file: &mut T,
        count: usize,
    ) -> Result<(), Trouble>
        requires { count ≤ 24 }
        ensures unread { OnOk result (unread self.new (T.rest file.new) ≡ unread self.old (T.rest file.old)) }
        ensures all { OnOk result (length self.new < count → WhereTold (T.rest file.new) (λ rest. rest ≡ [])) }

        ensures reads { CountsFaults (T.faults file.old) (T.faults file.new) (IsErrOf result Trouble.Failed) }
    {
        let ahead = self.to - self.from;
        move_front(&mut self.bytes, self.from, self.to);
        self.from = 0;
        self.to = ahead;
        read_on(alloc, file, &mut self.bytes, &mut self.to, count)?;
        Ok(())
    }

    /// Reads on in the file until so many bytes are ahead, or it ends.
    pub fn fill<T: File>(
        &mut self,
        alloc: Global,
        file: &mut T,
        count: usize,
    ) -> Result<(), Trouble>
        requires { count ≤ 24 }
        ensures unread { OnOk result (unread self.new (T.rest file.new) ≡ unread self.old (T.rest file.old)) }
        ensures next { OnOk result (WhereTold (unread self.old (T.rest file.old)) (λ left. take count self.new ≡ take count left)) }

        ensures reads { CountsFaults (T.faults file.old) (T.faults file.new) (IsErrOf result Trouble.Failed) }
    {
        if self.to - self.from >= count {
            return Ok(());
        }
        self.read_more(alloc, file, count)?;
        Ok(())
    }

    /// The bytes that are ahead.
    pub fn ahead(&self) -> &[u8]
        ensures { result.now ≡ self.now }
    {
        &self.bytes[self.from..self.to]
    }

    /// Passes so many of the bytes ahead.
    pub fn skip(&mut self, count: usize)
        requires { count ≤ length self.old }
        ensures { self.new ≡ drop count self.old }
    {
        self.from += count;
    }

    /// Begins a file, and passes its first eight bytes, where they are these. Else false.
    pub fn pass_header<T: File>(
        &mut self,
        alloc: Global,
        file: &mut T,
        header: &[u8; 8],
    ) -> Result<bool, Trouble>
        ensures passed { IfOk result (λ passed. IsTrue passed → T.rest file.old ≡ option_map (λ left. header.now ++ left) (unread self.new (T.rest file.new))) }
        ensures other { IfOk result (λ passed. IsFalse passed → WhereTold (T.rest file.old) (λ bytes. take 8 bytes ≢ header.now)) }

        ensures reads { CountsFaults (T.faults file.old) (T.faults file.new) (IsErrOf result Trouble.Failed) }
    {
        self.from = 0;
        self.to = 0;
        self.fill(alloc, file, 8)?;
        if !self.ahead().starts_with(header) {
            return Ok(false);
        }
        self.skip(8);
        Ok(true)
    }
}
