//! Names, and the lists of a kernel's declarations.
ghost use Rattle.kernel_syntax.specs.Layout.{laid, aligned, IsWithinLimits};
ghost use Rattle.std.specs.Prelude.{◌≡◌, ◌<◌, ◌^◌, ◌≤◌, ◌↔◌, [], ◌∷◌, ◌++◌, length, OnOk, OnErr, IsSome, IfSome};

use crate::syntax::Array;
use arrayvec::ArrayString;
use std::alloc::{AllocError, Global};
use std::marker::Model;

/// A name of at most 32 bytes, which contracts see as its bytes.
#[derive(Drop)]
pub struct Name {
    text: ArrayString<32>,
}

impl Model for Name {
    ghost use Rattle.std.specs.Prelude.{List, ℕ};

    ghost Value = { List ℕ };

    ghost view = { λ n. n.text.bytes };
}

impl Name {
    /// The name with this text, or none where it has more than 32 bytes.
    pub fn new(text: &str) -> Option<Name>
        ensures some { IsSome result ↔ (length text.now ≤ 32) }
        ensures bytes { IfSome result (λ name. name ≡ text.now) }
    {
        let text = ArrayString::from(text).ok()?;
        Some(Name { text })
    }

    /// The name's text.
    pub fn as_str(&self) -> &str
        ensures { result.now ≡ self.now }
    {
        self.text.as_str()
    }

    /// The same name.
    pub fn copy(&self) -> Name
        ensures { result ≡ self.now }
    {
        Name { text: self.text }
    }
}

/// The arrays of a kernel, which contracts see as a list.
#[derive(Drop)]
pub struct Arrays {
    items: Vec<Array>,
}

impl Model for Arrays {
    ghost use Rattle.std.specs.Prelude.{List};
    ghost use Rattle.kernel_syntax.specs.declared.syntax.Array.{Array};

    ghost Value = { List Array };

    ghost view = { λ a. a.items.items };
}

impl Arrays {
    /// No arrays.
    pub fn new(alloc: Global) -> Arrays
        ensures { result ≡ [] }
    {
        Arrays {
            items: Vec::new(alloc),
        }
    }

    /// Adds an array at the end. After a refusal nothing has changed.
    pub fn push(&mut self, array: Array) -> Result<(), AllocError>
        ensures ok { OnOk result (self.new ≡ self.old ++ array ∷ []) }
        ensures err { OnErr result (self.new ≡ self.old) }
    {
        self.items.push(array)?;
        Ok(())
    }

    // Sets the bases and the first elements.
    pub(crate) fn lay_out(&mut self)
        requires { IsWithinLimits self.old }
        ensures { self.new ≡ laid self.old }
    {
        let mut base = 4096;
        let mut first = 0;
        for array in self.items.iter_mut() {
            array.base = base;
            array.first = first;
            base = align(base + u64::from(array.width) * u64::from(array.count));
            first += array.count;
        }
    }

    /// The arrays in order.
    pub fn as_slice(&self) -> &[Array]
        ensures { result.now ≡ self.now }
    {
        self.items.as_slice()
    }
}

// The least multiple of 64 that is not below n.
fn align(n: u64) -> u64
    requires { n < 2 ^ 63 }
    ensures { result ≡ aligned n }
{
    (n + 63) / 64 * 64
}

/// The names of a kernel's mutexes, which contracts see as a list.
#[derive(Drop)]
pub struct Names {
    items: Vec<Name>,
}

impl Model for Names {
    ghost use Rattle.std.specs.Prelude.{List, ℕ};

    ghost Value = { List (List ℕ) };

    ghost view = { λ n. n.items.items };
}

impl Names {
    /// No names.
    pub fn new(alloc: Global) -> Names
        ensures { result ≡ [] }
    {
        Names {
            items: Vec::new(alloc),
        }
    }

    /// Adds a name at the end. After a refusal nothing has changed.
    pub fn push(&mut self, name: Name) -> Result<(), AllocError>
        ensures ok { OnOk result (self.new ≡ self.old ++ name ∷ []) }
        ensures err { OnErr result (self.new ≡ self.old) }
    {
        self.items.push(name)?;
        Ok(())
    }

    /// The names in order.
    pub fn as_slice(&self) -> &[Name]
        ensures { result.now ≡ self.now }
    {
        self.items.as_slice()
    }
}
