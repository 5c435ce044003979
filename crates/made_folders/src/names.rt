//! Names of real folders, and words.

use std::alloc::{AllocError, Global};
use std::{env, process};

/// The name of a real folder of this process alone, which isn't there yet. `None` where the host tells no place for it, or memory is wanting.
pub fn fresh(rt: &HostRuntime, name: &str) -> Option<String> {
    let base = env::temp_dir(rt).ok()?;
    let base = base.to_str()?;
    let id = process::id(rt.process());
    format!(in rt.alloc(); "{base}/sword-{name}-{id}").ok()
}

/// These words, as a program is given its arguments.
pub fn texts(alloc: Global, words: &[&str]) -> Result<Vec<String>, AllocError> {
    let mut all = Vec::new(alloc);
    for word in words {
        all.push(String::from_str(alloc, word)?)?;
    }
    Ok(all)
}
