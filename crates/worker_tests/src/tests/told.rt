//! What the host tells of this process and of its threads.

use host_environment::HostFolder;
use std::alloc::Global;
use sw_base::Folder;

// The number at the start of these bytes.
fn number(bytes: &[u8]) -> u64 {
    let mut value = 0u64;
    for byte in bytes {
        if !byte.is_ascii_digit() {
            break;
        }
        value = value
            .saturating_mul(10)
            .saturating_add(u64::from(*byte - b'0'));
    }
    value
}

/// The number that stands behind a name in a text of the host, or 0 where there is none.
pub fn told(rt: HostRuntime, alloc: Global, text: &str, name: &[u8]) -> u64 {
    let mut about = [0u8; 4096];
    let Ok(count) = HostFolder::new(rt).read(alloc, text, 0, &mut about) else {
        return 0;
    };
    let told = &about[..count];
    for at in 0..count {
        if let Some(after) = told[at..].strip_prefix(name) {
            return number(after);
        }
    }
    0
}
