//! What a program is given.

use std::alloc::AllocError;
use std::env;
use std::io::ErrorKind;

/// The arguments after the program's name. Where one of them isn't UTF-8 they ask for nothing, and so none is answered.
pub fn given_arguments(rt: &HostRuntime) -> Result<Vec<String>, AllocError> {
    let mut arguments = Vec::new(rt.alloc());
    match env::args(rt) {
        Ok(given) => {
            for word in given.skip(1) {
                arguments.push(word)?;
            }
            Ok(arguments)
        }
        Err(error) if error.kind() == ErrorKind::OutOfMemory => Err(AllocError),
        Err(_) => Ok(arguments),
    }
}
