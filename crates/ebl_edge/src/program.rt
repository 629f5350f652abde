//! The words of a program's call.
use std::alloc::Global;
use std::rt::Env;
use std::{env, io};

/// The words behind the program's name, as the system gives them; no contract says which they are.
///
/// A word that is no text (UTF-8) is an error of the kind `InvalidData`. Out of memory the kind is `OutOfMemory`.
pub fn words<R: Alloc<A = Global> + Env>(rt: &R) -> io::Result<Vec<String>> {
    let mut words = Vec::new(rt.alloc());
    for word in env::args(rt)?.skip(1) {
        words.push(word)?;
    }
    Ok(words)
}
