//! The arguments of the command line.
ghost use Rattle.std.specs.Prelude.{◌≡◌, IfOk, map, string_bytes};

use std::alloc::{AllocError, Global};
use std::env::{self, Env};
use std::io;

/// Returns the arguments of the command line, the program's own name first.
///
/// # Errors
///
/// An error if the program is out of memory, or if the system does not give the arguments.
pub fn words_of(rt: &(impl Env + AllocGlobal)) -> io::Result<Vec<String>> {
    Ok(env::args(rt)?.collect(rt.alloc())?)
}

/// Returns the arguments as borrowed texts, unchanged and in their order.
///
/// # Errors
///
/// An error if there is no memory for the list.
#[tactic(auto, using(std::proofs::lemmas::Grind::common_steps))]
pub fn texts<'a>(alloc: Global, words: &'a [String]) -> Result<Vec<&'a str>, AllocError>
    ensures { IfOk result
        (λ texts. map (λ p. p.now) texts.items ≡ map string_bytes words.entry.now) }
{
    let mut texts = Vec::new(alloc);
    for word in words {
        texts.push(word.as_str())?;
    }
    Ok(texts)
}
