ghost use Rattle.std.specs.Prelude.{◌≡◌, drop};

use std::alloc::Allocator;
use std::rt::Env;
use std::{env, io};

/// The words of the command line behind the program's name, in their order, as the runtime gives them.
pub fn words<R: Env + Alloc>(rt: &R) -> io::Result<Vec<String<R::A>, R::A>> {
    let all = env::args(rt)?.collect(rt.alloc())?;
    Ok(behind_first(all))
}

// The words behind the first, in their order.
fn behind_first<A: Allocator>(mut words: Vec<String<A>, A>) -> Vec<String<A>, A>
    ensures { result.items ≡ drop 1 words.items }
{
    if !words.is_empty() {
        words.remove(0);
    }
    words
}
