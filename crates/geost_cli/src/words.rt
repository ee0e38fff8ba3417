//! The words behind the program's name.

ghost use Rattle.std.specs.Prelude.{◌≡◌, ◌↔◌};
ghost use Rattle.std.specs.IoError.{error_kind};

use geost_run::Unread;
use std::env;
use std::io::{self, ErrorKind};

/// The words behind the program's name.
pub fn arguments(rt: &HostRuntime) -> Result<Vec<String>, Unread> {
    let mut all = match env::args(rt) {
        Ok(all) => all,
        Err(fault) => return Err(why_unread(&fault)),
    };
    let _program = all.next();
    let mut words = Vec::new(rt.alloc());
    for word in all {
        if words.push(word).is_err() {
            return Err(Unread::Memory);
        }
    }
    Ok(words)
}

// Words that could not be taken for want of memory, or that are no text.
fn why_unread(fault: &io::Error) -> Unread
    ensures { result ≡ Unread.Memory ↔ (error_kind fault.now ≡ ErrorKind.OutOfMemory) }
{
    if fault.kind() == ErrorKind::OutOfMemory {
        Unread::Memory
    } else {
        Unread::NoText
    }
}
