// The start of a file.
ghost use Rattle.std.specs.Prelude.{◌≤◌, length, IfOk};

use std::io::{ErrorKind, Read};
use std::rt::Files;
use std::{fs, io};

// What the file begins with, read into the memory that is lent: as many bytes as that has, or fewer where the file has fewer, and
// none where the file is absent. It wants no memory beside that, so that no sheet is kept from its refusal for want of memory.
pub(crate) fn read_start<'m, R: Files>(
    rt: &R,
    path: &str,
    memory: &'m mut [u8],
) -> io::Result<&'m [u8]>
    ensures { IfOk result (λ bytes. length bytes.now ≤ length memory.old) }
{
    let mut count = 0usize;
    match fs::open(rt, path) {
        Ok(file) => {
            let mut file = file;
            for _ in 0..memory.len() {
                let more = file.read(&mut memory[count..])?;
                if more == 0 {
                    break;
                }
                count += more;
            }
        }
        Err(error) if error.kind() == ErrorKind::NotFound => {}
        Err(error) => return Err(error),
    }
    Ok(&memory[..count])
}
