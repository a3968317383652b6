// Reading the bytes of an image from a file: as many as can change its answer, however long the file is.
#![tactic(auto)]

ghost use Rattle.std.specs.Prelude.{IfOk, ◌≡◌, ◌≤◌, length};
ghost use Rattle.image_input.specs.Enough.{enough};

use std::io;
use std::io::Read;

// Room for all bytes that can change what an image answers.
pub fn room() -> [u8; 74591]
    ensures { enough ≡ length result }
{
    [0; 74591]
}

// Reads until the buffer is full or the file ends; gives how many bytes were read. A read that fails is no end of the file:
// what came before it is no image.
pub fn read_input(file: &mut impl Read, buf: &mut [u8]) -> io::Result<usize>
    ensures { IfOk result (λ n. n ≤ length buf.new) }
{
    let mut n: usize = 0;
    // how far a read comes is known only after it
    while n < buf.len() {
        let more = file.read(&mut buf[n..])?;
        if more == 0 {
            break;
        }
        n += more;
    }
    Ok(n)
}
