// Standard input and standard output, in large pieces.
ghost use Rattle.std.specs.Prelude.{◌≤◌, length};

use std::io::{self, Print, Read};

/// Reads until the buffer is full, the input ends or a read fails; answers how many bytes came. A pipe hands over less than is asked for, and the library's `read_exact` does not say how many came: so the loop is written out.
pub fn read(input: &mut impl Read, buffer: &mut [u8]) -> usize
    ensures { result ≤ length buffer.old }
{
    let mut done = 0;
    while done < buffer.len() {
        let n = input.read(&mut buffer[done..]).unwrap_or(0);
        if n == 0 {
            return done;
        }
        done += n;
    }
    done
}

/// Writes all of the text, or answers the error.
pub fn write(rt: &impl Print, text: &[u8]) -> io::Result<()> {
    rt.write_all(text)
}
