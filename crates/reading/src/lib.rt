// Reading an input to its end, or until a buffer is full.
#![tactic(auto)]

ghost use Rattle.std.specs.Prelude.{◌≤◌, length};

use std::io::Read;

// Reads until the buffer is full, the input ends or a read fails. How many bytes it put at the buffer's start.
pub fn read_full<R: Read>(from: &mut R, buffer: &mut [u8]) -> usize
    ensures { result ≤ length buffer.new }
{
    let mut done = 0;
    while done < buffer.len() {
        let n = count(from, &mut buffer[done..]);
        if n == 0 {
            break;
        }
        done += n;
    }
    done
}

// One read; 0 where it fails.
pub fn count<R: Read>(from: &mut R, buffer: &mut [u8]) -> usize
    ensures { result ≤ length buffer.new }
{
    match from.read(buffer) {
        Ok(n) => n,
        Err(_) => 0,
    }
}
