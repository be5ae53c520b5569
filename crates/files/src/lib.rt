// A file's bytes in a lent buffer.
#![tactic(auto)]

ghost use Rattle.io.specs.Counts.{IsPrefixLen};

use std::fs::File;
use std::io::Read;

// Fills the buffer with what a file has from here on, and answers how many bytes that is: fewer than fit where the file ends, or where a read fails.
pub fn read_full(file: &mut File, buffer: &mut [u8]) -> usize
    ensures { IsPrefixLen result buffer.new }
{
    let mut done = 0;
    // No for: done grows by what each read brings.
    while done < buffer.len() {
        let n = file.read(&mut buffer[done..]).unwrap_or(0);
        if n == 0 {
            break;
        }
        done += n;
    }
    done
}
