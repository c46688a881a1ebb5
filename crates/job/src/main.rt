// The job program: one stream on standard input, four lines or one refusal on standard output.
#![tactic(auto)]

ghost use Rattle.std.specs.Prelude.{◌≡◌, ◌<◌, ◌≤◌, IfOk, length, take};
ghost use Rattle.std.specs.Io.KnownBytes.{Consumes, IsAtEnd};

use std::io;
use std::io::Read;

// Reads until the buffer is full or the input ends, and tells how many bytes were read. A read may give fewer bytes than there is room
// for; each but the last gives one at least, so no more reads than bytes are needed.
fn read_full<R: Read>(input: &mut R, buffer: &mut [u8]) -> io::Result<usize>
    ensures bound { IfOk result (λ n. n ≤ length buffer.new) }
    ensures bytes { IfOk result (λ n. Consumes (R.remaining input.old) (R.remaining input.new) (take n buffer.new)) }
    ensures full { IfOk result (λ n. n < length buffer.old → IsAtEnd (R.remaining input.new)) }
    ensures length { length buffer.new ≡ length buffer.old }
{
    let mut filled = 0;
    for turn in 0..buffer.len() {
        let read = input.read(&mut buffer[filled..])?;
        if read == 0 {
            break;
        }
        filled += read;
    }
    Ok(filled)
}

// The first 14,369 bytes decide the answer (the law `decided`), so no more are read.
fn main(rt: HostRuntime) -> io::Result<()> {
    let mut input = [0u8; 14369];
    let n = read_full(&mut rt.stdin(), &mut input)?;
    match stream::job(&input[..n]) {
        Ok(figures) => println!(rt; "{figures}"),
        Err(refusal) => println!(rt; "{refusal}"),
    }
}
