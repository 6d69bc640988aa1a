// Standard input: what a program looks at of it, and what is left behind that. Any other reader is read alike.
#![tactic(auto)]

ghost use Rattle.std.specs.Prelude.{◌≡◌, ◌≢◌, ◌≤◌, length, replicate, take, IfErr, IfOk, IfSome, OnOk};
ghost use Rattle.std.specs.Io.{ReadsAtMost};
ghost use Rattle.std.specs.Io.KnownBytes.{IsAtEnd, ReadConsumes};
ghost use Rattle.std.specs.IoError.{error_kind};

use std::io;
use std::io::{ErrorKind, Read};

#[cfg(test)]
mod tests;

// Room for so many bytes, which a caller lends: zeros. It comes from a call, so that no proof writes out as many.
pub fn room<const N: usize>() -> [u8; N]
    ensures { result ≡ replicate N 0 }
{
    [0; N]
}

// One read, tried again where a signal interrupts it.
fn read_again<R: Read>(input: &mut R, room: &mut [u8]) -> io::Result<usize>
    ensures bound { ReadsAtMost result room.new }
    ensures bytes { ReadConsumes (R.remaining input.old) (R.remaining input.new) result room.new }
    ensures retried { IfErr result (λ e. error_kind e ≢ ErrorKind.Interrupted) }
{
    for _ in 0..u64::MAX {
        match input.read(room) {
            Err(error) if error.kind() == ErrorKind::Interrupted => {}
            read => return read,
        }
    }
    Err(io::Error::from(ErrorKind::TimedOut))
}

// Reads until the room is full or the input ends, and answers the bytes: they are read into the front of the room. The room is lent, and no
// Vec, so that reading asks for no memory.
pub fn read_most<'a, R: Read>(input: &mut R, room: &'a mut [u8]) -> io::Result<&'a [u8]>
    ensures bound { IfOk result (λ bytes. length bytes.now ≤ length room.old) }
    ensures front { IfOk result (λ bytes. IfSome (R.remaining input.old) (λ known. bytes.now ≡ take (length room.old) known)) }
{
    let mut done = 0;
    while done < room.len() {
        match read_again(input, &mut room[done..])? {
            0 => return Ok(&room[..done]),
            n => done += n,
        }
    }
    Ok(room)
}

// Reads what is left of the input, so that whoever writes it can end.
pub fn read_rest<R: Read>(input: &mut R) -> io::Result<()>
    ensures { OnOk result (IsAtEnd (R.remaining input.new)) }
{
    io::copy(input, &mut io::sink())?;
    Ok(())
}

// Reads standard input: as much as there is room for, and the rest of it, which is left out.
pub fn read_input<'a>(rt: &impl Input, room: &'a mut [u8]) -> io::Result<&'a [u8]>
    ensures { IfOk result (λ input. length input.now ≤ length room.old) }
{
    let mut standard = rt.reader();
    let input = read_most(&mut standard, room)?;
    read_rest(&mut standard)?;
    Ok(input)
}
