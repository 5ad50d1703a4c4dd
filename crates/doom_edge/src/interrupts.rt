// Calls that a signal interrupts are taken up again, but not for ever.
ghost use Rattle.std.specs.Io.{ReadsAtMost, WritesAtMost};

use std::io;
use std::io::{Error, ErrorKind, Read, Write};

// How often in a row a call is taken up again that a signal interrupted before it did anything.
const MOST_INTERRUPTS: u32 = 1000;

fn is_interrupted(error: &Error) -> bool {
    error.kind() == ErrorKind::Interrupted
}

// Makes a call of the system until no signal interrupts it.
pub(crate) fn until_done<F: Fn() -> io::Result<()> + Drop>(call: F) -> io::Result<()>
    requires { F.IsAlwaysCallable call }
{
    for _ in 0..MOST_INTERRUPTS {
        let done = call();
        match done {
            Err(error) if is_interrupted(&error) => {}
            _ => return done,
        }
    }
    Err(Error::from(ErrorKind::Interrupted))
}

// Reads until no signal interrupts it.
pub(crate) fn read_some<R: Read>(input: &mut R, buffer: &mut [u8]) -> io::Result<usize>
    ensures bound { ReadsAtMost result buffer.new }
{
    for _ in 0..MOST_INTERRUPTS {
        match input.read(buffer) {
            Err(error) if is_interrupted(&error) => {}
            done => return done,
        }
    }
    Err(Error::from(ErrorKind::Interrupted))
}

// Writes some of these bytes, until no signal interrupts it.
fn write_some<W: Write>(output: &mut W, bytes: &[u8]) -> io::Result<usize>
    ensures bound { WritesAtMost result bytes.now }
{
    for _ in 0..MOST_INTERRUPTS {
        match output.write(bytes) {
            Err(error) if is_interrupted(&error) => {}
            done => return done,
        }
    }
    Err(Error::from(ErrorKind::Interrupted))
}

// Writes all of these bytes. A write that takes none is an error.
pub(crate) fn write_whole<W: Write>(output: &mut W, bytes: &[u8]) -> io::Result<()> {
    let mut rest = bytes;
    while !rest.is_empty() {
        let len = write_some(output, rest)?;
        if len == 0 {
            return Err(Error::from(ErrorKind::WriteZero));
        }
        rest = &rest[len..];
    }
    Ok(())
}
