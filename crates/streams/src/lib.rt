// What the programs share of reading and writing.
#![tactic(auto)]

ghost use Rattle.std.specs.Prelude.{◌<◌, IfOk, length, take};
ghost use Rattle.std.specs.Io.{ReadsAtMost};
ghost use Rattle.std.specs.Io.KnownBytes.{Consumes, IsAtEnd};

use std::io;
use std::io::Read;

// The exit status of a program whose output nobody reads any more: what a shell says of one that the signal PIPE ended.
// The runtime holds that signal back, so a write fails instead.
pub const STOPPED: u8 = 141;

// Reads until the buffer is full or the input ends, and returns how many bytes were put at the buffer's start. The
// first read that fails ends it too, with the error.
pub fn read_full<R: Read>(input: &mut R, buffer: &mut [u8]) -> io::Result<usize>
    ensures bound { ReadsAtMost result buffer.new }
    ensures bytes { IfOk result (λ n. Consumes (R.remaining input.old) (R.remaining input.new) (take n buffer.new)) }
    ensures end { IfOk result (λ n. n < length buffer.new → IsAtEnd (R.remaining input.new)) }
{
    let mut len = 0;
    while len < buffer.len() {
        let got = input.read(&mut buffer[len..])?;
        if got == 0 {
            break;
        }
        len += got;
    }
    Ok(len)
}

#[cfg(test)]
mod tests {
    use super::*;
    use std::io::ErrorKind;
    use std::test::Fail;

    // An input of which every read fails.
    #[derive(Drop)]
    struct Broken;

    impl Read for Broken {
        fn read(&mut self, _buffer: &mut [u8]) -> io::Result<usize> {
            Err(io::Error::from(ErrorKind::Other))
        }
    }

    #[test]
    fn reads_on_after_a_short_read(rt: HostRuntime) -> Result<(), Fail> {
        let mut input = b"ab".as_slice().chain(b"cd".as_slice());
        let mut buffer = [0u8; 3];
        assert_eq!(rt; read_full(&mut input, &mut buffer)?, 3);
        assert_eq!(rt; buffer, *b"abc");
        assert_eq!(rt; read_full(&mut input, &mut buffer)?, 1);
        assert_eq!(rt; buffer[0], b'd');
        assert_eq!(rt; read_full(&mut input, &mut buffer)?, 0);
        Ok(())
    }

    #[test]
    fn ends_with_the_error_of_a_read(rt: HostRuntime) {
        let mut buffer = [0u8; 3];
        assert!(rt; read_full(&mut Broken, &mut buffer).is_err());
    }
}
