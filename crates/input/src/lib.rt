// What the programs are given. A file: all of it, as much as the room holds, or not at all. And the arguments.
#![tactic(auto)]

ghost use Rattle.std.specs.Prelude.{◌≤◌, length, IfOk};
ghost use Rattle.input.specs.Whole.{IsWhole};

use std::env::FillError;
use std::io;
use std::io::Read;
use std::rt::Env;

// Reads until the input ends or the room is full, and answers how many bytes came. Where one read fails, nothing that was read is to
// be used.
pub fn read<R: Read>(reader: &mut R, room: &mut [u8]) -> io::Result<usize>
    ensures inside { IfOk result (λ n. n ≤ length room.new) }
    ensures whole { IfOk result (λ n. IsWhole n (R.remaining reader.old) (R.remaining reader.new) room.new) }
{
    let mut done: usize = 0;
    // By hand: `read_exact` fails where the input ends early, and `read_to_end` wants the heap.
    while done < room.len() {
        let more = reader.read(&mut room[done..])?;
        if more == 0 {
            break;
        }
        done += more;
    }
    Ok(done)
}

// Puts an argument at the start of the room, and answers its length: 0 where it is missing, or longer than the room, which then has
// its first bytes.
pub fn arg<E: Env>(env: &E, at: usize, room: &mut [u8]) -> usize
    ensures { result ≤ length room.new }
{
    env.arg(at, room).unwrap_or(0)
}

// How many arguments there are, the program's own name among them.
pub fn arg_count<E: Env>(env: &E) -> usize {
    for at in 0..usize::MAX {
        if let Err(FillError::NotPresent) = env.arg(at, &mut []) {
            return at;
        }
    }
    usize::MAX
}

#[cfg(test)]
mod tests {
    use super::{arg, arg_count, read};
    use std::io;
    use std::io::{ErrorKind, Read};
    use std::test::Fail;

    // Gives one byte, and then fails.
    #[derive(Drop)]
    struct Broken {
        left: u8,
    }

    impl Read for Broken {
        fn read(&mut self, buf: &mut [u8]) -> io::Result<usize> {
            if self.left == 0 || buf.is_empty() {
                return Err(io::Error::from(ErrorKind::BrokenPipe));
            }
            self.left -= 1;
            buf[0] = b'x';
            Ok(1)
        }
    }

    #[test]
    fn reads_to_the_end(rt: HostRuntime) -> Result<(), Fail> {
        let mut bytes: &[u8] = b"deck";
        let mut room = [0u8; 6];
        let given = read(&mut bytes, &mut room);
        assert!(rt; matches!(given, Ok(4)));
        assert!(rt; room == *b"deck\0\0");
        Ok(())
    }

    #[test]
    fn stops_where_the_room_is_full(rt: HostRuntime) -> Result<(), Fail> {
        let mut bytes: &[u8] = b"deck";
        let mut room = [0u8; 3];
        let given = read(&mut bytes, &mut room);
        assert!(rt; matches!(given, Ok(3)));
        assert!(rt; room == *b"dec");
        Ok(())
    }

    #[test]
    fn fails_in_mid_stream(rt: HostRuntime) -> Result<(), Fail> {
        let mut broken = Broken { left: 1 };
        let mut room = [0u8; 3];
        let given = read(&mut broken, &mut room);
        assert!(rt; given.is_err());
        Ok(())
    }

    #[test]
    fn has_its_own_name_and_no_argument_past_the_count(rt: HostRuntime) -> Result<(), Fail> {
        let count = arg_count(&rt);
        let mut room = [7u8; 4];
        assert!(rt; 1 <= count);
        assert!(rt; arg(&rt, count, &mut room) == 0);
        Ok(())
    }
}
