// Bytes of a file or of standard input.
ghost use Rattle.walk.specs.Held.{IsPrefixLen};

use std::io::Read;

// Fills the places from their start, and says how many. A read that fails ends it as the end of the input does.
pub fn read_full(input: &mut impl Read, places: &mut [u8]) -> usize
    ensures { IsPrefixLen result places.new }
{
    let mut done = 0;
    for _ in 0..places.len() {
        if done == places.len() {
            break;
        }
        match input.read(&mut places[done..]) {
            Ok(0) | Err(_) => break,
            Ok(n) => done += n,
        }
    }
    done
}
