// The files that the arguments name: a cookie, and the text of the settings.
ghost use Rattle.std.specs.Prelude.{IfOk};
ghost use Rattle.walk.specs.Held.{IsPrefixLen, Few};

use crate::input::read_full;
use crate::say::Stopped;
use crate::{room, say};
use rules::{Refusal, StreamInfo};
use std::io::Read;
use std::rt::{Env, Files};
use std::{fs, str};
use text::TextError;

// The file of an argument, whole: how many places were filled. The words were counted, so the argument is there.
fn load<R: Alloc + Env + Eprint + Files>(
    rt: &R,
    argument: usize,
    places: &mut [u8],
) -> Result<usize, Stopped>
    ensures { IfOk result (λ n. IsPrefixLen n places.new) }
{
    // The longest name that a system takes, since memory is fixed.
    let mut path = [0u8; 4096];
    let Ok(n) = rt.arg(argument, &mut path) else {
        return Err(say::stop(rt, 0, "the name of a file: File name too long"));
    };
    let Ok(name) = str::from_utf8(&path[..n]) else {
        return Err(say::stop(rt, 0, "the name of a file is not UTF-8"));
    };
    load_from(rt, name, places)
}

fn load_from<R: Alloc + Eprint + Files>(
    rt: &R,
    name: &str,
    places: &mut [u8],
) -> Result<usize, Stopped>
    ensures { IfOk result (λ n. IsPrefixLen n places.new) }
{
    let mut file = match fs::open(rt, name) {
        Ok(file) => file,
        Err(error) => return Err(say::failed(rt, name, error)),
    };
    let got = read_full(&mut file, places);
    let mut next = [0u8; 1];
    match file.read(&mut next) {
        Ok(0) => Ok(got),
        Ok(_) => Err(say::too_long(rt, name, places.len() as u64)),
        Err(error) => Err(say::failed(rt, name, error)),
    }
}

pub fn refuse_stream(rt: &impl Eprint) -> Stopped {
    let number = u32::from(Refusal::Stream);
    say::stop_with(rt, 0, "the stream is refused: ", number as u64)
}

pub fn open_stream<R: Alloc + Env + Eprint + Files>(rt: &R) -> Result<StreamInfo, Stopped> {
    let mut bytes = [0u8; 4096];
    let n = load(rt, 2, &mut bytes)?;
    match stream::from_cookie(&bytes[..n]) {
        Ok(s) => Ok(s),
        Err(refusal) => {
            let number = u32::from(refusal);
            Err(say::stop_with(rt, 0, "the cookie is refused: ", number as u64))
        }
    }
}

// How many numbers the settings have.
pub fn load_numbers<R: Alloc + Env + Eprint + Files>(
    rt: &R,
    numbers: &mut [i16; 68],
) -> Result<usize, Stopped>
    ensures { IfOk result (λ n. Few n numbers.old numbers.new) }
{
    let mut bytes = [0u8; room::BYTES];
    let n = load(rt, 3, &mut bytes)?;
    match text::numbers_of(&bytes[..n], numbers) {
        Ok(count) => Ok(count),
        Err(TextError::Wrong(at)) => Err(say::stop_with(
            rt,
            0,
            "the settings have no number of 16 bits at byte, counted from 0: ",
            at as u64,
        )),
        Err(TextError::TooMany) => Err(say::stop(rt, 0, "the settings have more than 68 numbers")),
    }
}
