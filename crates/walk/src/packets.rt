// Packets on standard input and output, each with its length in front of it.
ghost use Rattle.std.specs.Prelude.{◌<◌, length, IfOk, IfSome};
ghost use Rattle.walk.specs.Held.{IsPrefixLen};

use crate::input::read_full;
use crate::say;
use crate::say::{Counts, Stopped};
use std::io;
use std::io::Read;

// The next packet's length, or nothing where the input is at its end.
pub fn next_packet(
    rt: &(impl Input + Eprint),
    places: &mut [u8],
    so_far: Counts,
) -> Result<Option<usize>, Stopped>
    ensures { IfOk result (λ found. IfSome found (λ n. IsPrefixLen n places.new)) }
{
    let mut input = rt.reader();
    let mut front = [0u8; 4];
    let got = read_full(&mut input, &mut front);
    if got == 0 {
        return Ok(None);
    }
    if got < 4 {
        return Err(say::stop(rt, so_far.packets, "the input ends inside a length"));
    }
    let n = wire::length_of(front) as usize;
    if places.len() < n {
        return Err(say::stop_with(
            rt,
            so_far.packets,
            "the next length is more than any packet has, in bytes: ",
            n as u64,
        ));
    }
    let filled = read_full(&mut input, &mut places[..n]);
    if filled < n {
        return Err(say::stop(rt, so_far.packets, "the input ends inside a packet"));
    }
    Ok(Some(n))
}

// A read that brings nothing is the end only where the next brings nothing too, and does not fail.
pub fn ended(rt: &(impl Input + Eprint), so_far: Counts) -> Stopped {
    let mut input = rt.reader();
    let mut next = [0u8; 1];
    if let Ok(0) = input.read(&mut next) {
        say::done(rt, so_far)
    } else {
        say::stop(rt, so_far.packets, "standard input cannot be read")
    }
}

pub fn put_packet(rt: &impl Print, packet: &[u8]) -> io::Result<()>
    requires { length packet.now < 4294967296 }
{
    let front = wire::front_of(packet.len() as u32);
    rt.write_all(&front)?;
    rt.write_all(packet)
}

// The counts, where the output took all of it.
pub fn sent(
    rt: &impl Eprint,
    written: io::Result<()>,
    so_far: Counts,
    counts: Counts,
) -> Result<Counts, Stopped> {
    if written.is_ok() {
        return Ok(counts);
    }
    Err(say::stop(rt, so_far.packets, "standard output cannot be written"))
}
