// What the program says, all of it on standard error. Where that cannot be written, the program goes on without a word.
use std::io;

// The program stops. Its last message is out: all is done, or why not.
#[derive(Drop)]
pub struct Stopped;

// The packets that are done, and how many of them were refused.
#[derive(Clone, Copy, Default)]
pub struct Counts {
    pub packets: u64,
    pub refused: u64,
}

impl Counts {
    pub fn one_more(self) -> Counts {
        Counts {
            packets: self.packets.wrapping_add(1),
            refused: self.refused,
        }
    }
}

// The next packet is refused, with this number of document 01.
pub fn refused(rt: &impl Eprint, counts: Counts, number: u32) -> Counts {
    let packet = counts.packets.wrapping_add(1);
    let _ = eprintln!(rt; "walk: packet {packet} refused: {number}");
    Counts {
        packets: packet,
        refused: counts.refused.wrapping_add(1),
    }
}

pub fn done(rt: &impl Eprint, counts: Counts) -> Stopped {
    let _ = eprintln!(rt;
        "walk: {} packets, {} refused",
        counts.packets, counts.refused
    );
    Stopped
}

fn stopping(rt: &impl Eprint, packets: u64) {
    let _ = eprint!(rt; "walk: stopped after {packets} packets: ");
}

pub fn stop(rt: &impl Eprint, packets: u64, why: &str) -> Stopped {
    stopping(rt, packets);
    let _ = eprintln!(rt; "{why}");
    Stopped
}

pub fn stop_with(rt: &impl Eprint, packets: u64, why: &str, number: u64) -> Stopped {
    stopping(rt, packets);
    let _ = eprintln!(rt; "{why}{number}");
    Stopped
}

pub fn too_long(rt: &impl Eprint, name: &str, most: u64) -> Stopped {
    stopping(rt, 0);
    let _ = eprintln!(rt; "{name} is longer than {most} bytes");
    Stopped
}

// Why a file cannot be read, in the system's words: std has its number behind them.
pub fn failed(rt: &(impl Alloc + Eprint), name: &str, error: io::Error) -> Stopped {
    stopping(rt, 0);
    let words = format!(in rt.alloc(); "{error}");
    let _ = match words {
        Ok(words) => match words.as_str().split_once(" (os error ") {
            Some((words, _)) => eprintln!(rt; "{name}: {words}"),
            None => eprintln!(rt; "{name}: {words}"),
        },
        Err(_) => eprintln!(rt; "{name}: {error}"),
    };
    Stopped
}

pub fn usage(rt: &impl Eprint) -> Stopped {
    let _ = eprintln!(rt; "usage: walk pack COOKIE SETTINGS < samples > packets");
    let _ = eprintln!(rt; "       walk unpack COOKIE < packets > samples");
    let _ = eprintln!(rt; "       walk check COOKIE < packets");
    let _ = eprintln!(rt;
        "COOKIE and SETTINGS are names of files. Samples are 16 bits, little-endian. A packet has its length in front, 32 bits, big-endian."
    );
    let _ = eprintln!(rt;
        "check writes a line a packet: document 01's number (0: accepted) and the count of samples. Packets are counted from 1."
    );
    let _ = eprintln!(rt;
        "There is no exit status: the last line is 'walk: N packets, M refused', or 'walk: stopped after N packets: WHY'."
    );
    Stopped
}
