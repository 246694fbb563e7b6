// walk: spoken walks packed, unpacked and checked, over the proved library. Nothing here but reading, writing and messages.
//
//     walk pack COOKIE SETTINGS < samples > packets
//     walk unpack COOKIE < packets > samples
//     walk check COOKIE < packets                      a line a packet: number (0: accepted), count
//
// COOKIE names a file of at most 4,096 bytes. SETTINGS names a text of numbers: mix_bits, mix_res, then for each channel pb_factor,
// quant, order and 30 coefficients, the newest sample's first; '#' begins a comment. Samples are 16 bits, little-endian. A packet
// has its length in front of it, 32 bits, big-endian.
//
// There is no exit status. The last line on standard error is 'walk: N packets, M refused' where all went well, and else
// 'walk: stopped after N packets: WHY'; what came before that place is written. Packets are counted from 1. A packet that is
// refused is told with document 01's number, and unpack writes silence of a whole frame in its place. Where a reader of the output
// stops early, the system ends the program without that line, unless SIGPIPE is ignored.
#![tactic(auto)]

mod files;
mod input;
mod packets;
mod packing;
mod reading;
mod room;
mod say;

use std::env::FillError;
use std::rt::Env;

enum Command {
    Pack,
    Unpack,
    Check,
}

// The command, where as many words stand after it as it takes.
fn command_of(word: &[u8], words: usize) -> Option<Command> {
    if check::same(word, b"pack") && words == 4 {
        return Some(Command::Pack);
    }
    if check::same(word, b"unpack") && words == 3 {
        return Some(Command::Unpack);
    }
    if check::same(word, b"check") && words == 3 {
        return Some(Command::Check);
    }
    None
}

// How many words there are, the program's name among them, and 5 where there are more.
fn count_words(rt: &impl Env) -> usize {
    for i in 0..5 {
        let mut byte = [0u8; 1];
        if let Err(FillError::NotPresent) = rt.arg(i, &mut byte) {
            return i;
        }
    }
    5
}

// A word that is missing, or too long for a command, is no command.
fn read_command(rt: &impl Env) -> Option<Command> {
    let mut word = [0u8; 6];
    let n = rt.arg(1, &mut word).ok()?;
    command_of(&word[..n], count_words(rt))
}

// The one place where the three programs part, so an enum that is matched, and no closures.
fn main(rt: HostRuntime) {
    let _ = match read_command(&rt) {
        Some(Command::Pack) => packing::pack(&rt),
        Some(Command::Unpack) => reading::unpack(&rt),
        Some(Command::Check) => reading::check(&rt),
        None => Err(say::usage(&rt)),
    };
}
