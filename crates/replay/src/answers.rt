// Our answer to a packet, in the recorded form: the number, the count and the checksum of the places that were lent.
use rules::StreamInfo;
use std::fmt;
use stream::Sample;

#[derive(Clone, Copy, PartialEq)]
pub struct Reply {
    // A number, 0 for accepted, as it was recorded.
    pub number: u32,
    pub count: u64,
    pub sum: u32,
}

impl fmt::Display for Reply {
    fn fmt<W: fmt::Write>(&self, f: &mut fmt::Formatter<W>) -> fmt::Result {
        write!(
            f,
            "{} count {} checksum {}",
            self.number, self.count, self.sum
        )
    }
}

// Room for 16 samples of 8 channels.
pub fn answer<S: Sample + Into<i32>>(packet: &[u8], s: StreamInfo, lent: [S; 128]) -> Reply {
    let mut out = lent;
    let mut scratch = [7i32; 32];
    let (number, count) = match dec::decode_packet(packet, s, &mut out, &mut scratch) {
        Ok(decoded) => (0, decoded.count as u64),
        Err(refused) => (u32::from(refused.refusal), 0),
    };
    Reply {
        number,
        count,
        sum: sum_of(&out),
    }
}

// For each place, the sum x 31 + place, modulo 2^32.
fn sum_of<S: Copy + Into<i32>>(places: &[S]) -> u32 {
    let mut sum = 0u32;
    for place in places {
        let value: i32 = (*place).into();
        sum = sum.wrapping_mul(31).wrapping_add(value.cast_unsigned());
    }
    sum
}
