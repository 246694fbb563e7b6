// The readings of the bit reader.
use crate::report::Counts;
use bitcursor::BitCursor;
use rules::Place;
use std::io;

pub fn readings(rt: &impl Print, counts: &mut Counts) -> io::Result<()> {
    let bytes = *b"\0\0\0\x01\x80\0\0\0";
    counts.gives(
        rt,
        b"32 bits of 00 00 00 01 80 00 00 00",
        value(&bytes, 0, 32),
        1,
    )?;
    counts.gives(rt, b"32 bits one bit on", value(&bytes, 1, 32), 3)?;
    counts.gives(rt, b"33 bits in, 31 bits", value(&bytes, 33, 31), 0)?;
    counts.gives(
        rt,
        b"33 bits in, 32 bits are too many",
        value(&bytes, 33, 32),
        u32::MAX,
    )?;
    counts.gives(rt, b"the edge after 9 bits", edge(&bytes, 9), 16)?;
    counts.gives(rt, b"the edge after 16 bits", edge(&bytes, 16), 16)
}

fn cursor(packet: &[u8], bit: usize) -> BitCursor<'_> {
    let place = Place {
        byte: bit / 8,
        bit: (bit % 8) as u32,
    };
    BitCursor::at(packet, place)
}

// The value, or the largest number where the read comes up short.
fn value(packet: &[u8], at: usize, bits: u32) -> u32 {
    if bits > 32 {
        return u32::MAX;
    }
    cursor(packet, at).read(bits).unwrap_or(u32::MAX)
}

fn edge(packet: &[u8], at: usize) -> u32 {
    let mut bits = cursor(packet, at);
    if bits.skip_to_byte().is_err() {
        return u32::MAX;
    }
    let place = bits.place();
    (place.byte % 1000) as u32 * 8 + place.bit % 8
}
