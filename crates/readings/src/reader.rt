// The readings of packets: the reader's rows.
use crate::report::{Counts, number_of};
use crate::row::{gives, number_at, number_up_to, sample_at, stream_of};
use rules::{Decoded, Refused};
use std::io;
use stream::Sample;

// A row with no samples says nothing of them.
pub fn reading(rt: &impl Print, counts: &mut Counts, row: &[u8], packet: &[u8]) -> io::Result<()> {
    if number_at(row, 1) != 16 {
        let mut out = [7i32; 4];
        let answer = read(row, packet, &mut out);
        return gives(
            rt,
            counts,
            row,
            number_of(answer.map_err(|refused| refused.refusal)),
        );
    }
    let mut out = [7i16; 4];
    let answer = read(row, packet, &mut out);
    gives(
        rt,
        counts,
        row,
        number_of(answer.map_err(|refused| refused.refusal)),
    )?;
    if number_at(row, 13) > 0 {
        return counts.holds(rt, b"its samples", are_samples(row, answer, &out));
    }
    Ok(())
}

fn read<S: Sample>(row: &[u8], packet: &[u8], out: &mut [S]) -> Result<Decoded, Refused> {
    let mut scratch = [7i32; 4];
    let room = number_up_to(row, 20, out.len());
    let places = number_up_to(row, 21, 4);
    dec::decode_packet(
        packet,
        stream_of(row),
        &mut out[0..room],
        &mut scratch[0..places],
    )
}

// The passage, and sevens behind it. No passage that is read has more than four samples: four places beside four columns, which no `==` of arrays says plainer.
pub fn are_samples(row: &[u8], answer: Result<Decoded, Refused>, out: &[i16; 4]) -> bool {
    let Ok(decoded) = answer else {
        return false;
    };
    (decoded.count == number_at(row, 13) as usize)
        & (out[0] == sample_at(row, 14))
        & (out[1] == sample_at(row, 15))
        & (out[2] == sample_at(row, 16))
        & (out[3] == sample_at(row, 17))
}
