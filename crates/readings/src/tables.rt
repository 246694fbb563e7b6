// The tables of standard input. A table is a heading, which begins with the number of rows, and its rows. A reading written as a call
// has a proof of its own to check; a row has none.
use crate::report::Counts;
use crate::row::{number_at, number_up_to, packet_of, row_read};
use crate::writer::Look;
use crate::{cookies, reader, writer};
use std::io;

// What a table's rows ask. An enum and no closures: main names the tables, and each kind is matched once.
#[derive(Clone, Copy)]
pub enum Kind {
    Cookie,
    Reader,
    Writer(Look),
    WholeFrame,
}

pub fn readings(rt: &(impl Input + Print), counts: &mut Counts, kind: Kind) -> io::Result<()> {
    let heading = row_read(rt);
    for _ in 0..number_at(&heading, 0) {
        next_row(rt, counts, kind)?;
    }
    Ok(())
}

fn next_row(rt: &(impl Input + Print), counts: &mut Counts, kind: Kind) -> io::Result<()> {
    let row = row_read(rt);
    let packet = packet_of(&row);
    let count = number_up_to(&row, 25, 72);
    reading(rt, counts, kind, &row, &packet[0..count])
}

fn reading(
    rt: &impl Print,
    counts: &mut Counts,
    kind: Kind,
    row: &[u8],
    packet: &[u8],
) -> io::Result<()> {
    match kind {
        Kind::Cookie => cookies::reading(rt, counts, row, packet),
        Kind::Reader => reader::reading(rt, counts, row, packet),
        Kind::Writer(look) => writer::reading(rt, counts, row, packet, look),
        Kind::WholeFrame => writer::whole_frame(rt, counts, row, packet),
    }
}
