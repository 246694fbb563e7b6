// Document 01's readings taken at the bench: each is run and compared with what the paper says.
#![tactic(auto)]

mod bits;
mod cookies;
mod reader;
mod report;
mod row;
mod streams;
mod tables;
mod writer;

use crate::tables::Kind;
use crate::writer::Look;
use std::io;

fn main(rt: HostRuntime) -> io::Result<()> {
    let mut counts = report::Counts::default();
    tables::readings(&rt, &mut counts, Kind::Cookie)?;
    cookies::fields(&rt, &mut counts)?;
    cookies::sizes(&rt, &mut counts)?;
    bits::readings(&rt, &mut counts)?;
    tables::readings(&rt, &mut counts, Kind::Reader)?;
    tables::readings(&rt, &mut counts, Kind::Writer(Look::Packet))?;
    tables::readings(&rt, &mut counts, Kind::WholeFrame)?;
    tables::readings(&rt, &mut counts, Kind::Writer(Look::Samples))?;
    tables::readings(&rt, &mut counts, Kind::Writer(Look::Nothing))?;
    tables::readings(&rt, &mut counts, Kind::Writer(Look::Buffers))?;
    tables::readings(&rt, &mut counts, Kind::Reader)?;
    println!(rt; "{counts}")
}
