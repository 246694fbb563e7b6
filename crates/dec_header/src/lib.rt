// An audio element's header, which stands after its tag. What a compressed element has next, its plan, is the module `plan`.
#![tactic(auto)]

pub mod plan;

ghost use Rattle.std.specs.Prelude.{◌≤◌, IfOk};
ghost use Rattle.rules.specs.Element.{sample_number, header};
ghost use Rattle.bitcursor.specs.Reads.{Reads};
ghost use Rattle.dec_header.specs.Header.{header_of, SaneHeader};

use bitcursor::BitCursor;
use rules::{Refusal, StreamInfo};

// Shift code, uncompressed bit and sample number: numbers, as the rules' header has them.
#[derive(Clone, Copy)]
pub struct Header {
    pub code: u32,
    pub raw: u32,
    pub samples: u32,
}

// The sample number stands in a partial element; of any other it is the frame length. `partial` is the bit as it was read.
#[tactic(auto, unfolding(rules::specs::Element::sample_number, rules::specs::Answers::bind, bitcursor::specs::Reads::told))]
fn read_sample_number(bits: &mut BitCursor<'_>, s: StreamInfo, partial: u32) -> Result<u32, Refusal>
    ensures reads { Reads (λ n. n) (λ packet. sample_number packet s partial) bits.old bits.new result }
    ensures at_most { IfOk result (λ n. n ≤ s.frame_length) }
{
    if partial == 0 {
        return Ok(s.frame_length);
    }
    let samples = bits.read(32)?;
    if samples > s.frame_length {
        return Err(Refusal::Partial);
    }
    Ok(samples)
}

// What stands after an audio element's tag. The instance is of no use.
#[tactic(auto, unfolding(rules::specs::Element::header, rules::specs::Answers::bind, bitcursor::specs::Reads::told))]
pub fn read_header(bits: &mut BitCursor<'_>, s: StreamInfo) -> Result<Header, Refusal>
    ensures reads { Reads header_of (λ packet. header packet s) bits.old bits.new result }
    ensures sane { IfOk result (SaneHeader s.frame_length) }
{
    let _instance = bits.read(4)?;
    if bits.read(12)? != 0 {
        return Err(Refusal::Unused);
    }
    let partial = bits.read_bit()?;
    let code = bits.read(2)?;
    if code > 2 {
        return Err(Refusal::Shift);
    }
    let raw = bits.read_bit()?;
    let samples = read_sample_number(bits, s, partial)?;
    Ok(Header { code, raw, samples })
}
