// One element of a packet, whatever its tag; data and fill elements.
#![tactic(auto)]

ghost use Rattle.rules.specs.Packet.{passed, end, skip_bytes, data_count, aligned, data_bytes, data_element, fill_element, sound_element, end_element, turn};
ghost use Rattle.bitcursor.specs.Reads.{Reads};
ghost use Rattle.dec_packet.specs.Told.{Sounding, Turnable, Turning, Turns};

use bitcursor::BitCursor;
use buffers::clear;
use dec_element::decode_audio_element;
use rules::{Refusal, StreamInfo};

// ---- Elements without sound: data (DSE) and fill (FIL) are read for their length and passed over.

fn skip_bytes(bits: &mut BitCursor<'_>, bytes: u32) -> Result<(), Refusal>
    ensures { Reads (λ _. passed) (λ packet. skip_bytes packet bytes) bits.old bits.new result }
{
    bits.skip(bytes as u64 * 8)
}

// The count of a data element: 8 bits, and 8 more after 255.
fn data_count(bits: &mut BitCursor<'_>) -> Result<u32, Refusal>
    ensures { Reads (λ n. n) data_count bits.old bits.new result }
{
    let count = bits.read(8)?;
    if count != 255 {
        return Ok(count);
    }
    let more = bits.read(8)?;
    Ok(count + more)
}

// `asked` is the bit as it was read, and as the rules have it.
fn align(bits: &mut BitCursor<'_>, asked: u32) -> Result<(), Refusal>
    ensures { Reads (λ u. u) (λ packet. aligned packet asked) bits.old bits.new result }
{
    if asked == 0 {
        return Ok(());
    }
    bits.skip_to_byte()
}

// The bytes of a data element, after its count.
fn data_bytes(bits: &mut BitCursor<'_>, asked: u32, bytes: u32) -> Result<(), Refusal>
    ensures { Reads (λ _. passed) (λ packet. data_bytes packet asked bytes) bits.old bits.new result }
{
    align(bits, asked)?;
    skip_bytes(bits, bytes)
}

// The instance tag ties the data to an audio element: nobody uses it.
fn data_element(bits: &mut BitCursor<'_>) -> Result<(), Refusal>
    ensures { Reads (λ _. passed) data_element bits.old bits.new result }
{
    let _instance = bits.read(4)?;
    let asked = bits.read_bit()?;
    let bytes = data_count(bits)?;
    data_bytes(bits, asked, bytes)
}

// Short count 15 is not ours to read.
fn fill_element(bits: &mut BitCursor<'_>) -> Result<(), Refusal>
    ensures { Reads (λ _. passed) fill_element bits.old bits.new result }
{
    let bytes = bits.read(4)?;
    if bytes == 15 {
        return Err(Refusal::Fill);
    }
    skip_bytes(bits, bytes)
}

// ---- One element of a packet: all eight tags are decided here.

// The reader between two elements.
#[derive(Clone, Copy)]
pub struct State {
    pub channels: u32,
    pub samples: Option<u32>,
}

// What an element came to: channels with their samples in scratch, nothing, or the end with the sample number.
#[derive(Clone, Copy)]
pub enum Element {
    Audio { channels: u32, samples: u32 },
    Passed,
    End(u32),
}

// One channel or two: 5 is judged before the element, 15 after it.
fn sound_element(
    bits: &mut BitCursor<'_>,
    s: StreamInfo,
    st: State,
    channels: u32,
    scratch: &mut [i32],
) -> Result<Element, Refusal>
    requires { Sounding s st channels scratch.old }
    ensures { Turning s st.channels (λ packet. sound_element packet s st.channels st.samples channels) bits.old bits.new scratch.old scratch.new result }
{
    if (s.num_channels as u32) < st.channels + channels {
        return Err(Refusal::ManyChannels);
    }
    let samples = decode_audio_element(bits, s, channels, scratch)?;
    let known = st.samples.unwrap_or(samples);
    if known != samples {
        return Err(Refusal::Disagree);
    }
    Ok(Element::Audio { channels, samples })
}

// The sample number, if enough channels were heard.
fn end_element(bits: &mut BitCursor<'_>, s: StreamInfo, st: State) -> Result<u32, Refusal>
    ensures { Reads (λ n. end n) (λ packet. end_element packet s st.channels st.samples) bits.old bits.new result }
{
    bits.skip_to_byte()?;
    if st.channels < s.num_channels as u32 {
        return Err(Refusal::FewChannels);
    }
    Ok(st.samples.unwrap_or(0))
}

// SCE 0, CPE 1, CCE 2, LFE 3, DSE 4, PCE 5, FIL 6, END 7.
fn tagged_element(
    bits: &mut BitCursor<'_>,
    s: StreamInfo,
    st: State,
    scratch: &mut [i32],
) -> Result<Element, Refusal>
    requires { Turnable s st scratch.old }
    ensures { Turning s st.channels (λ packet. turn packet s st.channels st.samples) bits.old bits.new scratch.old scratch.new result }
{
    let tag = bits.read(3)?;
    match tag {
        0 | 3 => sound_element(bits, s, st, 1, scratch),
        1 => sound_element(bits, s, st, 2, scratch),
        2 | 5 => Err(Refusal::Unsupported),
        4 => {
            data_element(bits)?;
            Ok(Element::Passed)
        }
        6 => {
            fill_element(bits)?;
            Ok(Element::Passed)
        }
        _ => Ok(Element::End(end_element(bits, s, st)?)),
    }
}

// One element. A refusal leaves zeros in scratch.
pub fn next_element(
    bits: &mut BitCursor<'_>,
    s: StreamInfo,
    st: State,
    scratch: &mut [i32],
) -> Result<Element, Refusal>
    requires { Turnable s st scratch.old }
    ensures { Turns s st.channels (λ packet. turn packet s st.channels st.samples) bits.old bits.new scratch.old scratch.new result }
{
    let element = tagged_element(bits, s, st, scratch);
    if element.is_err() {
        clear(scratch, 2 * s.frame_length as usize);
    }
    element
}
