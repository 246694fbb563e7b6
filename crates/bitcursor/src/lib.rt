// The bits of a packet, most significant first. The place is a byte and a bit in it, so that no packet length overflows.
#![tactic(auto)]

ghost use Rattle.std.specs.Prelude.{◌≡◌, ◌+◌, ◌*◌, ◌≤◌, ◌<◌};
ghost use Rattle.rules.specs.Bits.{bit_of, place_of, bits_of, field, skip, skip_to_byte};
ghost use Rattle.bitcursor.specs.Reads.{Enough, Reads};

use rules::{Place, Refusal};
use std::marker::Model;

// A packet and a place in it: what is read next. A read that comes up short leaves it where the read began.
#[derive(Drop)]
pub struct BitCursor<'a> {
    packet: &'a [u8],
    byte: usize,
    bit: u32,
}

impl<'a> Model for BitCursor<'a> {
    ghost use Rattle.std.specs.Prelude.{◌+◌, ◌*◌, ◌<◌};
    ghost use Rattle.rules.specs.Bits.{bits_of};
    ghost use Rattle.laws.specs.Bytes.{bit_lt};
    ghost use Rattle.bitcursor.specs.Cursor.{Cursor};

    ghost Value = { Cursor };

    ghost view = { λ c. record { bits = bits_of c.packet.now; at = c.byte * 8 + c.bit; binary = bit_lt c.packet.now } };

    ghost invariant = { λ c. c.bit < 8 };
}

// Whether `bits` more bits lie in a packet of `len` bytes.
fn enough(len: usize, byte: usize, bit: u32, bits: u64) -> bool
    requires { bit < 8 }
    ensures { Enough (byte * 8 + bit + bits) (len * 8) result }
{
    if len < byte {
        return false;
    }
    let left = (len - byte) as u64;
    let need = bits / 8 + (bit as u64 + bits % 8 + 7) / 8;
    need <= left
}

impl<'a> BitCursor<'a> {
    pub fn new(packet: &'a [u8]) -> Self
        ensures bits { result.bits ≡ bits_of packet.now }
        ensures at { result.at ≡ 0 }
    {
        BitCursor {
            packet,
            byte: 0,
            bit: 0,
        }
    }

    // At any place: only the last three bits of its bit count.
    pub fn at(packet: &'a [u8], place: Place) -> Self
        ensures bits { result.bits ≡ bits_of packet.now }
        ensures at { result.at ≡ bit_of place }
    {
        BitCursor {
            packet,
            byte: place.byte,
            bit: place.bit % 8,
        }
    }

    // Another cursor at the same place.
    pub fn fork(&self) -> BitCursor<'a>
        ensures { result ≡ self.now }
    {
        BitCursor {
            packet: self.packet,
            byte: self.byte,
            bit: self.bit,
        }
    }

    pub fn place(&self) -> Place
        ensures { result ≡ place_of self.now.at }
    {
        let byte = self.byte;
        let bit = self.bit;
        Place { byte, bit }
    }

    pub fn read(&mut self, bits: u32) -> Result<u32, Refusal>
        requires { bits ≤ 32 }
        ensures { Reads (λ v. v) (λ packet. field packet bits) self.old self.new result }
    {
        if !enough(self.packet.len(), self.byte, self.bit, bits as u64) {
            return Err(Refusal::Short);
        }
        let mut v: u32 = 0;
        for i in 0..bits {
            let k = self.bit + i;
            let j = self.byte + (k / 8) as usize;
            v = v * 2 + (self.packet[j] as u32 >> (7 - k % 8)) % 2;
        }
        let end = self.bit + bits;
        self.byte += (end / 8) as usize;
        self.bit = end % 8;
        Ok(v)
    }

    pub fn read_bit(&mut self) -> Result<u32, Refusal>
        ensures { Reads (λ v. v) (λ packet. field packet 1) self.old self.new result }
    {
        self.read(1)
    }

    pub fn skip(&mut self, bits: u64) -> Result<(), Refusal>
        ensures { Reads (λ v. v) (λ packet. skip packet bits) self.old self.new result }
    {
        if !enough(self.packet.len(), self.byte, self.bit, bits) {
            return Err(Refusal::Short);
        }
        let end = self.bit as u64 + bits % 8;
        self.byte += (bits / 8) as usize + (end / 8) as usize;
        self.bit = (end % 8) as u32;
        Ok(())
    }

    // Goes to the next byte edge, or stays on one.
    pub fn skip_to_byte(&mut self) -> Result<(), Refusal>
        ensures { Reads (λ v. v) skip_to_byte self.old self.new result }
    {
        let to_edge = (8 - self.bit as u64) % 8;
        self.skip(to_edge)
    }
}
