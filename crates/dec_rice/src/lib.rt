// Rice symbols, and the residuals of a channel that they carry.
#![tactic(auto)]

ghost use Rattle.std.specs.Prelude.{◌≡◌, ◌<◌, length, IfOk};
ghost use Rattle.rules.specs.Symbol.{ones, symbol};
ghost use Rattle.rules.specs.Rice.{symbol_k, symbol_m, run_k, history_after, run_at, after_value, sample, rice};
ghost use Rattle.bitcursor.specs.Reads.{Reads};
ghost use Rattle.dec_rice.specs.Promise.{Sizes, Coded, Decompressed};
ghost use Rattle.dec_rice.specs.Steps.{Tracked, Running, Ready, Kept, step_of, residuals_of};

use bitcursor::BitCursor;
use buffers::clear;
use rules::Refusal;
use words::unfold;

// What a channel's Rice data is read with: the stream's kb, the channel's factor and its bits.
#[derive(Clone, Copy)]
pub struct Coding {
    pub kb: u32,
    pub factor: u32,
    pub bits: u32,
}

// What a sample starts from: the history, what its symbol gains, and the zeros that a run still owes.
#[derive(Clone, Copy)]
struct State {
    history: u32,
    plus: u32,
    owed: usize,
}

// A sample's value, and what the next sample starts from.
#[derive(Clone, Copy)]
struct Step {
    value: u32,
    next: State,
}

// The ones before a zero, at most 9.
fn count_ones(bits: &mut BitCursor<'_>) -> Result<u32, Refusal>
    ensures { Reads (λ q. q) (λ packet. ones packet 9) bits.old bits.new result }
{
    for q in 0..9 {
        if bits.read_bit()? == 0 {
            return Ok(q);
        }
    }
    Ok(9)
}

// m is 2^k - 1 and not 2^k, so k = 1 leaves no remainder and k is never 0. It is passed, since a run's is masked.
fn decode_rice_symbol(bits: &mut BitCursor<'_>, m: u32, k: u32, bps: u32) -> Result<u32, Refusal>
    requires { Sizes k m bps }
    ensures { Reads (λ v. v) (λ packet. symbol packet k m bps) bits.old bits.new result }
{
    let q = count_ones(bits)?;
    if q == 9 {
        return bits.read(bps);
    }
    if k == 1 {
        return Ok(q);
    }
    // The remainder r stands as r + 1 in k bits; r = 0 as k - 1 zeros, without the last bit.
    let high = bits.read(k - 1)?;
    if high == 0 {
        return Ok(q * m);
    }
    let low = bits.read_bit()?;
    Ok(q * m + (high * 2 + low - 1))
}

// The log2 of 3 or more is at least 1.
pub fn symbol_k(kb: u32, h: u32) -> u32
    ensures { result ≡ symbol_k kb h }
{
    let k = 31 - u32::leading_zeros((h >> 9) + 3);
    if kb < k {
        return kb;
    }
    k
}

pub fn symbol_m(k: u32) -> u32
    requires { k < 32 }
    ensures { result ≡ symbol_m k }
{
    (1u32 << k) - 1
}

// Up to 8, for h = 0.
pub fn run_k(h: u32) -> u32
    requires { h < 128 }
    ensures { result ≡ run_k h }
{
    let k = u32::leading_zeros(h) - 24 + ((h + 16) >> 6);
    k
}

pub fn next_history(factor: u32, h: u32, v: u32) -> u32
    requires { Tracked factor h }
    ensures { result ≡ history_after factor h v }
{
    if v > 65535 {
        return 65535;
    }
    h + v * factor - ((h * factor) >> 9)
}

// The run that follows a value, with `left` samples to come. Its k may be above kb: only m is masked.
fn after_run(bits: &mut BitCursor<'_>, c: Coding, h: u32, left: usize) -> Result<usize, Refusal>
    requires { Running c h }
    ensures { Reads (λ run. run) (λ packet. run_at (symbol packet) c.factor c.kb c.bits h left) bits.old bits.new result }
{
    let k = run_k(h);
    let m = symbol_m(k) & symbol_m(c.kb);
    let run = decode_rice_symbol(bits, m, k, 16)? as usize;
    if left < run {
        return Err(Refusal::Run);
    }
    Ok(run)
}

// What follows a value that was read, with `left` samples to come.
fn after_value(
    bits: &mut BitCursor<'_>,
    c: Coding,
    h: u32,
    left: usize,
    value: u32,
) -> Result<Step, Refusal>
    requires { Ready c h }
    ensures reads { Reads step_of (λ packet. after_value (symbol packet) c.factor c.kb c.bits h left value) bits.old bits.new result }
    ensures kept { IfOk result (λ s. Kept s.next) }
{
    let history = next_history(c.factor, h, value);
    if left > 0 && history < 128 {
        let owed = after_run(bits, c, history, left)?;
        let next = State {
            history: 0,
            plus: 1,
            owed,
        };
        return Ok(Step { value, next });
    }
    let next = State {
        history,
        plus: 0,
        owed: 0,
    };
    Ok(Step { value, next })
}

fn next_sample(
    bits: &mut BitCursor<'_>,
    c: Coding,
    state: State,
    left: usize,
) -> Result<Step, Refusal>
    requires { Ready c state.history }
    ensures reads { Reads step_of (λ packet. sample (symbol packet) c.factor c.kb c.bits state.history state.plus left) bits.old bits.new result }
    ensures kept { IfOk result (λ s. Kept s.next) }
{
    let k = symbol_k(c.kb, state.history);
    let s = decode_rice_symbol(bits, symbol_m(k), k, c.bits)?;
    let value = std::num::wrapping_add_u32(s, state.plus);
    after_value(bits, c, state.history, left, value)
}

// All samples; after a refusal `buf` holds those before it.
fn read_samples(bits: &mut BitCursor<'_>, c: Coding, mb: u8, buf: &mut [i32]) -> Result<(), Refusal>
    requires { Coded c }
    ensures { Reads (λ _. buf.new) (λ packet p. residuals_of (rice (symbol packet) c.factor c.kb c.bits (length buf.old) 0 mb 0 p)) bits.old bits.new result }
{
    let mut state = State {
        history: mb as u32,
        plus: 0,
        owed: 0,
    };
    for i in 0..buf.len() {
        if state.owed > 0 {
            buf[i] = 0;
            state.owed -= 1;
        } else {
            let step = next_sample(bits, c, state, buf.len() - 1 - i)?;
            buf[i] = unfold(step.value);
            state = step.next;
        }
    }
    Ok(())
}

// A channel's residuals; all zero after a refusal.
pub fn rice_decompress(
    bits: &mut BitCursor<'_>,
    c: Coding,
    mb: u8,
    buf: &mut [i32],
) -> Result<(), Refusal>
    requires { Coded c }
    ensures { Decompressed (λ packet. rice (symbol packet) c.factor c.kb c.bits (length buf.old) 0 mb 0) bits.old bits.new buf.old buf.new result }
{
    let answer = read_samples(bits, c, mb, buf);
    if answer.is_err() {
        let n = buf.len();
        clear(buf, n);
    }
    answer
}
