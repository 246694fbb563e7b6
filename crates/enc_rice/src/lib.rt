// The codes of Rice data, turn after turn, out into lent bytes.
#![tactic(auto)]

ghost use Rattle.std.specs.Prelude.{◌∷◌, ◌++◌, ◌≤◌, length, replicate};
ghost use Rattle.rules.specs.Rice.{symbol_m};
ghost use Rattle.rules.specs.Writer.{rest_bits, symbol_bits, rice_code};
ghost use Rattle.enc_bits.specs.Sent.{Sent};
ghost use Rattle.enc_rice.specs.Code.{Codes, Parts, Sizes, Zeros, Turns, Turned, Puts, Writes, code_bits, run_code};

use dec_rice::{Coding, next_history, run_k, symbol_k, symbol_m};
use enc_bits::{Sink, pow2};
use words::fold;

// The last `len` bits of `bits`.
#[derive(Clone, Copy)]
struct Code {
    bits: u64,
    len: u32,
}

// The codes of a sample and of the run after it, if there is one, and what the next turn starts from: the sample, the history and the +1.
#[derive(Clone, Copy)]
struct Step {
    symbol: Code,
    run: Option<Code>,
    next: usize,
    history: u32,
    plus: u32,
}

// q ones, a zero and r: as r + 1 in k bits, but r = 0 goes without the last bit. With k = 1 it is 0.
fn short_code(q: u32, r: u32, k: u32) -> Code
    requires { Parts q r k }
    ensures { Codes (replicate q 1 ++ 0 ∷ rest_bits k r) result }
{
    let front = pow2(q + 1) - 2;
    if r == 0 {
        let zeros = k - 1;
        return Code {
            bits: front * pow2(zeros),
            len: q + 1 + zeros,
        };
    }
    Code {
        bits: front * pow2(k) + (r as u64 + 1),
        len: q + 1 + k,
    }
}

fn symbol_code(v: u32, k: u32, b: u32) -> Code
    requires { Sizes k b }
    ensures { Codes (symbol_bits k (symbol_m k) b v) result }
{
    let m = symbol_m(k);
    let q = v / m;
    if q < 9 {
        return short_code(q, v % m, k);
    }
    let unit = pow2(b);
    Code {
        bits: 511 * unit + v as u64 % unit,
        len: 9 + b,
    }
}

// How many samples are 0 from `from` on, up to the first that is not.
fn zeros_from(residuals: &[i32], from: usize) -> usize
    requires { from ≤ length residuals.now }
    ensures { Zeros residuals.now from result }
{
    for j in from..residuals.len() {
        if residuals[j] != 0 {
            return j - from;
        }
    }
    residuals.len() - from
}

// The sample at `i`, and the run after it if there is one: the zeros that it tells of are passed over.
fn turn(residuals: &[i32], i: usize, c: Coding, h: u32, plus: u32) -> Step
    requires { Turns c residuals.now i h }
    ensures { Turned c residuals.now i h plus result }
{
    let v = fold(residuals[i]);
    let k = symbol_k(c.kb, h);
    let symbol = symbol_code(v.saturating_sub(plus), k, c.bits);
    let next = next_history(c.factor, h, v);
    let left = residuals.len() - 1 - i;
    if left > 0 && next < 128 {
        let z = zeros_from(residuals, i + 1);
        let run = symbol_code(z as u32, run_k(next), 16);
        return Step {
            symbol,
            run: Some(run),
            next: i + 1 + z,
            history: 0,
            plus: 1,
        };
    }
    Step {
        symbol,
        run: None,
        next: i + 1,
        history: next,
        plus: 0,
    }
}

fn put_turn(sink: &mut Sink, bytes: &mut [u8], t: Step)
    requires { Puts sink.old t }
    ensures { Sent bytes.old bytes.new sink.old (code_bits t.symbol ++ run_code t.run) sink.new }
{
    sink.put(bytes, t.symbol.bits, t.symbol.len);
    if let Some(run) = t.run {
        sink.put(bytes, run.bits, run.len);
    }
}

// The Rice data of a channel. No range counts the turns, since each passes over the zeros of its run.
pub fn put_rice(sink: &mut Sink, bytes: &mut [u8], residuals: &[i32], c: Coding, mb: u8)
    requires { Writes c residuals.now sink.old }
    ensures { Sent bytes.old bytes.new sink.old (rice_code c.factor c.kb c.bits residuals.now 0 mb 0).bits sink.new }
{
    let mut history = mb as u32;
    let mut plus: u32 = 0;
    let mut i: usize = 0;
    while i < residuals.len() {
        let t = turn(residuals, i, c, history, plus);
        put_turn(sink, bytes, t);
        history = t.history;
        plus = t.plus;
        i = t.next;
    }
}
