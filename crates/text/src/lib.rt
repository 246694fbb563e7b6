// The writer's settings as text: decimal numbers between blanks, with comments from '#' to the end of a line.
#![tactic(auto)]

ghost use Rattle.std.specs.Prelude.{◌≡◌};
ghost use Rattle.text.specs.Text.{is_blank, kind_of, most_of, grown_to, between_of, comment_of, signed_of, digits_of, turn_of, signed_by, value_of, Takes, Tells};

use words::low_i16;

// What a byte of the text is.
#[derive(Clone, Copy)]
pub enum Kind {
    Digit(u32),
    Dash,
    Blank,
    Line,
    Hash,
    Other,
}

// Where the reader stands: inside a number it has the sign (true: below zero) and the size so far.
#[derive(Clone, Copy)]
pub enum Mode {
    Between,
    Comment,
    Signed,
    Digits(bool, u32),
}

// What a byte that may stand there does: the reader goes on, or a number has ended before it.
#[derive(Clone, Copy)]
pub enum Turn {
    On(Mode),
    Stores(Mode),
}

// Where the reader stands, and how many numbers it has.
#[derive(Clone, Copy)]
pub struct State {
    pub mode: Mode,
    pub count: usize,
}

// Why a text is no list of numbers: the byte at which it is wrong, or more numbers than there is room for.
#[derive(Clone, Copy)]
pub enum TextError {
    Wrong(usize),
    TooMany,
}

fn is_blank(byte: u8) -> bool
    ensures { result ≡ is_blank byte }
{
    (byte == 9) | ((byte == 12) | ((byte == 13) | (byte == 32)))
}

fn kind_of(byte: u8) -> Kind
    ensures { result ≡ kind_of byte }
{
    let blank = is_blank(byte);
    if byte == 10 {
        return Kind::Line;
    }
    if byte == 35 {
        return Kind::Hash;
    }
    if byte == 45 {
        return Kind::Dash;
    }
    if blank {
        return Kind::Blank;
    }
    if byte < 48 {
        return Kind::Other;
    }
    if byte < 58 {
        return Kind::Digit((byte - 48) as u32);
    }
    Kind::Other
}

fn most_of(below: bool) -> u64
    ensures { result ≡ most_of below }
{
    if below { 32768 } else { 32767 }
}

// One digit more, while the number fits 16 bits.
fn grown(below: bool, size: u32, digit: u32) -> Option<Turn>
    ensures { result ≡ grown_to below size digit }
{
    let most = most_of(below);
    let next = size as u64 * 10 + digit as u64;
    if most < next {
        return None;
    }
    Some(Turn::On(Mode::Digits(below, next as u32)))
}

fn between(kind: Kind) -> Option<Turn>
    ensures { result ≡ between_of kind }
{
    match kind {
        Kind::Digit(d) => grown(false, 0, d),
        Kind::Dash => Some(Turn::On(Mode::Signed)),
        Kind::Blank => Some(Turn::On(Mode::Between)),
        Kind::Line => Some(Turn::On(Mode::Between)),
        Kind::Hash => Some(Turn::On(Mode::Comment)),
        Kind::Other => None,
    }
}

fn comment(kind: Kind) -> Option<Turn>
    ensures { result ≡ comment_of kind }
{
    match kind {
        Kind::Digit(_) => Some(Turn::On(Mode::Comment)),
        Kind::Dash => Some(Turn::On(Mode::Comment)),
        Kind::Blank => Some(Turn::On(Mode::Comment)),
        Kind::Line => Some(Turn::On(Mode::Between)),
        Kind::Hash => Some(Turn::On(Mode::Comment)),
        Kind::Other => Some(Turn::On(Mode::Comment)),
    }
}

fn signed(kind: Kind) -> Option<Turn>
    ensures { result ≡ signed_of kind }
{
    match kind {
        Kind::Digit(d) => grown(true, 0, d),
        Kind::Dash => None,
        Kind::Blank => None,
        Kind::Line => None,
        Kind::Hash => None,
        Kind::Other => None,
    }
}

fn digits(below: bool, size: u32, kind: Kind) -> Option<Turn>
    ensures { result ≡ digits_of below size kind }
{
    match kind {
        Kind::Digit(d) => grown(below, size, d),
        Kind::Dash => None,
        Kind::Blank => Some(Turn::Stores(Mode::Between)),
        Kind::Line => Some(Turn::Stores(Mode::Between)),
        Kind::Hash => Some(Turn::Stores(Mode::Comment)),
        Kind::Other => None,
    }
}

fn turn_of(mode: Mode, kind: Kind) -> Option<Turn>
    ensures { result ≡ turn_of mode kind }
{
    match mode {
        Mode::Between => between(kind),
        Mode::Comment => comment(kind),
        Mode::Signed => signed(kind),
        Mode::Digits(below, size) => digits(below, size, kind),
    }
}

fn signed_by(below: bool, size: u32) -> i16
    ensures { result ≡ signed_by below size }
{
    if below {
        return low_i16(0 - size as i64);
    }
    low_i16(size as i64)
}

// The number that ends here. It fits, since no digit was taken past 16 bits.
fn value_of(mode: Mode) -> i16
    ensures { result ≡ value_of mode }
{
    match mode {
        Mode::Between => 0,
        Mode::Comment => 0,
        Mode::Signed => 0,
        Mode::Digits(below, size) => signed_by(below, size),
    }
}

// The turn at byte `at`, carried out.
fn carry(
    turn: Option<Turn>,
    state: State,
    numbers: &mut [i16; 68],
    at: usize,
) -> Result<State, TextError>
    ensures { Takes turn state at numbers.old numbers.new result }
{
    match turn {
        None => Err(TextError::Wrong(at)),
        Some(Turn::On(mode)) => Ok(State {
            mode,
            count: state.count,
        }),
        Some(Turn::Stores(mode)) => {
            if state.count < 68 {
                numbers[state.count] = value_of(state.mode);
                return Ok(State {
                    mode,
                    count: state.count + 1,
                });
            }
            Err(TextError::TooMany)
        }
    }
}

// The numbers of a text, in its order: how many there are, in places that are lent, since there is no heap. The end of the text ends its last line.
pub fn numbers_of(text: &[u8], numbers: &mut [i16; 68]) -> Result<usize, TextError>
    ensures { Tells text.now numbers.old numbers.new result }
{
    let mut state = State {
        mode: Mode::Between,
        count: 0,
    };
    for at in 0..text.len() {
        let turn = turn_of(state.mode, kind_of(text[at]));
        state = carry(turn, state, numbers, at)?;
    }
    let last = carry(turn_of(state.mode, Kind::Line), state, numbers, text.len())?;
    Ok(last.count)
}
