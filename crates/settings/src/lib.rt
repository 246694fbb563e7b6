// The writer's settings, from the flat form in which another language hands them over.
#![tactic(auto)]

ghost use Rattle.std.specs.Prelude.{◌≡◌, ◌≤◌, ◌<◌, length, take};
ghost use Rattle.settings.specs.Flat.{field_at, channel_of, no_channel, unfit, with_second, settings_of};

use rules::{ChannelSettings, PackingSettings};
use words::bits_of;

// A value below zero counts as a large number, so it is out of range.
fn field_at(places: &[i16], at: usize) -> u32
    requires { at < length places.now }
    ensures { result ≡ field_at places.now at }
{
    bits_of(places[at] as i32)
}

fn coefs_of(places: &[i16]) -> [i16; 30]
    requires { 30 ≤ length places.now }
    ensures { result ≡ take 30 places.now }
{
    let mut coefs = [0i16; 30];
    coefs.copy_from_slice(&places[..30]);
    coefs
}

fn channel_of(places: &[i16]) -> ChannelSettings
    requires { 33 ≤ length places.now }
    ensures { result ≡ channel_of places.now }
{
    ChannelSettings {
        pb_factor: field_at(places, 0),
        quant: field_at(places, 1),
        order: field_at(places, 2),
        coefs: coefs_of(&places[3..]),
    }
}

fn no_channel() -> ChannelSettings
    ensures { result ≡ no_channel }
{
    ChannelSettings {
        pb_factor: 0,
        quant: 0,
        order: 0,
        coefs: [0; 30],
    }
}

// Out of range, so that the writer refuses a wrong length where it judges settings.
fn unfit_settings() -> PackingSettings
    ensures { result ≡ unfit }
{
    PackingSettings {
        mix_bits: 8,
        mix_res: 0,
        first: no_channel(),
        second: no_channel(),
    }
}

fn with_second(flat: &[i16], second: ChannelSettings) -> PackingSettings
    requires { 35 ≤ length flat.now }
    ensures { result ≡ with_second flat.now second }
{
    PackingSettings {
        mix_bits: field_at(flat, 0),
        mix_res: field_at(flat, 1),
        first: channel_of(&flat[2..]),
        second,
    }
}

// Every slice and every number of channels has an answer: it is the writer that refuses.
pub fn settings_of(flat: &[i16], channels: u8) -> PackingSettings
    ensures { result ≡ settings_of channels flat.now }
{
    if flat.len() != 2 + 33 * (channels as usize) {
        return unfit_settings();
    }
    if channels == 1 {
        return with_second(flat, no_channel());
    }
    if channels == 2 {
        return with_second(flat, channel_of(&flat[35..]));
    }
    unfit_settings()
}
