// A seat's settings and the five numbers that they are stored as. No `From`: both types are other crates'.
use crate::stored::Stored;
use bench::seats::Settings;

pub const NUMBERS: usize = 5;

// The settings that the words stand for.
pub fn of(words: &[u64; NUMBERS]) -> Settings {
    let [length, bend0, bend1, bend2, ratio] = *words;
    Settings {
        stiff_length: f64::of(length),
        stiff_bendtwist0: f64::of(bend0),
        stiff_bendtwist1: f64::of(bend1),
        stiff_bendtwist2: f64::of(bend2),
        conv_ratio: f64::of(ratio),
    }
}

pub fn numbers(settings: &Settings) -> [f64; NUMBERS] {
    [
        settings.stiff_length,
        settings.stiff_bendtwist0,
        settings.stiff_bendtwist1,
        settings.stiff_bendtwist2,
        settings.conv_ratio,
    ]
}
