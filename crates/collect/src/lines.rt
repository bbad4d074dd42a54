// What a line of input says.
use crate::settings::Setting;
use std::alloc::Global;
use texts::fault::LineFault;
use texts::words::{Words, only};

// One call of a collector.
#[derive(Drop)]
pub enum Call {
    Issue(Vec<u16>),
    // The place, and then the numbers of the strip.
    Deliver(Vec<u16>),
    Strike(u16),
    Read,
}

#[derive(Drop)]
pub enum Line {
    Blank,
    Setting(Setting),
    Call(Call),
    // It is not understood; the answer of its place in the input says so.
    Unknown,
}

// What the line says.
pub fn parse_line(heap: Global, text: &str) -> Result<Line, LineFault> {
    let mut words = Words::of(text);
    let Some(first) = words.next() else {
        return Ok(Line::Blank);
    };
    if first == "field" {
        return Ok(Line::Setting(Setting::Field(words.field()?)));
    }
    let numbers = words.numbers(heap)?;
    match first {
        "issue" => Ok(Line::Call(Call::Issue(numbers))),
        "deliver" => Ok(Line::Call(Call::Deliver(numbers))),
        "strike" => Ok(Line::Call(Call::Strike(only(&numbers)?))),
        "read" if numbers.is_empty() => Ok(Line::Call(Call::Read)),
        _ => Ok(Line::Setting(setting_of(first, numbers)?)),
    }
}

// What a line with this first word and these numbers sets.
fn setting_of(first: &str, numbers: Vec<u16>) -> Result<Setting, LineFault> {
    match first {
        "evaluation" => Ok(Setting::Evaluation(numbers)),
        "repetition" => Ok(Setting::Repetition(only(&numbers)?)),
        "scaled" => Ok(Setting::Scaled(numbers)),
        "trimmed" => Ok(Setting::Trimmed(only(&numbers)?)),
        "depth" => Ok(Setting::Depth(only(&numbers)?)),
        _ => Err(LineFault::Unknown),
    }
}
