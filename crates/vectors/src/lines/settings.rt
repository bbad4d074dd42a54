// Lines that set something.
use crate::settings::Setting;
use std::alloc::Global;
use texts::fault::LineFault;
use texts::words::{Words, only};

// What a line sets, by its first word and those that follow.
pub fn parse_setting(
    heap: Global,
    first: &str,
    mut words: Words<'_>,
) -> Result<Setting, LineFault> {
    match first {
        "field" => {
            let field = words.field()?;
            words.end()?;
            Ok(Setting::Field(field))
        }
        "file" => Ok(Setting::File(parse_bytes(heap, words)?)),
        _ => setting_of(first, words.numbers(heap)?),
    }
}

// What a line with this first word and these numbers sets.
fn setting_of(first: &str, numbers: Vec<u16>) -> Result<Setting, LineFault> {
    match first {
        "points" => Ok(Setting::Points(numbers)),
        "multipliers" => Ok(Setting::Multipliers(numbers)),
        "codewords" => Ok(Setting::Codewords(numbers)),
        "dimension" => Ok(Setting::Dimension(only(&numbers)?)),
        "repetition" => Ok(Setting::Repetition(only(&numbers)?)),
        "trimmed" => Ok(Setting::Trimmed(only(&numbers)?)),
        _ => Err(LineFault::Unknown),
    }
}

// The bytes that are left of a line, in hexadecimal.
fn parse_bytes(heap: Global, words: Words<'_>) -> Result<Vec<u8>, LineFault> {
    words
        .map(|word| Ok(u8::from_str_radix(word, 16)?))
        .try_collect(heap)
}
