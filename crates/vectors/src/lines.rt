// What a line of input says.
use crate::questions::Question;
use crate::settings::Setting;
use crate::symbol::Symbol;
use questions::{parse_plain_question, parse_question};
use settings::parse_setting;
use std::alloc::{AllocError, Global};
use texts::fault::LineFault;
use texts::words::Words;

mod questions;
mod settings;

#[derive(Drop)]
pub enum Line {
    // An empty line ends a block.
    Blank,
    Comment,
    // Where the expected answers come from.
    Against(String),
    // A row of the table, by its title.
    Group(String),
    // A symbol, with the line's text as the title of a row.
    Symbol(String, Symbol),
    Setting(Setting),
    Question(Question),
}

// What the line says.
pub fn parse_line(heap: Global, text: &str) -> Result<Line, LineFault> {
    let mut words = Words::of(text);
    let Some(first) = words.next() else {
        return Ok(Line::Blank);
    };
    if first.starts_with('#') {
        return Ok(Line::Comment);
    }
    match first {
        "against" => Ok(Line::Against(rest_of(heap, text)?)),
        "group" => Ok(Line::Group(rest_of(heap, text)?)),
        "symbol" => {
            let symbol = parse_symbol(words)?;
            Ok(Line::Symbol(String::from_str(heap, text)?, symbol))
        }
        _ => parse_example(heap, first, text, words),
    }
}

// The text after the first word of a line.
fn rest_of(heap: Global, text: &str) -> Result<String, AllocError> {
    match text.trim().split_once(' ') {
        Some((_, rest)) => String::from_str(heap, rest),
        None => Ok(String::new(heap)),
    }
}

// A symbol: its number, its kind, its check numbers and its wrong numbers.
fn parse_symbol(mut words: Words<'_>) -> Result<Symbol, LineFault> {
    let _number = words.number::<u16>()?;
    let kind = words.word()?.parse()?;
    words.expect("checks")?;
    let checks = words.number()?;
    words.expect("wrong")?;
    let wrong = words.number()?;
    words.end()?;
    Ok(Symbol {
        kind,
        checks,
        wrong,
    })
}

// A question where the line has `=` or begins with a word that asks, and a setting elsewhere.
fn parse_example(
    heap: Global,
    first: &str,
    text: &str,
    words: Words<'_>,
) -> Result<Line, LineFault> {
    if let Some((asked, expected)) = text.split_once('=') {
        let question = parse_question(heap, first, Words::of(asked), Words::of(expected))?;
        return Ok(Line::Question(question));
    }
    match first {
        "received" | "kept" | "row" => {
            Ok(Line::Question(parse_plain_question(heap, first, words)?))
        }
        _ => Ok(Line::Setting(parse_setting(heap, first, words)?)),
    }
}
