// Real symbols, decoded as words of their codes.
ghost use Rattle.std.specs.Prelude.{◌≡◌, ℕ, IfOk};
ghost use Rattle.vectors.specs.Decodings.{Finds, Lost};

use super::{decode, issue};
use crate::entries::{all_present, marks_of};
use crate::questions::Answer;
use crate::settings::Settings;
use crate::symbol::Symbol;
use crate::tally::Tally;
use codes::checks::count_missing;
use codes::fault::CodeFault;
use codes::interface::{Code, Issuer};
use evaluation::Evaluation;
use fields::any::AnyField;
use fields::field::Field;
use layers::Scaled;
use std::alloc::{AllocError, Global};
use symbols::{write_multipliers, write_points};
use texts::fault::LineFault;

// Decodes the symbol that is set as it was made and as it was received; its code has to have multipliers.
pub fn ask_symbol(
    heap: Global,
    settings: &Settings,
    received: &[Option<u16>],
) -> Result<Tally, LineFault> {
    let (Some(symbol), Some(codewords)) = (settings.symbol, &settings.codewords) else {
        return Err(LineFault::Unknown);
    };
    match symbol.kind.field() {
        Ok(AnyField::Prime(field)) => ask_block(heap, field, symbol, codewords, received),
        Ok(AnyField::Bytes(field)) => ask_block(heap, field, symbol, codewords, received),
        Err(_) => Err(LineFault::Unknown),
    }
}

// Decodes a block of a symbol over its field.
fn ask_block<F: Field + Copy>(
    heap: Global,
    field: F,
    symbol: Symbol,
    codewords: &[u16],
    received: &[Option<u16>],
) -> Result<Tally, LineFault> {
    let n = u16::try_from(codewords.len()).unwrap_or(u16::MAX);
    let k = n.saturating_sub(symbol.checks);
    let mut points = vec![in heap; 0; codewords.len()]?;
    let mut multipliers = vec![in heap; 0; codewords.len()]?;
    write_points(&field, symbol.kind.base(), &mut points);
    if write_multipliers(&field, symbol.kind.first_root(), &points, &mut multipliers).is_err() {
        return Err(LineFault::Unknown);
    }
    let code = Scaled::new(field, multipliers, Evaluation::new(field, n, k, points));
    let made = all_present(heap, codewords)?;
    let missing = count_missing(&marks_of(heap, received)?);
    let undamaged = compare_found(heap, &code, codewords, &made, 0)?;
    let damaged = if symbol.is_within_reach(missing) {
        compare_found(heap, &code, codewords, received, usize::from(symbol.wrong))?
    } else {
        compare_lost(heap, &code, received)?
    };
    Ok(undamaged + damaged)
}

// Decodes, and compares the wrong count, and the word of the message found with the codewords. Where nothing differs, a
// message within reach has these.
fn compare_found<C: Code>(
    heap: Global,
    code: &C,
    codewords: &[u16],
    received: &[Option<u16>],
    wrong: usize,
) -> Result<Tally, AllocError>
    ensures { IfOk result (λ t. t.differing ≡ 0 → Finds (C.Issuer.meaning code.now) codewords.now received.now wrong) }
{
    let Answer::Message {
        message,
        wrong: found,
    } = decode(heap, code, received)?
    else {
        return Ok(Tally::of(false));
    };
    match issue(heap, code, &message)? {
        Ok(word) => Ok(Tally::of_numbers(codewords, &word) + Tally::of(found == wrong)),
        Err(_) => Ok(Tally::of(false)),
    }
}

// Decodes what is not within reach, and compares the refusal. Where nothing differs, no message is within reach.
fn compare_lost<C: Code>(
    heap: Global,
    code: &C,
    received: &[Option<u16>],
) -> Result<Tally, AllocError>
    ensures { IfOk result (λ t. t.differing ≡ 0 → Lost (C.Issuer.meaning code.now) received.now) }
{
    match decode(heap, code, received)? {
        Answer::Refused(number) => Ok(Tally::of(number == CodeFault::Reach.number())),
        _ => Ok(Tally::of(false)),
    }
}
