// The answers: a collector of the code that the settings put together, and what each line gives.
use crate::lines::Line;
use crate::session::{Refusal, Session};
use crate::settings::{CodeChoice, Settings};
use carrier::collector::Collector;
use codes::interface::Code;
use evaluation::Evaluation;
use fields::any::AnyField;
use fields::field::Field;
use layers::{Scaled, Trimmed};
use repetition::Repetition;
use std::io;

// The lines of the input, and what those before the first call have set.
#[derive(Clone, Copy)]
pub struct Bench<'a> {
    rt: &'a HostRuntime,
    settings: Settings<'a>,
    lines: &'a [Line],
}

impl<'a> Bench<'a> {
    // The settings of the lines count for all their calls.
    pub fn new(rt: &'a HostRuntime, lines: &'a [Line]) -> Bench<'a> {
        Bench {
            rt,
            settings: Settings::of(lines),
            lines,
        }
    }

    // Answers all lines with the field that is set. Which field it is gets asked once, here: `AnyField` would ask at each sum and
    // product, and a word over GF(256) would take several times as long.
    pub fn answer_all(&self) -> io::Result<()> {
        match self.settings.field {
            Some(Ok(AnyField::Prime(field))) => self.with_field(field),
            Some(Ok(AnyField::Bytes(field))) => self.with_field(field),
            Some(Err(fault)) => println!(self.rt; "{fault}"),
            None => println!(self.rt; "no field is set"),
        }
    }

    // Goes on with the code that is set. Each field, each code and each layer is a type of its own, so each step is a generic
    // function.
    fn with_field<F: Field + Copy>(&self, field: F) -> io::Result<()> {
        match self.settings.code {
            Some(CodeChoice::Evaluation { k, points }) => {
                let n = u16::try_from(points.len()).unwrap_or(u16::MAX);
                self.with_code(field, Evaluation::new(field, n, k, points))
            }
            Some(CodeChoice::Repetition { length }) => {
                self.with_code(field, Repetition::new(field.order(), usize::from(length)))
            }
            None => println!(self.rt; "no code is set"),
        }
    }

    // Goes on with the multipliers, if any are set.
    fn with_code<F: Field + Copy, C: Code + Drop>(&self, field: F, code: C) -> io::Result<()> {
        match self.settings.multipliers {
            Some(multipliers) => self.with_scaled(Scaled::new(field, multipliers, code)),
            None => self.with_scaled(code),
        }
    }

    // Goes on with what is trimmed, if anything is.
    fn with_scaled<C: Code + Drop>(&self, code: C) -> io::Result<()> {
        match self.settings.trimmed {
            Some(count) => self.with_layers(Trimmed::new(code, usize::from(count))),
            None => self.with_layers(code),
        }
    }

    // Answers the lines by a collector of the code and the depth that is set.
    fn with_layers<C: Code + Drop>(&self, code: C) -> io::Result<()> {
        let Some(depth) = self.settings.depth else {
            return println!(self.rt; "no depth is set");
        };
        self.answer_lines(Session {
            rt: self.rt,
            collector: Collector::new(code, usize::from(depth)),
        })
    }

    // Answers line after line; what would set something after the first call is not understood.
    fn answer_lines<C: Code + Drop>(&self, mut session: Session<'_, C>) -> io::Result<()> {
        // Blank and unknown lines stand before and after the first call, so a flag is no worse than two lists of lines.
        let mut called = false;
        for (i, line) in self.lines.iter().enumerate() {
            let answer = match line {
                Line::Call(call) => {
                    called = true;
                    session.answer(call)
                }
                Line::Blank => Ok(()),
                Line::Setting(_) if !called => Ok(()),
                Line::Setting(_) | Line::Unknown => Err(Refusal::Unknown),
            };
            match answer {
                Ok(()) => {}
                Err(Refusal::Unknown) => {
                    println!(self.rt; "unknown line {}", i.saturating_add(1))?;
                }
                Err(Refusal::Fault(fault)) => println!(self.rt; "{fault}")?,
                Err(Refusal::Output(error)) => return Err(error),
            }
        }
        Ok(())
    }
}
