// The settings: what the lines before the first call say of the field, the code, its layers and the depth.
use crate::lines::Line;
use fields::any::AnyField;
use fields::fault::FieldFault;

// One thing that a line sets.
#[derive(Drop)]
pub enum Setting {
    // The field, or why there is none of its modulus.
    Field(Result<AnyField, FieldFault>),
    // k, and then the points.
    Evaluation(Vec<u16>),
    // The length.
    Repetition(u16),
    // The multipliers.
    Scaled(Vec<u16>),
    // How many numbers are left out.
    Trimmed(u16),
    Depth(u16),
}

// The code that is set.
#[derive(Clone, Copy)]
pub enum CodeChoice<'a> {
    Evaluation { k: u16, points: &'a [u16] },
    Repetition { length: u16 },
}

// All that is set.
#[derive(Clone, Copy, Default)]
pub struct Settings<'a> {
    pub field: Option<Result<AnyField, FieldFault>>,
    pub code: Option<CodeChoice<'a>>,
    pub multipliers: Option<&'a [u16]>,
    pub trimmed: Option<u16>,
    pub depth: Option<u16>,
}

impl<'a> Settings<'a> {
    // The settings of the lines before the first call; of two lines that set one thing the later counts.
    pub fn of(lines: &'a [Line]) -> Settings<'a> {
        let mut settings = Settings::default();
        for line in lines {
            match line {
                Line::Setting(setting) => settings.set(setting),
                Line::Call(_) => break,
                Line::Blank | Line::Unknown => {}
            }
        }
        settings
    }

    // Sets one thing; an evaluation code without k is none.
    fn set(&mut self, setting: &'a Setting) {
        match setting {
            Setting::Field(field) => self.field = Some(*field),
            Setting::Evaluation(numbers) => {
                self.code = match numbers.as_slice() {
                    [k, points @ ..] => Some(CodeChoice::Evaluation { k: *k, points }),
                    [] => None,
                };
            }
            Setting::Repetition(length) => {
                self.code = Some(CodeChoice::Repetition { length: *length });
            }
            Setting::Scaled(numbers) => self.multipliers = Some(numbers),
            Setting::Trimmed(count) => self.trimmed = Some(*count),
            Setting::Depth(depth) => self.depth = Some(*depth),
        }
    }
}
