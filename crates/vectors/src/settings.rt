// What the lines of a block have set.
use crate::symbol::Symbol;
use fields::any::AnyField;
use fields::fault::FieldFault;

// One thing that a line sets.
#[derive(Drop)]
pub enum Setting {
    // The field, or why there is none of its modulus.
    Field(Result<AnyField, FieldFault>),
    Points(Vec<u16>),
    Dimension(u16),
    Repetition(u16),
    Multipliers(Vec<u16>),
    Trimmed(u16),
    File(Vec<u8>),
    Codewords(Vec<u16>),
}

// All that is set.
#[derive(Default, Drop)]
pub struct Settings {
    pub field: Option<AnyField>,
    pub points: Option<Vec<u16>>,
    pub dimension: Option<u16>,
    pub repetition: Option<u16>,
    pub multipliers: Option<Vec<u16>>,
    pub trimmed: Option<u16>,
    pub file: Option<Vec<u8>>,
    pub symbol: Option<Symbol>,
    pub codewords: Option<Vec<u16>>,
}

impl Settings {
    // Sets one thing; of two lines that set it the later counts, and a modulus that has no field leaves none.
    pub fn set(&mut self, setting: Setting) {
        match setting {
            Setting::Field(field) => self.field = field.ok(),
            Setting::Points(points) => self.points = Some(points),
            Setting::Dimension(dimension) => self.dimension = Some(dimension),
            Setting::Repetition(length) => self.repetition = Some(length),
            Setting::Multipliers(multipliers) => self.multipliers = Some(multipliers),
            Setting::Trimmed(count) => self.trimmed = Some(count),
            Setting::File(bytes) => self.file = Some(bytes),
            Setting::Codewords(codewords) => self.codewords = Some(codewords),
        }
    }
}
