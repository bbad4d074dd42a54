// The table: what was compared with what, and whether it agrees.
ghost use Rattle.std.specs.Prelude.{◌≡◌, ℕ, ◌<◌};
ghost use Rattle.vectors.specs.Rows.{Counted, Ended};

use crate::answers::ask;
use crate::lines::Line;
use crate::settings::Settings;
use crate::tally::Tally;
use std::io;
use texts::fault::understood;

// The block that is read, the row that it belongs to, and what was compared so far.
#[derive(Drop)]
pub struct Bench<'a> {
    rt: &'a HostRuntime,
    settings: Settings,
    source: String,
    title: String,
    row: Tally,
    total: Tally,
}

impl<'a> Bench<'a> {
    // Nothing is read yet.
    pub fn new(rt: &'a HostRuntime) -> Bench<'a> {
        Bench {
            rt,
            settings: Settings::default(),
            source: String::new(rt.alloc()),
            title: String::new(rt.alloc()),
            row: Tally::default(),
            total: Tally::default(),
        }
    }

    // Prints the head of the table.
    pub fn begin(&self) -> io::Result<()> {
        println!(self.rt;
            "compared  verdict  what                                           against"
        )
    }

    // Takes one more line, or nothing where it is not understood.
    pub fn take(&mut self, at: usize, line: Option<Line>) -> io::Result<()> {
        let heap = self.rt.alloc();
        let Some(line) = line else {
            return self.count(at, None);
        };
        match line {
            Line::Blank => self.settings = Settings::default(),
            Line::Comment => {}
            Line::Against(source) => {
                self.end_row()?;
                self.source = source;
            }
            Line::Group(title) => {
                self.end_row()?;
                self.title = title;
            }
            Line::Symbol(title, symbol) => {
                self.end_row()?;
                self.title = title;
                self.settings = Settings::default();
                self.settings.symbol = Some(symbol);
            }
            Line::Setting(setting) => self.settings.set(setting),
            Line::Question(question) => {
                let tally = understood(ask(heap, &self.settings, &question))?;
                self.count(at, tally)?;
            }
        }
        Ok(())
    }

    // Counts what a line compared; one that could not be asked, or compared nothing, differs.
    fn count(&mut self, at: usize, tally: Option<Tally>) -> io::Result<()>
        ensures { Counted self.old.row tally self.new.row result }
    {
        let tally = match tally {
            Some(tally) if tally.compared > 0 => tally,
            _ => {
                println!(self.rt; "line {at} is not understood")?;
                Tally::of(false)
            }
        };
        if tally.differing > 0 {
            println!(self.rt; "line {at} DIFFERS")?;
        }
        self.row = self.row + tally;
        Ok(())
    }

    // Prints the row that ends here, if one was begun; a row that compares nothing differs.
    fn end_row(&mut self) -> io::Result<()>
        ensures { Ended self.old.row self.old.total self.new.total result }
    {
        if self.row.compared == 0 {
            if self.title.is_empty() {
                return Ok(());
            }
            self.row = Tally::of(false);
        }
        let compared = self.row.compared;
        let verdict = self.row.verdict();
        let title = self.title.as_str();
        let source = self.source.as_str();
        println!(self.rt; "{compared:>8}  {verdict:<7}  {title:<45}  {source}")?;
        self.total = self.total + self.row;
        self.row = Tally::default();
        self.title.clear();
        Ok(())
    }

    // Prints the last row, and how much was compared and differs.
    pub fn finish(&mut self) -> io::Result<()> {
        self.end_row()?;
        let compared = self.total.compared;
        let differing = self.total.differing;
        println!(self.rt; "{compared} compared, {differing} differ")
    }
}
