// What holds of all files.
ghost use Rattle.file.specs.Theorems.{ReadsBack, ToldApart, RefusedRightly};

// What was written is read back: the same heading, and the same strips.
pub fn reads_back()
    ensures { ReadsBack }
{}

// Two headings, or two sheets, never give one file.
pub fn told_apart()
    ensures { ToldApart }
{}

// No file is refused that has a fit heading and its strips.
pub fn refused_rightly()
    ensures { RefusedRightly }
{}
