// Worked examples of the codes and of whole runs, as tests over both fields.

#![tactic(auto)]

#[cfg(test)]
mod decodings;
#[cfg(test)]
mod files;
#[cfg(test)]
mod runs;
#[cfg(test)]
mod words;
