//! The questions that are put to glyph lists, runs and places before anything else.
ghost use Rattle.std.specs.Prelude.{◌≡◌, length};
ghost use Rattle.answers.specs.Questions.{answered, list_refused, place_refused, run_refused};

use crate::refusal::Refusal;

/// The most glyphs of a list or a run.
pub const MOST_GLYPHS: usize = 65_536;

/// Is there a glyph, and are there at most 65,536?
pub fn ask_list(glyphs: &[u32]) -> Result<(), Refusal>
    ensures { result ≡ answered (list_refused (length glyphs.now)) tt }
{
    if glyphs.is_empty() {
        return Err(Refusal::NoGlyph);
    }
    ask_run(glyphs)
}

/// Has the run at most 65,536 glyphs?
pub fn ask_run(run: &[u32]) -> Result<(), Refusal>
    ensures { result ≡ answered (run_refused (length run.now)) tt }
{
    if run.len() > MOST_GLYPHS {
        return Err(Refusal::TooLong);
    }
    Ok(())
}

/// Has the run at most 65,536 glyphs, and is the place in it?
pub fn ask_place(run: &[u32], place: usize) -> Result<(), Refusal>
    ensures { result ≡ answered (place_refused (length run.now) place) tt }
{
    ask_run(run)?;
    if place >= run.len() {
        return Err(Refusal::NotInRun);
    }
    Ok(())
}
