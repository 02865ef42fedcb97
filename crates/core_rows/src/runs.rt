use crate::hosts::{config, end_of, host, words};
use crate::{caches, csrs, jumps, loads, units};
use core_host::Port;
use core_tool::Status;
use std::alloc::{AllocError, Global};

/// A run with `--trace`: the core, the options behind, the image, and what is pushed on the two ports.
pub type Run = (
    &'static str,
    &'static str,
    &'static [u32],
    &'static str,
    &'static str,
);

/// The bytes of words, the lowest first.
pub fn bytes_of(alloc: Global, image: &[u32]) -> Result<Vec<u8>, AllocError> {
    let mut bytes = Vec::new(alloc);
    for word in image {
        bytes.extend_from_slice(&word.to_le_bytes())?;
    }
    Ok(bytes)
}

/// Whether a call on this configuration and image ends so: the status, and what is pushed on the two ports; the line on that of notes
/// counts up to its cycles alone where `line` ends with a blank.
pub fn ends(
    alloc: Global,
    text: &str,
    config: &str,
    image: &[u32],
    wanted: (Status, &str, &str),
) -> Result<bool, AllocError> {
    let bytes = bytes_of(alloc, image)?;
    let mut host = host(alloc, config.as_bytes(), bytes.as_slice(), &[], 0)?;
    let words = words(alloc, text)?;
    let status = end_of(alloc, &words, &mut host)?;
    let (end, main, line) = wanted;
    let notes = host.pushed(Port::Notes).as_slice();
    let has_line = if line.ends_with(' ') {
        notes.starts_with(line.as_bytes())
    } else {
        notes == line.as_bytes()
    };
    Ok(status == end && host.pushed(Port::Main).as_slice() == main.as_bytes() && has_line)
}

/// What the line says before the cycles.
fn before_cycles(line: &str) -> &str {
    match line.find("cycles") {
        Some(at) => line.get(..at).unwrap_or(""),
        None => line,
    }
}

/// Whether each run ends as its row says.
fn all_end(alloc: Global, runs: &[Run]) -> Result<bool, AllocError> {
    for (core, options, image, main, line) in runs {
        let text = format!(in alloc; "run c i --trace{options}")?;
        if !ends(
            alloc,
            text.as_str(),
            *core,
            *image,
            (Status::Stopped, *main, *line),
        )? {
            return Ok(false);
        }
    }
    Ok(true)
}

/// Whether each run has its events with so many stages, cycles aside; with these options where its row has none.
fn have_events(alloc: Global, runs: &[Run], stages: &str, wait: &str) -> Result<bool, AllocError> {
    for (core, options, image, main, line) in runs {
        let options = if options.is_empty() { wait } else { *options };
        let text = format!(in alloc; "run c i --trace{options}")?;
        let config = config(alloc, *core, stages)?;
        let wanted = (Status::Stopped, *main, before_cycles(*line));
        if !ends(alloc, text.as_str(), config.as_str(), *image, wanted)? {
            return Ok(false);
        }
    }
    Ok(true)
}

/// Whether the runs of each core have their events and cycles.
pub fn runs_are_right(alloc: Global) -> Result<bool, AllocError> {
    Ok(
        all_end(alloc, jumps::RUNS)?
            && all_end(alloc, units::RUNS)?
            && all_end(alloc, loads::RUNS)?
            && all_end(alloc, caches::RUNS)?,
    )
}

/// Whether runs have the same events with so many stages, and with these options where their rows have none.
pub fn events_are_right(alloc: Global, stages: &str, wait: &str) -> Result<bool, AllocError> {
    Ok(
        have_events(alloc, jumps::RUNS, stages, wait)?
            && have_events(alloc, units::RUNS, stages, wait)?
            && have_events(alloc, loads::RUNS, stages, wait)?,
    )
}

/// Whether each configuration is accepted, or refused with its line.
fn all_are_judged(alloc: Global, rules: &[(&str, &str)]) -> Result<bool, AllocError> {
    for (core, line) in rules {
        let wanted = if line.is_empty() {
            (Status::Done, "accepted\n", "")
        } else {
            (Status::RulesRefused, "", *line)
        };
        if !ends(alloc, "rules c", *core, &[], wanted)? {
            return Ok(false);
        }
    }
    Ok(true)
}

/// Whether each configuration is judged as it is to be.
pub fn rules_are_right(alloc: Global) -> Result<bool, AllocError> {
    Ok(
        all_are_judged(alloc, jumps::RULES)?
            && all_are_judged(alloc, units::RULES)?
            && all_are_judged(alloc, loads::RULES)?
            && all_are_judged(alloc, csrs::RULES)?
            && all_are_judged(alloc, caches::RULES)?,
    )
}
