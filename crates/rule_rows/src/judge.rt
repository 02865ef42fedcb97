use crate::fit::are_specs;
use crate::own::{KINDS, OWN, spec};
use core_config::read_config;
use core_host::Name;
use plug_api::{Checked, ParamFault, PlugSpec, RuleRefusal, check_specs};
use plug_kinds::{Kind, KindState};
use stage_map::{CoreShape, PlugEntry, copy_name};
use std::alloc::{AllocError, Global};

/// What plug-ins of all kinds keep, in the order of `KINDS`, before any took an entry.
pub fn states(alloc: Global) -> Result<Vec<KindState>, AllocError> {
    let mut states = Vec::new(alloc);
    for kind in KINDS {
        states.push(KindState::new(alloc, *kind)?)?;
    }
    Ok(states)
}

/// What the plug-in of an entry says of itself once it took the entry, or the fault; those that are of no kind take no
/// parameters.
fn take(
    alloc: Global,
    states: &mut Vec<KindState>,
    entry: &PlugEntry,
) -> Result<PlugSpec, ParamFault> {
    for state in states.iter_mut() {
        if entry.kind.is(state.spec().name.text().as_str()) {
            state.configure(alloc, entry)?;
            return copied(state.spec().copy(alloc));
        }
    }
    for own in OWN {
        if entry.kind.is(own.name) {
            if let Some(param) = entry.params.items().first() {
                return Err(unknown(alloc, &param.key));
            }
            return copied(spec(alloc, *own));
        }
    }
    Err(ParamFault::NoMemory)
}

fn copied(spec: Result<PlugSpec, AllocError>) -> Result<PlugSpec, ParamFault> {
    match spec {
        Ok(spec) => Ok(spec),
        Err(_) => Err(ParamFault::NoMemory),
    }
}

fn unknown(alloc: Global, key: &Name) -> ParamFault {
    match copy_name(alloc, key) {
        Ok(key) => ParamFault::Unknown { key },
        Err(_) => ParamFault::NoMemory,
    }
}

/// Gives each entry to the plug-in of its kind, up to the first that is refused, and tries rules 4 to 13 on what they say
/// of themselves then.
fn judge_entries(
    alloc: Global,
    shape: CoreShape,
    entries: &Vec<PlugEntry>,
    states: &mut Vec<KindState>,
) -> Result<Checked, RuleRefusal> {
    if entries.len() > 32 {
        return Err(RuleRefusal::NoMemory);
    }
    let mut specs = Vec::new(alloc);
    for k in 0..entries.len() {
        match take(alloc, states, &entries[k]) {
            Ok(spec) => match specs.push(spec) {
                Ok(()) => {}
                Err(_) => return Err(RuleRefusal::NoMemory),
            },
            Err(fault) => {
                return Err(RuleRefusal::BadParam {
                    entry: k as u32,
                    fault,
                });
            }
        }
    }
    if specs.len() > 32 || !are_specs(&specs) {
        return Err(RuleRefusal::NoMemory);
    }
    check_specs(alloc, shape, &specs)
}

/// What the rules say of the text of a configuration, whose entries name one kind each and no two the same.
pub fn judge(
    alloc: Global,
    text: &String,
    states: &mut Vec<KindState>,
) -> Result<Checked, RuleRefusal> {
    match read_config(alloc, text.as_str().as_bytes()) {
        Ok(config) => judge_entries(alloc, config.shape, config.entries.items(), states),
        Err(_) => Err(RuleRefusal::NoMemory),
    }
}

/// The text of a configuration: its first lines, and its entries with a space between any two. An entry is its kind, and
/// then its parameters with commas before them.
pub fn text_of(alloc: Global, head: &str, entries: &str) -> Result<String, AllocError> {
    let mut text = String::from_str(alloc, head)?;
    for entry in entries.split_whitespace() {
        text.push_str("\n[[plugin]]\nkind = \"")?;
        let mut is_kind = true;
        for piece in entry.split(',') {
            text.push_str(piece)?;
            if is_kind {
                text.push_str("\"")?;
            }
            text.push_str("\n")?;
            is_kind = false;
        }
    }
    Ok(text)
}
