//! A cores file's cores, once more, without threads.

ghost use Rattle.std.specs.Prelude.{◌≡◌, ◌≤◌, IfOk, IfErr};
ghost use Rattle.fl_cores_file.specs.Files.{file_from};
ghost use Rattle.fl_cores.specs.Promised.{config_in, IsFault, WantsNoThread};
ghost use Rattle.fl_cores.specs.declared.fault.CoresFault.TheVariants.{Memory as OutOfMemory};
ghost use Rattle.fl_cores.specs.Wired.{Wires, WiresOrRefuses};

use crate::fault::CoresFault;
use crate::run::wire_cores;
use fl_cores_file::{CoresFile, CoresText, Job, read_cores_text};
use fl_cores_file_laws::{law_files_join, law_set_ups_are_the_machines};
use fl_cores_parts::WiredCores;
use fl_model::{BackEnd, Event};
use fl_script_lines::ScriptNames;
use fl_world::Config;
use std::alloc::{AllocError, Global};

/// What there is in a cores file beside its cores and jobs, in texts and numbers.
#[derive(Drop)]
pub struct FileLayout {
    /// The slots of each ring, in order of making.
    pub slots: Vec<usize>,
    /// Of each job whether it is done before the cores run: a reply rule of a binding that is set up.
    pub done_before: Vec<bool>,
    /// The name of each binding, by its number.
    pub bindings: Vec<Vec<u8>>,
    /// By core the names of its dispatchers, in order of making.
    pub dispatchers: Vec<Vec<Vec<u8>>>,
}

/// A cores file's cores as their run begins, and what else there is in the file.
pub struct WiredFile {
    pub wired: WiredCores,
    pub layout: FileLayout,
}

// ---- what there is in a file

// The slots of each ring, in order of making.
fn slots_of(alloc: Global, setup: &[Event<'_>]) -> Result<Vec<usize>, AllocError> {
    let mut all = Vec::new(alloc);
    for event in setup {
        match event {
            Event::AddLink { slots, .. } => all.push(*slots as usize)?,
            Event::Bind { back_end, .. } => {
                if let BackEnd::Ump(slots) = back_end {
                    all.push(*slots as usize)?;
                }
            }
            _ => {}
        }
    }
    Ok(all)
}

// How many bindings are set up.
fn count_set_up(setup: &[Event<'_>]) -> usize {
    let mut count: usize = 0;
    for event in setup {
        if matches!(event, Event::Bind { .. }) {
            count = count.wrapping_add(1);
        }
    }
    count
}

// Whether a job is done before the cores run, where so many bindings are set up.
fn is_done_before(job: &Job<'_>, set_up: usize) -> bool {
    match job {
        Job::Reply { end, .. } => end.binding < set_up,
        _ => false,
    }
}

fn jobs_done_before(
    alloc: Global,
    jobs: &[Job<'_>],
    set_up: usize,
) -> Result<Vec<bool>, AllocError> {
    let mut done = Vec::new(alloc);
    for job in jobs {
        done.push(is_done_before(job, set_up))?;
    }
    Ok(done)
}

// A name, or an empty text.
fn text_of(alloc: Global, name: Option<&[u8]>) -> Result<Vec<u8>, AllocError> {
    match name {
        None => Ok(Vec::new(alloc)),
        Some(name) => Vec::from_slice(alloc, name),
    }
}

// The names of bindings, whose lines have these numbers.
fn binding_names(
    alloc: Global,
    names: &ScriptNames,
    numbers: &[usize],
) -> Result<Vec<Vec<u8>>, AllocError> {
    let mut bindings = Vec::new(alloc);
    for _ in 0..numbers.len() {
        bindings.push(Vec::new(alloc))?;
    }
    for (place, number) in numbers.iter().enumerate() {
        if let Some(name) = bindings.get_mut(*number) {
            *name = text_of(alloc, names.bindings.get(place))?;
        }
    }
    Ok(bindings)
}

// By core the names of its dispatchers.
fn dispatcher_names(
    alloc: Global,
    names: &ScriptNames,
    cores: usize,
) -> Result<Vec<Vec<Vec<u8>>>, AllocError> {
    let mut dispatchers = Vec::new(alloc);
    for _ in 0..cores {
        dispatchers.push(Vec::new(alloc))?;
    }
    for (place, at) in names.placed.iter().enumerate() {
        if let Some(own) = dispatchers.get_mut(at.core as usize) {
            own.push(text_of(alloc, names.dispatchers.get(place))?)?;
        }
    }
    Ok(dispatchers)
}

fn layout_of(alloc: Global, file: &CoresFile<'_>) -> Result<FileLayout, AllocError> {
    Ok(FileLayout {
        slots: slots_of(alloc, &file.setup)?,
        done_before: jobs_done_before(alloc, &file.jobs, count_set_up(&file.setup))?,
        bindings: binding_names(alloc, &file.names, &file.numbers)?,
        dispatchers: dispatcher_names(alloc, &file.names, file.cores as usize)?,
    })
}

// ---- its cores

// The cores of a file that was read.
fn wire_file(alloc: Global, file: CoresFile<'_>) -> Result<WiredCores, CoresFault>
    requires few { file.cores ≤ 16 }
    ensures wires { IfOk result (λ w. Wires (config_in (file_from file.entry)) (file_from file.entry).jobs w) }
    ensures fault { IfErr result (λ fault. IsFault (config_in (file_from file.entry)) (file_from file.entry).jobs fault) }
    ensures no_thread { IfErr result (λ fault. WantsNoThread fault) }
{
    let CoresFile {
        cores,
        setup,
        jobs,
        names: _,
        numbers: _,
    } = file;
    let config = Config {
        // (a file has at most 16)
        cores: cores as u8,
        setup,
    };
    wire_cores(alloc, &config, jobs)
}

/// The cores of a cores file, as [`run_cores_text`](crate::run_cores_text) starts their threads: no thread is started. None just where a
/// line of the text is refused.
///
/// # Errors
/// Out of memory, and no other.
#[tactic(auto, using(crate::proofs::Texts::memory_said))]
pub fn wire_cores_text(alloc: Global, text: &[u8]) -> Result<Option<WiredFile>, CoresFault>
    ensures wires { IfOk result (λ found. WiresOrRefuses text.now found) }
    ensures fault { IfErr result (λ fault. fault ≡ OutOfMemory) }
{
    law_set_ups_are_the_machines();
    law_files_join();
    match read_cores_text(alloc, text)? {
        CoresText::File(file) => {
            let layout = layout_of(alloc, &file)?;
            match wire_file(alloc, file) {
                Ok(wired) => Ok(Some(WiredFile { wired, layout })),
                Err(fault) => Err(fault),
            }
        }
        CoresText::Refused { .. } => Ok(None),
    }
}
