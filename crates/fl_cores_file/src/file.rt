//! A cores file that was read.

ghost use Rattle.std.specs.Prelude.{ℕ, ◌≡◌, ◌≤◌, true, length, map, IfOk};
ghost use Rattle.fl_cores_file.specs.CoresFile.{which_opened, count_set_up, numbers_of, numbered, end_by, job_by, with_numbers, file_left};
ghost use Rattle.fl_cores_file.specs.Files.{file_from, reading_of};
ghost use Rattle.fl_cores_file.specs.Views.{bound_of, job_of, draft_of};

use crate::draft::{Draft, DraftBinding};
use crate::job::Job;
use crate::reading::PartialCoresFile;
use fl_base::EndId;
use fl_model::Event;
use fl_script_lines::ScriptNames;
use std::alloc::{AllocError, Global};

/// What a cores file comes to.
#[derive(Drop)]
pub struct CoresFile<'a> {
    /// How many cores run.
    pub cores: u32,
    /// What is asked for before they do.
    pub setup: Vec<Event<'a>>,
    /// What they are to do. Bindings that are set up are numbered first, then those that jobs open.
    pub jobs: Vec<Job<'a>>,
    /// The names, with bindings in the order of their lines.
    pub names: ScriptNames,
    /// The number of the binding of each name.
    pub numbers: Vec<usize>,
}

/// What a text is: a cores file, or one of which a line is refused.
#[derive(Drop)]
pub enum CoresText<'a> {
    File(CoresFile<'a>),
    /// The line, from 1, and the fault's number.
    Refused { line: usize, number: u8 },
}

// How many of these bindings are set up.
fn count_set_up(bindings: &[DraftBinding]) -> usize
    ensures count { result ≡ count_set_up (which_opened (map bound_of bindings.now)) }
    ensures few { result ≤ length bindings.now }
{
    let mut count = 0;
    for binding in bindings {
        if !binding.opened {
            count += 1;
        }
    }
    count
}

// The numbers of bindings: first of those that are set up, then of those that are opened.
fn number_bindings(alloc: Global, bindings: &[DraftBinding]) -> Result<Vec<usize>, AllocError>
    ensures numbers { IfOk result (λ v. v.items ≡ numbers_of (which_opened (map bound_of bindings.now))) }
{
    let mut numbers = Vec::new(alloc);
    let mut next_set_up = 0;
    let mut next_opened = count_set_up(bindings);
    for binding in bindings {
        if binding.opened {
            numbers.push(next_opened)?;
            next_opened += 1;
        } else {
            numbers.push(next_set_up)?;
            next_set_up += 1;
        }
    }
    Ok(numbers)
}

/// The number of a binding, by its place among the `bind` lines, from 0.
pub fn number_at(numbers: &[usize], place: usize) -> usize
    ensures number { result ≡ numbered numbers.now place }
{
    match numbers.get(place) {
        None => place,
        Some(number) => *number,
    }
}

// An end, by its binding's number.
pub(crate) fn end_by(numbers: &[usize], end: EndId) -> EndId
    ensures end { result ≡ end_by numbers.now end }
{
    EndId {
        binding: number_at(numbers, end.binding),
        side: end.side,
    }
}

// Names a job's end by its binding's number.
fn number_job(numbers: &[usize], job: &mut Job<'_>)
    ensures job { job_of job.new ≡ job_by numbers.now (job_of job.old) }
{
    match job {
        Job::Open(_) => {}
        Job::Reply { end, .. } => *end = end_by(numbers, *end),
        Job::Call { end, .. } => *end = end_by(numbers, *end),
    }
}

fn number_jobs(numbers: &[usize], jobs: &mut [Job<'_>])
    ensures jobs { map job_of jobs.new ≡ map (job_by numbers.now) (map job_of jobs.old) }
{
    for job in jobs.iter_mut() {
        number_job(numbers, job);
    }
}

// Whether each of these numbers is its own place: where no binding is opened, or all are.
fn are_places(numbers: &[usize]) -> bool
    ensures places { result ≡ true → (place : ℕ) → numbered numbers.now place ≡ place }
{
    for (place, number) in numbers.iter().enumerate() {
        if *number != place {
            return false;
        }
    }
    true
}

// Numbers a draft's bindings, and names the ends of its jobs by their numbers. Where these are the places that jobs name already, no
// job is looked at.
pub(crate) fn number(alloc: Global, draft: &mut Draft<'_>) -> Result<Vec<usize>, AllocError>
    ensures numbers { IfOk result (λ v. v.items ≡ numbers_of (which_opened (map bound_of draft.old.bindings.items))) }
    ensures jobs { IfOk result (λ v. draft_of draft.new ≡ with_numbers v.items (draft_of draft.old)) }
{
    let numbers = number_bindings(alloc, &draft.bindings)?;
    if are_places(&numbers) {
        return Ok(numbers);
    }
    number_jobs(&numbers, &mut draft.jobs);
    Ok(numbers)
}

impl<'a> CoresFile<'a> {
    // What was read, once bindings are numbered.
    pub(crate) fn new(numbers: Vec<usize>, reading: PartialCoresFile<'a>) -> CoresFile<'a>
        ensures file { file_from result ≡ file_left numbers.items (reading_of reading.entry) }
    {
        let cores = reading.draft.cores;
        let (setup, jobs) = reading.draft.into_parts();
        CoresFile {
            cores,
            setup,
            jobs,
            names: reading.names,
            numbers,
        }
    }
}
