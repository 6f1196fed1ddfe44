//! What the lines of a cores file come to, so far.

ghost use Rattle.std.specs.Prelude.{◌≡◌};
ghost use Rattle.fl_model.specs.Views.{event_of};
ghost use Rattle.fl_cores_file.specs.Draft.{nothing_yet, with_event, with_job, is_core, takes};
ghost use Rattle.fl_cores_file.specs.Verdicts.{Comes, goes_on};
ghost use Rattle.fl_cores_file.specs.Views.{draft_of, job_of};

use crate::job::Job;
use crate::stop::CoresLineFault;
use fl_base::faults;
use fl_interface::Interface;
use fl_model::{DispatcherId, Event};
use fl_script_lines::NameTable;
use fl_value_data::PlanNo;
use std::alloc::Global;

/// An interface, and the plan by which its calls are laid out.
#[derive(Drop)]
pub struct DraftInterface {
    pub interface: Interface,
    pub plan: PlanNo,
}

/// A link, by its two cores.
#[derive(Clone, Copy)]
pub struct DraftLink {
    pub first: u32,
    pub second: u32,
}

/// Who offers a service, and under which interface.
#[derive(Clone, Copy)]
pub struct DraftService {
    pub dispatcher: DispatcherId,
    pub interface: usize,
}

/// What the jobs at an end are so far.
#[derive(Clone, Copy)]
pub enum EndUse {
    Free,
    Calls,
    Rules,
}

/// A binding.
#[derive(Clone, Copy)]
pub struct DraftBinding {
    /// Whether it is opened while the cores run; else it is set up before.
    pub opened: bool,
    pub interface: usize,
    pub client: EndUse,
    pub server: EndUse,
}

/// The cores, what is set up on them, and the jobs.
#[derive(Drop)]
pub struct Draft<'a> {
    pub alloc: Global,
    /// A line other than an interface's was accepted, so the number of cores stands.
    pub settled: bool,
    pub cores: u32,
    pub interfaces: Vec<DraftInterface>,
    pub links: Vec<DraftLink>,
    /// The core of each dispatcher.
    pub dispatchers: Vec<u32>,
    pub services: NameTable,
    /// Of each service, who offers it.
    pub offers: Vec<DraftService>,
    /// The dispatchers of the ends of bindings that are set up.
    pub seats: Vec<DispatcherId>,
    /// In the order of their lines.
    pub bindings: Vec<DraftBinding>,
    /// What is asked for before the cores run.
    pub setup: Vec<Event<'a>>,
    /// What the cores are to do. Here an end names its binding by its place among the `bind` lines, from 0.
    pub jobs: Vec<Job<'a>>,
}

impl<'a> Draft<'a> {
    // One core, and nothing on it. Takes no memory.
    pub(crate) fn new(alloc: Global) -> Draft<'a>
        ensures nothing { draft_of result ≡ nothing_yet }
    {
        Draft {
            alloc,
            settled: false,
            cores: 1,
            interfaces: Vec::new(alloc),
            links: Vec::new(alloc),
            dispatchers: Vec::new(alloc),
            services: NameTable::new(alloc),
            offers: Vec::new(alloc),
            seats: Vec::new(alloc),
            bindings: Vec::new(alloc),
            setup: Vec::new(alloc),
            jobs: Vec::new(alloc),
        }
    }

    // One event more before the cores run.
    pub(crate) fn put_event(&mut self, event: Event<'a>) -> Result<(), CoresLineFault>
        ensures put { Comes result (draft_of self.new) (goes_on (with_event (event_of event.entry) (draft_of self.old))) }
    {
        self.settled = true;
        self.setup.push(event)?;
        Ok(())
    }

    // One job more.
    #[inline(always)]
    pub(crate) fn put_job(&mut self, job: Job<'a>) -> Result<(), CoresLineFault>
        ensures put { Comes result (draft_of self.new) (goes_on (with_job (job_of job.entry) (draft_of self.old))) }
    {
        self.settled = true;
        self.jobs.push(job)?;
        Ok(())
    }

    // Whether there is such a core.
    pub(crate) fn is_core(&self, core: u32) -> bool
        ensures same { result ≡ is_core core (draft_of self.now) }
    {
        core < self.cores
    }

    // What is asked for before the cores run, and their jobs.
    pub(crate) fn into_parts(self) -> (Vec<Event<'a>>, Vec<Job<'a>>)
        ensures setup { result.0.items ≡ self.entry.setup.items }
        ensures jobs { result.1.items ≡ self.entry.jobs.items }
    {
        (self.setup, self.jobs)
    }

    // Takes up what a line asks. Where it stops, the draft is of no more use: where memory is refused it may have a part of what was asked.
    pub(crate) fn take(&mut self, event: Event<'a>) -> Result<(), CoresLineFault>
        ensures comes { Comes result (draft_of self.new) (takes (event_of event.entry) (draft_of self.old)) }
    {
        match event {
            Event::AddInterface { interface, plan } => self.add_interface(interface, plan),
            Event::SetCores(n) => self.set_cores(n),
            Event::AddLink { a, b, slots } => self.add_link(a, b, slots),
            Event::AddDispatcher(core) => self.add_dispatcher(core),
            Event::Export {
                name,
                dispatcher,
                interface,
            } => self.export(name, dispatcher, interface),
            Event::Bind {
                client,
                interface,
                service,
                back_end,
            } => self.bind(client, interface, service, back_end),
            Event::Call(end, mut call) => self.call(end, &mut call),
            Event::Reply {
                end,
                message,
                answer,
            } => self.reply(end, message, answer),
            Event::Show(_)
            | Event::Write(_)
            | Event::Turn(_)
            | Event::Ack(_)
            | Event::Register(_)
            | Event::Deregister(_)
            | Event::MonitorWrite { .. }
            | Event::Forward { .. }
            | Event::MonitorAck { .. } => Err(CoresLineFault::Refused(faults::UNREAD)),
        }
    }
}
