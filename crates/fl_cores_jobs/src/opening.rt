//! What a request for a circuit comes to.

ghost use Rattle.std.specs.Prelude.{◌≡◌, ◌<◌, ◌≤◌, nat_le, length, map, true, None, IfOk, IfErr, OnOk};
ghost use Rattle.std.specs.List.{list_all};
ghost use Rattle.fl_base.specs.Numbered.{core_id};
ghost use Rattle.fl_monitor.specs.Monitors.{first_link};
ghost use Rattle.fl_cores_file.specs.Views.{request_of};
ghost use Rattle.fl_cores_jobs.specs.Faults.{offer_fault, is_path, path_fault, link_fault, request_fault, RefusedFor};
ghost use Rattle.fl_cores_jobs.specs.Fitting.{IsOffered};
ghost use Rattle.fl_cores_jobs.specs.Requested.{cores_on, IsNamed, BeginsOn, BeginsAt};

use fl_base::{CoreId, IRef, LinkId, MAX_BINDINGS, faults};
use fl_compile::Program;
use fl_core::{Core, OpenRequest};
use fl_cores_file::{CircuitRequest, CoresLineFault};
use fl_monitor::{MAX_ROUTE, Opening, Path};
use fl_nameserv::{Names, law_each_is_found, law_found_is_registered};
use fl_world_refines::Parts;

/// What is asked for, and the cores of both ends.
#[derive(Clone, Copy)]
pub(crate) struct LocatedRequest {
    pub(crate) client: usize,
    pub(crate) server: usize,
    pub(crate) request: OpenRequest,
}

// The service that is asked for.
#[derive(Clone, Copy)]
struct FoundService {
    core: CoreId,
    iref: IRef,
}

// The service of the name, where it is offered under the interface.
fn find(names: &Names, request: &CircuitRequest<'_>) -> Result<FoundService, CoresLineFault>
    ensures offered { IfOk result (λ f. IsOffered names.now f.iref.0 request.now.interface f.core.0) }
    ensures named { IfOk result (λ f. IsNamed names.now request.now.service.now f.iref.0) }
    ensures refused { IfErr result (λ stop. RefusedFor (offer_fault names.now request.now.service.now request.now.interface) stop) }
{
    law_found_is_registered(names);
    law_each_is_found(names);
    let Ok(found) = names.lookup(request.service) else {
        return Err(CoresLineFault::Refused(faults::NO_SUCH_SERVICE));
    };
    if found.service.interface != request.interface {
        return Err(CoresLineFault::Refused(faults::OTHER_INTERFACE));
    }
    Ok(FoundService {
        core: found.service.core,
        iref: found.iref,
    })
}

// Whether these are numbers of 8 bits.
fn are_small(cores: &[u32]) -> bool
    ensures small { result ≡ list_all (λ core. nat_le core 255) cores.now }
{
    cores.iter().all(|core| *core <= 255)
}

// Whether there is a route over these cores.
fn is_path(cores: &[u32]) -> bool
    ensures path { result ≡ is_path cores.now }
{
    are_small(cores) && cores.len() <= MAX_ROUTE
}

// The route over these cores.
fn path_of(cores: &[u32]) -> Path
    requires few { length cores.now ≤ 16 }
    requires path { is_path cores.now ≡ true }
    ensures path { result ≡ map core_id cores.now }
{
    let mut ids = [CoreId(0); MAX_ROUTE];
    for (place, core) in cores.iter().enumerate() {
        ids[place] = CoreId(*core as u8);
    }
    let Some(path) = Path::new(&ids[..cores.len()]) else {
        unreachable!();
    };
    path
}

// The same, if there is one.
#[tactic(auto, using(crate::proofs::AskedFor::path_passes, crate::proofs::AskedFor::path_fails, crate::proofs::AskedFor::path_few))]
fn path_over(cores: &[u32]) -> Result<Path, CoresLineFault>
    ensures route { IfOk result (λ path. cores_on path ≡ cores.now) }
    ensures passes { OnOk result (path_fault cores.now ≡ None) }
    ensures refused { IfErr result (λ stop. RefusedFor (path_fault cores.now) stop) }
{
    if !is_path(cores) {
        return Err(CoresLineFault::Refused(faults::NO_SUCH_ROUTE));
    }
    Ok(path_of(cores))
}

// The link on which the route begins.
fn first_link(
    core: &Core,
    program: &Program,
    server: CoreId,
    path: Path,
    cores: usize,
) -> Result<LinkId, CoresLineFault>
    ensures there { OnOk result (server.0 < cores) }
    ensures begins { IfOk result (λ link. BeginsOn core.now.monitor.circuits path server.0 cores link.0) }
    ensures refused { IfErr result (λ stop. RefusedFor (link_fault (first_link core.now.monitor.circuits path server.0 cores)) stop) }
{
    match core
        .monitor()
        .may_open(program, program, server, path.cores(), cores)
    {
        Ok(link) => Ok(link),
        Err(fault) => Err(CoresLineFault::Refused(fault.number())),
    }
}

/// What a request comes to, for the binding of this number. Takes no memory.
pub(crate) fn ask(
    parts: &Parts,
    request: &CircuitRequest<'_>,
    binding: usize,
) -> Result<LocatedRequest, CoresLineFault>
    ensures few { OnOk result (binding < 1024) }
    ensures client { IfOk result (λ a. a.client < length parts.now.cores.items) }
    ensures server { IfOk result (λ a. a.server < length parts.now.cores.items) }
    ensures owner { IfOk result (λ a. a.client ≡ request.now.client.core) }
    ensures dispatcher { IfOk result (λ a. a.request.dispatcher ≡ request.now.client.place) }
    ensures program { IfOk result (λ a. a.request.interface ≡ request.now.interface) }
    ensures binding { IfOk result (λ a. a.request.opening.binding ≡ binding) }
    ensures offered { IfOk result (λ a. IsOffered parts.now.names a.request.opening.service.0 request.now.interface a.server) }
    ensures named { IfOk result (λ a. IsNamed parts.now.names request.now.service.now a.request.opening.service.0) }
    ensures route { IfOk result (λ a. cores_on a.request.opening.path ≡ request.now.route.items) }
    ensures begins { IfOk result (λ a. BeginsAt parts.now.cores.items request.now.client.core a.request.opening.path a.server a.request.link.0) }
    ensures passes { OnOk result (request_fault parts.now binding (request_of request.now) ≡ None) }
    ensures refused { IfErr result (λ stop. RefusedFor (request_fault parts.now binding (request_of request.now)) stop) }
{
    let client = request.client.core as usize;
    let Some(core) = parts.cores.get(client) else {
        return Err(CoresLineFault::Refused(faults::WRONG_NAME));
    };
    let Some(program) = parts.programs.get(request.interface) else {
        return Err(CoresLineFault::Refused(faults::WRONG_NAME));
    };
    if request.client.place >= core.board().dispatchers() {
        return Err(CoresLineFault::Refused(faults::WRONG_NAME));
    }
    if binding >= MAX_BINDINGS {
        return Err(CoresLineFault::Refused(faults::TOO_MANY));
    }
    let found = find(&parts.names, request)?;
    let path = path_over(&request.route)?;
    let cores = parts.cores.as_slice().len();
    let link = first_link(core, program, found.core, path, cores)?;
    Ok(LocatedRequest {
        client,
        server: usize::from(found.core.0),
        request: OpenRequest {
            dispatcher: request.client.place,
            interface: request.interface,
            link,
            opening: Opening {
                binding: binding as u32,
                service: found.iref,
                path,
            },
        },
    })
}
