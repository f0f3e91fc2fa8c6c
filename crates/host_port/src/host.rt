//! The host: its plan, the paths that it uses, and its history.
ghost use Rattle.std.specs.Prelude.{◌≡◌, ◌↔◌, ◌+◌, true, not, Some, [], ◌∷◌, ◌++◌, IfOk, IfSome};
ghost use Rattle.std.specs.Prelude.{OnErr, OnOk, option_copied};
ghost use Rattle.std.specs.List.{list_all};
ghost use Rattle.plant_types.specs.Plans.{IsHostPlan};
ghost use Rattle.ring_core.specs.declared.frame.FrameKind.TheVariants.{Request};
ghost use Rattle.ring_core.specs.Legal.{IsFrom, IsPath};
ghost use Rattle.host_port.specs.Calls.{free_path, path_is_free, is_unanswered, next_host_call};
ghost use Rattle.host_port.specs.Legal.{IsHostHistory, refusal_to};
ghost use Rattle.host_port.specs.Host.{entry_asked, due_ask, due_request, host_is_done, next_ask};
ghost use Rattle.host_port.specs.Host.{route_ahead};
ghost use Rattle.host_port.specs.Host.{entry_noted, entry_served, HostWentOn};
ghost use Rattle.host_port.specs.Following.{MayComeNext};
ghost use Rattle.host_port.specs.Kept.{HasPath, IsDueRequest, paths_after};

use crate::entry::{HostEntry, HostResult};
use modbus_pdu::{ILLEGAL_FUNCTION, Reply, encode_reply};
use plant_types::{
    Copied, HostAsk, HostPlan, List, NETWORK_PATH_COUNT, NETWORK_PATHS, NetPlan, Pdu, Route,
};
use ring_core::{CallId, Frame, is_path};
use std::alloc::{AllocError, Global};
use std::marker::Model;

/// How many paths by the network a host has.

/// One of the paths, as far as it was used.
#[derive(Clone, Copy, Drop)]
struct Path {
    /// How many requests were made on it, which is the number of the last.
    asked: u32,
    /// Whether the last of them has no answer.
    is_open: bool,
}

/// A host with the history of what it asked, was told and refused. This project's own.
pub struct Host {
    alloc: Global,
    plan: HostPlan,
    made: usize,
    paths: [Path; NETWORK_PATH_COUNT],
    history: Vec<HostEntry>,
}

impl Model for Host {
    ghost use Rattle.host_port.specs.Host.{HostIs};
    ghost use Rattle.host_port.specs.Kept.{IsHost};

    ghost Value = { HostIs };

    ghost view = { λ h. record { plan = h.plan; history = h.history.items } };

    ghost invariant = { λ h. IsHost h.plan h.made h.paths h.history.items };
}

impl Drop for Host {
    fn drop(self) {
        let Host {
            alloc: _,
            plan: _,
            made: _,
            paths: _,
            history: _,
        } = self;
    }
}

/// The reply to whatever another node asks: a host serves no function.
pub(crate) fn refusal(alloc: Global, request: &Pdu) -> Result<Pdu, AllocError>
    ensures { IfOk result (λ reply. reply ≡ refusal_to request.now) }
{
    let bytes = request.bytes();
    let function = bytes[0];
    let code = ILLEGAL_FUNCTION;
    encode_reply(alloc, &Reply::Exception { function, code })
}

/// Whether no path has a request without an answer.
fn are_free(paths: &[Path]) -> bool
    ensures { result ≡ list_all (λ path. not path.is_open) paths.now }
{
    paths.iter().all(|path| !path.is_open)
}

/// The paths behind an entry.
fn paths_after(
    mut paths: [Path; NETWORK_PATH_COUNT],
    entry: &HostEntry,
) -> [Path; NETWORK_PATH_COUNT]
    requires { HasPath entry.now }
    ensures { result ≡ paths_after paths entry.now }
{
    match entry {
        HostEntry::Ask { id, .. } => {
            paths[usize::from(id.path) - 1] = Path {
                asked: id.seq,
                is_open: true,
            }
        }
        HostEntry::Answer { id, .. } => {
            paths[usize::from(id.path) - 1] = Path {
                asked: id.seq,
                is_open: false,
            }
        }
        HostEntry::Served { .. } => {}
    }
    paths
}

impl Host {
    /// A host that has asked nothing yet. Nothing of the ring's plan is kept.
    pub fn new(alloc: Global, plan: &HostPlan, _: &NetPlan) -> Result<Host, AllocError>
        requires { IsHostPlan plan.now }
        ensures { IfOk result (λ host. host ≡ record { plan = plan.now; history = [] }) }
    {
        let unused = Path {
            asked: 0,
            is_open: false,
        };
        Ok(Host {
            alloc,
            plan: plan.copied(alloc)?,
            made: 0,
            paths: [unused; NETWORK_PATH_COUNT],
            history: Vec::new(alloc),
        })
    }

    pub(crate) fn alloc(&self) -> Global {
        self.alloc
    }

    /// What it asked, was told and refused so far. It is always legal.
    pub fn history(&self) -> &[HostEntry]
        ensures history { result.now ≡ self.now.history }
        ensures legal { IsHostHistory self.now.plan self.now.history }
        ensures sound { IsHostPlan self.now.plan }
    {
        self.history.as_slice()
    }

    /// The history alone; takes no memory.
    pub fn into_history(self) -> List<HostEntry>
        ensures history { result ≡ self.history }
        ensures legal { IsHostHistory self.plan self.history }
    {
        let Host {
            alloc: _,
            plan: _,
            made: _,
            paths: _,
            history,
        } = self;
        List::from_vec(history)
    }

    /// Whether the call of this name was made and has no answer.
    pub fn is_out(&self, id: CallId) -> bool
        ensures { result ≡ is_unanswered self.now.history id }
    {
        if id.node != self.plan.node || !is_path(id.path) {
            return false;
        }
        let path = self.paths[usize::from(id.path) - 1];
        path.is_open && path.asked == id.seq
    }

    /// Whether each request was made and has its answer.
    pub fn is_done(&self) -> bool
        ensures { result ≡ host_is_done self.now }
    {
        self.made == self.plan.requests.as_slice().len() && are_free(&self.paths)
    }

    fn is_free(&self, path: u8) -> bool
        requires { IsPath path }
        ensures { result ≡ path_is_free self.now.history path }
    {
        !self.paths[usize::from(path) - 1].is_open
    }

    /// The least free path.
    fn free_path(&self) -> Option<u8>
        ensures free { result ≡ free_path self.now.history }
        ensures path { IfSome result IsPath }
    {
        for path in NETWORK_PATHS {
            if self.is_free(path) {
                return Some(path);
            }
        }
        None
    }

    /// The name of the next call; none where no path is free.
    fn next_call(&self) -> Option<CallId>
        ensures { result ≡ next_host_call self.now.plan self.now.history }
    {
        let Some(path) = self.free_path() else {
            return None;
        };
        Some(CallId {
            node: self.plan.node,
            path,
            seq: self.paths[usize::from(path) - 1].asked + 1,
        })
    }

    /// The next request of the plan.
    fn next_ask(&self) -> Option<&HostAsk>
        ensures { option_copied result ≡ next_ask self.now }
    {
        self.plan.requests.as_slice().get(self.made)
    }

    /// The route of that request; none where each was made.
    fn route_ahead(&self) -> Route
        ensures { result ≡ route_ahead self.now }
    {
        match self.next_ask() {
            Some(ask) => ask.route,
            None => Route::of(&[]),
        }
    }

    /// The next request of the plan, if its hold has come.
    fn due_ask(&self, hold: u32) -> Option<&HostAsk>
        ensures { option_copied result ≡ due_ask self.now hold }
    {
        match self.next_ask() {
            Some(ask) if ask.hold <= hold => Some(ask),
            _ => None,
        }
    }

    /// The Request that is due, if there is one and a path is free.
    fn due_request(&self, hold: u32) -> Result<Option<Frame>, AllocError>
        ensures request { IfOk result (λ request. request ≡ due_request self.now hold) }
        ensures due { IfOk result (λ request. IfSome request (IsDueRequest self.now)) }
    {
        let Some(id) = self.next_call() else {
            return Ok(None);
        };
        let Some(ask) = self.due_ask(hold) else {
            return Ok(None);
        };
        let pdu = ask.pdu.copied(self.alloc)?;
        Ok(Some(Frame::request(id, ask.route, pdu)))
    }

    /// Whether an Ask may come next.
    pub(crate) fn is_next(&self, id: CallId, route: Route, pdu: &Pdu) -> bool
        ensures { (result ≡ true) ↔ MayComeNext self.now (HostEntry.Ask id route pdu.now) }
    {
        let (Some(ask), Some(next)) = (self.next_ask(), self.next_call()) else {
            return false;
        };
        next == id && ask.route.addresses() == route.addresses() && ask.pdu.bytes() == pdu.bytes()
    }

    /// Takes up an entry that may come next.
    pub(crate) fn note(&mut self, entry: HostEntry) -> Result<(), AllocError>
        requires { MayComeNext self.old entry }
        ensures err { OnErr result (self.new ≡ self.old) }
        ensures went_on { HostWentOn (entry_noted entry result) self.old self.new }
    {
        let made = self.made + usize::from(entry.is_ask());
        let paths = paths_after(self.paths, &entry);
        self.history.push(entry)?;
        self.made = made;
        self.paths = paths;
        Ok(())
    }

    /// Makes the next request of the plan, and answers its frame, which goes to the ring: none
    /// exactly where none is due by the host's holds so far, counted from 1 with the one that
    /// runs, or where each of its four paths has a request without an answer.
    pub fn ask(&mut self, hold: u32) -> Result<Option<Frame>, AllocError>
        ensures request { IfOk result (λ made. made ≡ due_request self.old hold) }
        ensures from { IfOk result
            (λ made. IfSome made (IsFrom self.old.plan.node Request)) }
        ensures err { OnErr result (self.new ≡ self.old) }
        ensures went_on { HostWentOn (entry_asked result) self.old self.new }
    {
        let alloc = self.alloc;
        let Some(request) = self.due_request(hold)? else {
            return Ok(None);
        };
        let entry = HostEntry::Ask {
            id: request.id,
            route: self.route_ahead(),
            pdu: request.pdu.copied(alloc)?,
        };
        self.note(entry)?;
        Ok(Some(request))
    }

    /// Ends a call, with the reply that came or with the error word for which it was given up.
    pub fn answer(&mut self, id: CallId, outcome: HostResult) -> Result<(), AllocError>
        requires { is_unanswered self.old.history id ≡ true }
        ensures err { OnErr result (self.new ≡ self.old) }
        ensures went_on { HostWentOn (entry_noted (HostEntry.Answer id outcome) result)
            self.old self.new }
    {
        self.note(HostEntry::Answer {
            id,
            result: outcome,
        })
    }

    /// Answers a request of another node, named by who asked: that its function is not served.
    pub fn serve(&mut self, id: CallId, request: &Pdu) -> Result<Pdu, AllocError>
        ensures reply { IfOk result (λ reply. reply ≡ refusal_to request.now) }
        ensures err { OnErr result (self.new ≡ self.old) }
        ensures went_on { HostWentOn (entry_served id request.now result) self.old self.new }
    {
        let reply = refusal(self.alloc, request)?;
        let entry = HostEntry::Served {
            id,
            request: request.copied(self.alloc)?,
            reply: reply.copied(self.alloc)?,
        };
        self.note(entry)?;
        Ok(reply)
    }
}
