//! The Requests that a worker's paths wait for.
ghost use Rattle.std.specs.Prelude.{◌≡◌, ◌<◌, true, None, Some, IfOk, set, replicate, get_or};
ghost use Rattle.std.specs.Prelude.{is_none};
ghost use Rattle.ring_core.specs.Machine.{path_places};
ghost use Rattle.comm_port.specs.Waiting.{id_on, free_paths, IsIdle};

use mstr_block::CallId;
use plant_types::PATH_PLACES;
use ring_core::Frame;
use std::alloc::{AllocError, Global};
use std::marker::Model;

/// By path, the Request that waits there.
pub(crate) struct Waiting {
    slots: Vec<Option<Frame>>,
}

impl Model for Waiting {
    ghost use Rattle.std.specs.Prelude.{◌≡◌, List, Option, length};
    ghost use Rattle.ring_core.specs.declared.frame.Frame.{Frame};
    ghost use Rattle.ring_core.specs.Machine.{path_places};

    ghost Value = { List (Option Frame) };

    ghost view = { λ w. w.slots.items };

    ghost invariant = { λ w. length w.slots.items ≡ path_places };
}

impl Drop for Waiting {
    fn drop(self) {
        let Waiting { slots: _ } = self;
    }
}

impl Waiting {
    /// Nothing waits.
    pub(crate) fn new(alloc: Global) -> Result<Waiting, AllocError>
        ensures { IfOk result (λ made. made ≡ replicate path_places None) }
    {
        let mut slots = Vec::with_capacity(alloc, PATH_PLACES)?;
        for _ in 0..PATH_PLACES {
            slots.push(None)?;
        }
        Ok(Waiting { slots })
    }

    /// The name of the call that a path waits for.
    pub(crate) fn id_on(&self, path: u8) -> Option<CallId>
        requires { path < path_places }
        ensures { result ≡ id_on self.now path }
    {
        match &self.slots[path as usize] {
            Some(frame) => Some(frame.id),
            None => None,
        }
    }

    /// Its path waits for this Request.
    pub(crate) fn keep(&mut self, frame: Frame)
        requires { frame.id.path < path_places }
        ensures { self.new ≡ set self.old frame.id.path (Some frame) }
    {
        let path = frame.id.path as usize;
        self.slots[path] = Some(frame);
    }

    /// A path waits for nothing any more; the Request that it waited for.
    pub(crate) fn end(&mut self, path: u8) -> Option<Frame>
        requires { path < path_places }
        ensures waited { result ≡ get_or self.old path None }
        ensures new { self.new ≡ set self.old path None }
    {
        self.slots[path as usize].take()
    }

    fn is_free(&self, path: u8) -> bool
        requires { path < path_places }
        ensures { result ≡ is_none (get_or self.now path None) }
    {
        self.slots[path as usize].is_none()
    }

    /// The paths that wait for nothing.
    pub(crate) fn free_paths(&self) -> [bool; PATH_PLACES]
        ensures { result ≡ free_paths self.now }
    {
        [
            self.is_free(0),
            self.is_free(1),
            self.is_free(2),
            self.is_free(3),
            self.is_free(4),
        ]
    }

    /// Whether no path waits.
    pub(crate) fn is_idle(&self) -> bool
        ensures only { result ≡ true → IsIdle self.now }
        ensures all { IsIdle self.now → result ≡ true }
    {
        for at in 0..self.slots.len() {
            if self.slots[at].is_some() {
                return false;
            }
        }
        true
    }
}
