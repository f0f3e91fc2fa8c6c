//! The texts of scans, from one on.
ghost use Rattle.std.specs.Prelude.{◌≡◌, ◌<◌, ◌≤◌, ◌+◌, ◌-◌, ◌↔◌, [], length, map, replicate};
ghost use Rattle.std.specs.Prelude.{string_bytes, IfOk, IsTrue, OnOk};
ghost use Rattle.std.specs.List.{flat_map};
ghost use Rattle.flow_text.specs.Solved.{solved_in};
ghost use Rattle.flow_text.specs.Window.{AddsFlow, texts_of};

use crate::lines::push_networks;
use ladder_solver::NetworkFlow;
use std::alloc::{AllocError, Global};

/// The texts of scans, from the first of them on.
pub(crate) struct Window {
    pub(crate) first: u64,
    pub(crate) texts: Vec<String>,
}

impl Drop for Window {
    fn drop(self) {
        let Window { first: _, texts: _ } = self;
    }
}

/// So many empty texts.
fn empty_texts(alloc: Global, many: u64) -> Result<Vec<String>, AllocError>
    ensures { IfOk result (λ texts. map string_bytes texts.items ≡ replicate many []) }
{
    let mut texts = Vec::new(alloc);
    for _ in 0..many {
        texts.push(String::new(alloc))?;
    }
    Ok(texts)
}

impl Window {
    /// Nothing is told yet of the scans from one to another.
    pub(crate) fn new(alloc: Global, first: u32, last: u32) -> Result<Window, AllocError>
        ensures first { IfOk result (λ window. window.first ≡ first) }
        ensures texts { IfOk result (λ window.
            texts_of window ≡ replicate (last + 1 - first) []) }
    {
        let (first, last) = (u64::from(first), u64::from(last));
        let texts = empty_texts(alloc, (last + 1).saturating_sub(first))?;
        Ok(Window { first, texts })
    }

    /// Whether it has the text of a scan.
    pub(crate) fn has(&self, scan: u64) -> bool
        ensures { IsTrue result ↔ ((self.now.first ≤ scan)
            × (scan < self.now.first + length (texts_of self.now))) }
    {
        self.first <= scan && scan - self.first < self.texts.len() as u64
    }

    /// Adds the lines of networks that a node solved in a scan, for a row of its order of solve.
    pub(crate) fn push(
        &mut self,
        node: u8,
        scan: u64,
        row: u16,
        flows: &[NetworkFlow],
    ) -> Result<(), AllocError>
        requires first { self.old.first ≤ scan }
        requires last { scan < self.old.first + length (texts_of self.old) }
        ensures { OnOk result (AddsFlow node (map (solved_in scan row) flows.now) self.old
            self.new) }
    {
        let at = (scan - self.first) as usize;
        let text = &mut self.texts[at];
        push_networks(text, node, scan, row, flows)
    }

    /// The texts of all scans, one after another.
    pub(crate) fn joined(&self, alloc: Global) -> Result<Vec<u8>, AllocError>
        ensures { IfOk result (λ text. text.items ≡ flat_map (λ piece. piece) (texts_of self.now)) }
    {
        let mut text = Vec::new(alloc);
        for piece in self.texts.iter() {
            text.extend_from_slice(piece.as_bytes())?;
        }
        Ok(text)
    }
}
