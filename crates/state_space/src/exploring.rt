//! The search in breadth.
ghost use Rattle.std.specs.Prelude.{◌≡◌, ◌<◌, ◌+◌, ◌^◌, ◌↔◌, IfOk, IsTrue, OnOk};
ghost use Rattle.indexmap.specs.IndexMap.{index_map_len};
ghost use Rattle.state_space.specs.Answers.{IsAnswer};
ghost use Rattle.state_space.specs.Found.{AreLinked, IsPathTo};
ghost use Rattle.state_space.specs.Reaching.{IsBelow};
ghost use Rattle.state_space.specs.Search.{IsExplored, IsTakenUp};

use crate::machine::Machine;
use indexmap::IndexMap;
use std::alloc::{AllocError, Global};

/// What the search found.
#[derive(Drop)]
pub enum Answer {
    /// No state that can be reached is bad; so many states can be reached.
    Holds { states: usize },
    /// These moves lead to a bad state, and no fewer do.
    Fails { path: Vec<usize> },
}

/// How a state was found: from which place of the list, by which move, and behind how many.
#[derive(Clone, Copy, Drop)]
pub(crate) struct Link {
    pub from: usize,
    pub by: usize,
    pub depth: usize,
}

/// Whether the moves of a state are looked at that is behind so many.
fn goes_on(limit: Option<usize>, depth: usize) -> bool
    ensures { IsTrue result ↔ IsBelow limit depth }
{
    match limit {
        Some(most) => depth < most,
        None => true,
    }
}

/// A search that goes on: what was found, in its order, the state whose moves are looked at, and the
/// key of the one behind a move.
#[derive(Drop)]
struct Search {
    alloc: Global,
    found: IndexMap<Vec<u16>, Link>,
    state: Vec<u16>,
    key: Vec<u16>,
}

impl Search {
    /// A search that has found the first state.
    fn new<W, M: Machine<W>>(
        alloc: Global,
        machine: &M,
        work: &mut W,
        _limit: Option<usize>,
    ) -> Result<Search, AllocError>
        requires { M.fits machine.now work.old }
        ensures fits { M.fits machine.now work.new }
        ensures found { IfOk result (λ search. IsExplored (M.starts machine.now)
            (M.count machine.now) (M.leads machine.now) (M.bad machine.now) _limit
            search.found.entries 0 0 0) }
    {
        let mut key = Vec::new(alloc);
        machine.start(work, &mut key)?;
        let mut found = IndexMap::new(alloc);
        let first = key.as_slice().to_vec(alloc)?;
        let link = Link {
            from: 0,
            by: 0,
            depth: 0,
        };
        found.insert(first, link)?;
        let state = Vec::new(alloc);
        Ok(Search {
            alloc,
            found,
            state,
            key,
        })
    }

    /// The moves that lead to a place of the list.
    fn path_to<W, M: Machine<W>>(&self, _machine: &M, end: usize) -> Result<Vec<usize>, AllocError>
        requires linked { AreLinked (M.starts _machine.now) (M.count _machine.now)
            (M.leads _machine.now) self.now.found.entries }
        requires within { end < index_map_len self.now.found }
        ensures { IfOk result (λ path. IsPathTo (M.starts _machine.now) (M.count _machine.now)
            (M.leads _machine.now) self.now.found.entries end path.items) }
    {
        let mut path = Vec::new(self.alloc);
        let mut at = end;
        'back: while at > 0 {
            let link = self.found[at];
            path.push(link.by)?;
            at = link.from;
        }
        path.reverse();
        Ok(path)
    }

    /// Takes up the state at the head of the list: how many moves it is behind the first.
    fn take_up(&mut self, head: usize) -> Result<usize, AllocError>
        requires { head < index_map_len self.old.found }
        ensures found { self.new.found ≡ self.old.found }
        ensures taken { IfOk result (λ depth. IsTakenUp self.new.found.entries head
            self.new.state.items depth) }
    {
        let Some((key, link)) = self.found.get_index(head) else {
            unreachable!()
        };
        self.state.clear();
        self.state.extend_from_slice(key.as_slice())?;
        Ok(link.depth)
    }

    /// Looks at the moves of the state that was taken up, and adds the states that are new.
    fn look_on<W, M: Machine<W>>(
        &mut self,
        machine: &M,
        work: &mut W,
        head: usize,
        depth: usize,
        _limit: Option<usize>,
    ) -> Result<(), AllocError>
        requires fits { M.fits machine.now work.old }
        requires explored { IsExplored (M.starts machine.now) (M.count machine.now)
            (M.leads machine.now) (M.bad machine.now) _limit self.old.found.entries
            head 0 (head + 1) }
        requires taken { IsTakenUp self.old.found.entries head self.old.state.items depth }
        requires goes_on { IsBelow _limit depth }
        requires small { head < 2 ^ 63 }
        ensures fits { M.fits machine.now work.new }
        ensures explored { OnOk result (IsExplored (M.starts machine.now) (M.count machine.now)
            (M.leads machine.now) (M.bad machine.now) _limit self.new.found.entries
            (head + 1) 0 (head + 1)) }
    {
        'moves: for by in 0..machine.moves() {
            machine.next(work, self.state.as_slice(), by, &mut self.key)?;
            if !self.found.contains_key(self.key.as_slice()) {
                let key = self.key.as_slice().to_vec(self.alloc)?;
                let link = Link {
                    from: head,
                    by,
                    depth: depth + 1,
                };
                self.found.insert(key, link)?;
            }
        }
        Ok(())
    }
}

/// Looks at each state that can be reached, or that so many moves can reach. Takes time in
/// proportion to the number of states times that of the moves, and memory in proportion to the
/// number of states.
pub fn explore<W, M: Machine<W>>(
    alloc: Global,
    machine: &M,
    work: &mut W,
    limit: Option<usize>,
) -> Result<Answer, AllocError>
    requires { M.fits machine.now work.old }
    ensures { IfOk result (IsAnswer (M.starts machine.now) (M.count machine.now)
        (M.leads machine.now) (M.bad machine.now) limit) }
{
    let mut search = Search::new(alloc, machine, work, limit)?;
    let mut head = 0;
    'states: while head < search.found.len() {
        let depth = search.take_up(head)?;
        if machine.is_bad(search.state.as_slice()) {
            let path = search.path_to(machine, head)?;
            return Ok(Answer::Fails { path });
        }
        if goes_on(limit, depth) {
            search.look_on(machine, work, head, depth, limit)?;
        }
        head += 1;
    }
    Ok(Answer::Holds {
        states: search.found.len(),
    })
}
