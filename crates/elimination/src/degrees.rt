//! Vertices in lists, one for each degree.

use route_walks::Memory;
use std::alloc::Global;

/// No vertex.
const NONE: u32 = u32::MAX;

/// A vertex in a list: the next one, and the one before.
#[derive(Clone, Copy, Debug)]
struct Link {
    degree: u32,
    after: u32,
    before: u32,
}

/// No link.
const UNLINKED: Link = Link {
    degree: 0,
    after: NONE,
    before: NONE,
};

/// The vertices of each degree, doubly linked.
#[derive(Drop)]
pub(crate) struct DegreeLists {
    links: Vec<Link>,
    /// By degree, the first vertex.
    firsts: Vec<u32>,
    /// No vertex has a lower degree.
    least: u32,
}

impl DegreeLists {
    pub(crate) fn new(alloc: Global, n: u32) -> Result<DegreeLists, Memory> {
        Ok(DegreeLists {
            links: vec![in alloc; UNLINKED; n as usize]?,
            firsts: vec![in alloc; NONE; n as usize]?,
            least: 0,
        })
    }

    pub(crate) fn degree(&self, v: u32) -> u32 {
        self.link(v).degree
    }

    /// Puts a vertex that is in no list into that of a degree.
    pub(crate) fn put(&mut self, v: u32, degree: u32) {
        let Some(first) = self.firsts.get_mut(degree as usize) else {
            return;
        };
        let after = *first;
        *first = v;
        if let Some(link) = self.links.get_mut(v as usize) {
            *link = Link {
                degree,
                after,
                before: NONE,
            };
        }
        if let Some(link) = self.links.get_mut(after as usize) {
            link.before = v;
        }
        self.least = self.least.min(degree);
    }

    /// Takes a vertex out of its list.
    pub(crate) fn take(&mut self, v: u32) {
        let Link {
            degree,
            after,
            before,
        } = self.link(v);
        if let Some(link) = self.links.get_mut(before as usize) {
            link.after = after;
        } else if let Some(first) = self.firsts.get_mut(degree as usize) {
            *first = after;
        }
        if let Some(link) = self.links.get_mut(after as usize) {
            link.before = before;
        }
    }

    /// Takes out a vertex of the least degree, the one that was put last.
    pub(crate) fn pop(&mut self) -> Option<u32> {
        let degrees = self.firsts.len().min(u32::MAX as usize) as u32;
        for degree in self.least..degrees {
            if let Some(first) = self.firsts.get(degree as usize)
                && *first != NONE
            {
                let v = *first;
                self.least = degree;
                self.take(v);
                return Some(v);
            }
        }
        None
    }

    fn link(&self, v: u32) -> Link {
        match self.links.get(v as usize) {
            Some(link) => *link,
            None => UNLINKED,
        }
    }
}
