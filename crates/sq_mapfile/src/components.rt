//! Numbers of the instances: those that call each other in turn have one number, and no call leads to a higher number.
//! Nothing of that is proved: who uses the numbers tests them.

use crate::graph::Graph;
use std::alloc::{AllocError, Global};

/// What is known of an instance.
#[derive(Clone, Copy)]
enum Mark {
    Unseen,
    /// Seen, at this place among those that wait for a number.
    Waiting(usize),
    Numbered(usize),
}

/// An instance on the path from where the walk began.
#[derive(Clone, Copy)]
struct Visit<'g> {
    /// Its place among those that wait for a number.
    place: usize,
    /// The lowest place to which calls lead from here, as far as they were followed.
    lowest: usize,
    /// What it calls, as far as that isn't followed.
    callees: &'g [usize],
}

/// A walk along all calls, depth first.
#[derive(Drop)]
struct Walk<'g> {
    marks: Vec<Mark>,
    waiting: Vec<usize>,
    path: Vec<Visit<'g>>,
    components: usize,
}

fn put_mark(marks: &mut [Mark], instance: usize, mark: Mark) {
    if let Some(place) = marks.get_mut(instance) {
        *place = mark;
    }
}

impl<'g> Walk<'g> {
    fn is_unseen(&self, instance: usize) -> bool {
        matches!(self.marks.get(instance), Some(Mark::Unseen))
    }

    fn enter(&mut self, graph: &'g Graph<'_, '_>, instance: usize) -> Result<(), AllocError> {
        let place = self.waiting.len();
        put_mark(&mut self.marks, instance, Mark::Waiting(place));
        self.waiting.push(instance)?;
        self.path.push(Visit {
            place,
            lowest: place,
            callees: graph.callees(instance),
        })?;
        Ok(())
    }

    // The lowest place to which a call leads.
    fn lowest_by(&self, callee: usize, lowest: usize) -> usize {
        match self.marks.get(callee) {
            Some(Mark::Waiting(place)) => lowest.min(*place),
            _ => lowest,
        }
    }

    fn follow(
        &mut self,
        graph: &'g Graph<'_, '_>,
        visit: Visit<'g>,
        callee: usize,
        callees: &'g [usize],
    ) -> Result<(), AllocError> {
        let lowest = self.lowest_by(callee, visit.lowest);
        self.path.push(Visit {
            place: visit.place,
            lowest,
            callees,
        })?;
        if self.is_unseen(callee) {
            self.enter(graph, callee)?;
        }
        Ok(())
    }

    // All that wait from this place on call each other in turn.
    fn number(&mut self, place: usize) {
        for _ in place..self.waiting.len() {
            if let Some(instance) = self.waiting.pop() {
                put_mark(&mut self.marks, instance, Mark::Numbered(self.components));
            }
        }
        self.components = self.components.saturating_add(1);
    }

    fn leave(&mut self, visit: Visit<'g>) {
        if visit.lowest == visit.place {
            self.number(visit.place);
        } else if let Some(caller) = self.path.last_mut() {
            caller.lowest = caller.lowest.min(visit.lowest);
        }
    }

    // One step along a call, or back.
    fn step(&mut self, graph: &'g Graph<'_, '_>, visit: Visit<'g>) -> Result<(), AllocError> {
        match visit.callees.split_first() {
            Some((callee, rest)) => self.follow(graph, visit, *callee, rest),
            None => {
                self.leave(visit);
                Ok(())
            }
        }
    }

    // All that is called from an instance. Each call is followed once, and each instance is left once.
    fn walk_from(&mut self, graph: &'g Graph<'_, '_>, root: usize) -> Result<(), AllocError> {
        self.enter(graph, root)?;
        for _ in 0..graph.calls.len().saturating_add(self.marks.len()) {
            match self.path.pop() {
                None => return Ok(()),
                Some(visit) => self.step(graph, visit)?,
            }
        }
        Ok(())
    }

    fn numbers(&self, alloc: Global) -> Result<Vec<usize>, AllocError> {
        let mut numbers = Vec::new(alloc);
        for mark in &self.marks {
            numbers.push(match mark {
                Mark::Numbered(number) => *number,
                _ => 0,
            })?;
        }
        Ok(numbers)
    }
}

/// The numbers of the instances, in the order of the text.
pub fn component_numbers(alloc: Global, graph: &Graph<'_, '_>) -> Result<Vec<usize>, AllocError> {
    let count = graph.len();
    let mut walk = Walk {
        marks: vec![in alloc; Mark::Unseen; count]?,
        waiting: Vec::new(alloc),
        path: Vec::new(alloc),
        components: 0,
    };
    for root in 0..count {
        if walk.is_unseen(root) {
            walk.walk_from(graph, root)?;
        }
    }
    walk.numbers(alloc)
}
