//! A guess at a level for each module, from one search in depth over all of them.
//!
//! Modules that lead to each other make up a component. The search is Tarjan's: it completes a
//! component after all others that it leads to, and gives its modules the next higher level. So a
//! module runs none of a higher level, and one of its own only where both lead to each other.
//!
//! None of this is proved, only that the search is safe and ends. `levels` checks what it needs.

use std::alloc::{AllocError, Global};

/// A module whose runs are followed: its number, and which of its runs is next.
#[derive(Clone, Copy)]
struct Visit {
    place: usize,
    number: usize,
    next: usize,
}

/// The search so far.
#[derive(Drop)]
struct Walk {
    // What is known of each place. Before it is met: 0. While it is open: the least number found so
    // far of an open place that it leads to, itself counted. Then: its level, above all numbers.
    marks: Vec<usize>,
    // The modules from the first of this search to the one that it is at. Each runs the next.
    path: Vec<Visit>,
    // The places that were met and whose component isn't complete. Their numbers count from 1 on.
    open: Vec<usize>,
    // The level of the component that was completed last.
    level: usize,
}

impl Walk {
    fn new(alloc: Global, count: usize) -> Result<Walk, AllocError> {
        let marks = vec![in alloc; 0; count]?;
        Ok(Walk {
            marks,
            path: Vec::new(alloc),
            open: Vec::new(alloc),
            level: count,
        })
    }

    /// What is known of a place. A number that is no place counts as complete.
    fn mark(&self, place: usize) -> usize {
        self.marks.get(place).copied().unwrap_or(usize::MAX)
    }

    fn set_mark(&mut self, place: usize, mark: usize) {
        if place < self.marks.len() {
            self.marks[place] = mark;
        }
    }

    /// Meets a module: it is open, and its runs are followed from the first on.
    fn meet(&mut self, place: usize) -> Result<(), AllocError> {
        self.open.push(place)?;
        let number = self.open.len();
        self.set_mark(place, number);
        self.path.push(Visit {
            place,
            number,
            next: 0,
        })?;
        Ok(())
    }

    /// Follows runs until the path is at its end, for which this many steps are enough.
    fn follow(&mut self, runs: &[Vec<usize>], steps: usize) -> Result<(), AllocError> {
        for _ in 0..steps {
            let Some(visit) = self.path.pop() else {
                break;
            };
            self.step(runs, visit)?;
        }
        Ok(())
    }

    /// Follows the next run of a module. It is looked at again when the module that it leads to has
    /// been left. After the last run the module is left.
    fn step(&mut self, runs: &[Vec<usize>], visit: Visit) -> Result<(), AllocError> {
        match next_run(runs, visit) {
            None => {
                self.leave(visit);
                Ok(())
            }
            Some(run) => {
                let mark = self.mark(run);
                if mark == 0 {
                    self.path.push(visit)?;
                    self.meet(run)
                } else {
                    self.pass(visit, mark)
                }
            }
        }
    }

    /// Passes to the next run of a module, after one to a place with this mark.
    fn pass(&mut self, visit: Visit, mark: usize) -> Result<(), AllocError> {
        let least = self.mark(visit.place).min(mark);
        self.set_mark(visit.place, least);
        self.path.push(Visit {
            next: visit.next.saturating_add(1),
            ..visit
        })?;
        Ok(())
    }

    /// Leaves a module. If it leads to no place that was open before it, its component is complete:
    /// itself and what is open since then.
    fn leave(&mut self, visit: Visit) {
        if self.mark(visit.place) == visit.number {
            self.complete(visit.number);
        }
    }

    /// Gives the next level to the open places from this number on.
    fn complete(&mut self, number: usize) {
        let level = self.level.saturating_add(1);
        self.level = level;
        for _ in number..=self.open.len() {
            if let Some(place) = self.open.pop() {
                self.set_mark(place, level);
            }
        }
    }
}

/// The run that is next, if there is one.
fn next_run(runs: &[Vec<usize>], visit: Visit) -> Option<usize> {
    let row = runs.get(visit.place)?;
    row.get(visit.next).copied()
}

/// No search takes more steps: one for each run, and for each module one to meet it and one to
/// leave it.
fn most_steps(runs: &[Vec<usize>]) -> usize {
    let mut steps: usize = 0;
    for row in runs {
        steps = steps.saturating_add(row.len()).saturating_add(2);
    }
    steps
}

/// A level for each module, as a guess: a module runs none of a higher level, and one of its own
/// only where a chain of runs leads back to it.
///
/// # Errors
/// Memory was refused.
pub(crate) fn guess_levels(alloc: Global, runs: &[Vec<usize>]) -> Result<Vec<usize>, AllocError> {
    let mut walk = Walk::new(alloc, runs.len())?;
    let steps = most_steps(runs);
    for place in 0..runs.len() {
        if walk.mark(place) == 0 {
            walk.meet(place)?;
            walk.follow(runs, steps)?;
        }
    }
    Ok(walk.marks)
}
