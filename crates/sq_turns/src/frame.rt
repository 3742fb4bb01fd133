//! What a run sees beside the bytes.

ghost use Rattle.std.specs.Prelude.{◌≡◌, ◌<◌, [], ℤ, length};
ghost use Rattle.sq_leaf.specs.Running as running;

use crate::history::{History, Memo};
use arrayvec::ArrayVec;
use sq_leaf::Action;
use sq_rect::View;
use std::marker::Model;

/// The views, and the values of the counters of the loops round a place, from the outermost on: at most 64.
#[derive(Drop)]
pub struct Frame<'a> {
    views: &'a [View],
    counters: ArrayVec<i64, 64>,
    // No contract sees it.
    history: History,
}

impl<'a> Model for Frame<'a> {
    ghost use Rattle.sq_leaf.specs.Running.{Sight};

    ghost Value = { Sight };

    ghost view = { λ f. record { views = f.views.now; counters = f.counters.items } };
}

impl<'a> Frame<'a> {
    /// Outside all loops.
    pub fn new(views: &'a [View]) -> Frame<'a>
        ensures { result ≡ record { views = views.now; counters = [] } }
    {
        Frame {
            views,
            counters: ArrayVec::new(),
            history: History::new(),
        }
    }

    #[inline(always)]
    pub fn views(&self) -> &[View]
        ensures { result.now ≡ self.now.views }
    {
        self.views
    }

    /// How many loops stand round this place.
    #[inline(always)]
    pub fn depth(&self) -> usize
        ensures { result ≡ length self.now.counters }
    {
        self.counters.len()
    }

    /// The value of a counter.
    #[inline(always)]
    pub fn counter(&self, k: usize) -> i64
        ensures { result ≡ running.counter self.now.counters k }
    {
        match self.counters.as_slice().get(k) {
            Some(n) => *n,
            None => 0,
        }
    }

    /// Into the body of a loop.
    #[inline(always)]
    pub fn enter(&mut self, i: i64)
        requires { length self.old.counters < 64 }
        ensures { self.new ≡ running.counting self.old i }
    {
        self.counters.push(i);
    }

    /// Out of the body of a loop.
    #[inline(always)]
    pub fn leave(&mut self)
        ensures { (outside : running.Sight) (i : ℤ) → self.old ≡ running.counting outside i → self.new ≡ outside }
    {
        let _ = self.counters.pop();
    }

    /// What is known of a loop of so many turns at this place.
    #[inline]
    pub fn recall(&self, body: &[Action], turns: u64) -> Memo {
        self.history.recall(body, self.depth(), turns)
    }

    /// What is now known of a loop.
    #[inline]
    pub fn keep(&mut self, memo: Memo)
        ensures { self.new ≡ self.old }
    {
        self.history.keep(memo);
    }

    /// So many turns could have been run by blocks, had there been columns.
    #[inline]
    pub fn want(&mut self, turns: usize)
        ensures { self.new ≡ self.old }
    {
        self.history.want(turns);
    }

    /// Whether there were enough of them for columns.
    #[inline]
    pub fn is_worth_columns(&self) -> bool {
        self.history.is_worth_columns()
    }
}
