//! A task's writer, which is started when it is wanted, once.
ghost use Rattle.std.specs.Prelude.{◌≡◌, Some, None};
ghost use Rattle.hand_over.specs.declared.view.Turn.TheVariants.{Out};
ghost use Rattle.flush_writer.specs.Held.{Held, IsSentBack};
ghost use Rattle.flush_writer.specs.Placed.{CanBeSent, IsIdle, IsKept, held};

use crate::errand::Errand;
use crate::link::Link;
use std::alloc::Global;
use std::marker::{Model, Send};
use std::sync::Wait;
use std::thread::Threads;
use sw_base::Log;

/// The way to a task's writer, if there is one.
#[derive(Drop)]
pub(crate) struct Writer<L: Log> {
    link: Option<Link<L>>,
    is_asked: bool,
    stack: usize,
}

impl<L: Log> Model for Writer<L> {
    ghost use Rattle.std.specs.Prelude.{Option};
    ghost use Rattle.hand_over.specs.declared.view.Turn.{Turn};
    ghost use Rattle.flush_writer.specs.Held.{Held};

    ghost Value = { Option (Turn Held) };

    ghost view = { λ w. w.link };
}

impl<L: Log> Writer<L> {
    /// No writer yet, whether there is to be one, and how much stack it is to have.
    pub(crate) fn new(is_wanted: bool, stack: usize) -> Writer<L>
        ensures { result ≡ None }
    {
        Writer {
            link: None,
            is_asked: !is_wanted,
            stack,
        }
    }

    /// The same, where there is to be one, with this much stack.
    pub(crate) fn with_stack(self, stack: usize) -> Writer<L>
        ensures { result ≡ self }
    {
        let Writer {
            link,
            is_asked: _,
            stack: _,
        } = self;
        Writer {
            link,
            is_asked: false,
            stack,
        }
    }

    /// Starts the writer, unless that was tried before, or there is to be none.
    pub(crate) fn ask<R: Threads + Wait + Copy + Send + 'static>(&mut self, rt: &R, alloc: Global)
        requires idle { IsIdle self.old }
        ensures idle { IsIdle self.new }
    {
        if !self.is_asked {
            self.is_asked = true;
            self.link = Link::start(rt, alloc, self.stack);
        }
    }

    /// Sends it a log and what is to be appended, or gives them back where there is no writer.
    pub(crate) fn send(&mut self, errand: Errand<L>) -> Option<Errand<L>>
        requires idle { IsIdle self.old }
        requires fits { CanBeSent errand }
        ensures placed { IsKept result self.new }
        ensures held { held result self.new ≡ errand }
    {
        match &mut self.link {
            Some(link) => {
                link.send(errand);
                None
            }
            None => Some(errand),
        }
    }

    /// Waits until what was sent is back.
    pub(crate) fn collect<R: Wait>(&mut self, rt: &R) -> Errand<L>
        requires out { (sent : Held) × (self.old ≡ Some (Out sent)) }
        ensures follows { (sent : Held) → self.old ≡ Some (Out sent) → IsSentBack sent result }
        ensures idle { IsIdle self.new }
    {
        match &mut self.link {
            Some(link) => link.collect(rt),
            None => unreachable!(),
        }
    }

    /// Ends it.
    pub(crate) fn close(self)
        requires idle { IsIdle self }
    {
        if let Some(link) = self.link {
            link.close();
        }
    }
}
