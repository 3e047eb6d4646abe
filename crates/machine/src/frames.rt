ghost use Rattle.std.specs.Prelude.{◌≡◌, ◌∷◌, [], MatchOption, length, OnOk};
ghost use Rattle.machine.specs.FramesView.{frame_of};

use crate::stack::Stack;
use script_tree::value::Value;
use std::alloc::{AllocError, Global};
use std::marker::Model;
use std::mem;

/// Where a call goes on when its function is over.
#[derive(Drop)]
pub(crate) struct Frame<'c> {
    pub(crate) place: usize,
    pub(crate) stack: Stack<'c>,
    pub(crate) slots: Vec<Value>,
}

/// The calls that are not over. Contracts see the newest first.
#[derive(Drop)]
pub(crate) struct Frames<'c> {
    frames: Vec<Frame<'c>>,
    /// What the function that ended last had at hand. Its memory serves the next one.
    ended: Stack<'c>,
    /// Where its variables stood: an empty list, whose memory serves the next one too.
    slots: Vec<Value>,
}

impl<'c> Model for Frames<'c> {
    ghost use Rattle.std.specs.Prelude.{List, map, reverse};
    ghost use Rattle.std.specs.Coded.{coded_list};
    ghost use Rattle.script_code.specs.CodeRun.{Frame as Meant};
    ghost use Rattle.machine.specs.FrameCode.{coded_frame};

    ghost Value = { List Meant };

    ghost coded = { coded_list coded_frame };

    ghost use Rattle.machine.specs.FramesView.{frame_of};

    ghost view = { λ a. map frame_of (reverse a.frames.items) };
}

impl<'c> Frames<'c> {
    pub(crate) fn new(alloc: Global) -> Frames<'c>
        ensures { result ≡ [] }
    {
        Frames {
            frames: Vec::new(alloc),
            ended: Stack::new(alloc),
            slots: Vec::new(alloc),
        }
    }

    /// An empty stack for a function that begins.
    pub(crate) fn empty_stack(&mut self, alloc: Global) -> Stack<'c>
        ensures empty { result ≡ [] }
        ensures same { self.new ≡ self.old }
    {
        let mut stack = mem::replace(&mut self.ended, Stack::new(alloc));
        stack.clear();
        stack
    }

    /// Memory for its variables.
    pub(crate) fn room(&mut self, alloc: Global) -> Vec<Value>
        ensures { self.new ≡ self.old }
    {
        mem::replace(&mut self.slots, Vec::new(alloc))
    }

    /// Keeps the stack of a function that ends.
    pub(crate) fn keep_stack(&mut self, stack: Stack<'c>)
        ensures { self.new ≡ self.old }
    {
        let _older = mem::replace(&mut self.ended, stack);
    }

    /// Keeps the memory of its variables.
    pub(crate) fn keep_slots(&mut self, mut slots: Vec<Value>)
        ensures { self.new ≡ self.old }
    {
        slots.clear();
        let _older = mem::replace(&mut self.slots, slots);
    }

    pub(crate) fn len(&self) -> usize
        ensures { result ≡ length self.now }
    {
        self.frames.len()
    }

    pub(crate) fn push(&mut self, frame: Frame<'c>) -> Result<(), AllocError>
        ensures { OnOk result (self.new ≡ frame_of frame.entry ∷ self.old) }
    {
        self.frames.push(frame)?;
        Ok(())
    }

    pub(crate) fn pop(&mut self) -> Option<Frame<'c>>
        ensures { MatchOption result ((self.old ≡ []) × (self.new ≡ []))
            (λ frame. self.old ≡ frame_of frame ∷ self.new) }
    {
        self.frames.pop()
    }
}
