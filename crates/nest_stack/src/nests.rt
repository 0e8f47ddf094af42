// The stacks of all slots.
ghost use Rattle.std.specs.Prelude.{◌≡◌, ◌<◌, ◌≤◌, ◌++◌, [], ◌∷◌, Some, IfOk, length, replicate};
ghost use Rattle.std.specs.Option.{option_copied, option_and_then};
ghost use Rattle.nest_stack.specs.Nest.{stack, with_stack, at_height, top, below, with_top_frame, task_height};
ghost use Rattle.nest_stack.specs.Chain.{IsWhole, rows_of};
ghost use Rattle.slab.specs.Slab.{get};

use crate::stack::{MAX_HEIGHT, Nested, Node, Stack};
use job_language::MAX_SLOTS;
use job_step::Frame;
use region_tag::RowId;
use slab::Slab;
use std::alloc::{AllocError, Global};
use std::marker::Model;

/// The stacks of a tenant's slots. Slots are numbered from 0, heights from 1.
#[derive(Drop)]
pub struct Nests {
    /// The rows of all stacks.
    nodes: Slab<Node>,
    /// By slot.
    stacks: Vec<Stack>,
}

impl Model for Nests {
    ghost use Rattle.std.specs.Prelude.{map};
    ghost use Rattle.nest_stack.specs.Nest.{Stacks};
    ghost use Rattle.nest_stack.specs.Chain.{rows_of, HoldsStacks};

    ghost Value = { Stacks };

    ghost view = { λ n. map (rows_of n.nodes) n.stacks.items };

    ghost invariant = { λ n. HoldsStacks n.nodes n.stacks.items };
}

impl Nests {
    /// An empty stack for each slot, with room for `MAX_HEIGHT` rows.
    pub fn new(alloc: Global, slots: usize) -> Result<Nests, AllocError>
        requires { slots ≤ MAX_SLOTS }
        ensures { IfOk result (λ nests. nests ≡ replicate slots []) }
    {
        let nodes = Slab::with_capacity(alloc, slots * MAX_HEIGHT)?;
        let empty = Stack {
            top: None,
            height: 0,
        };
        let stacks = vec![in alloc; empty; slots]?;
        Ok(Nests { nodes, stacks })
    }

    /// Puts a row on top of a slot's stack.
    pub fn push(&mut self, slot: usize, frame: Frame, row: RowId, is_region: bool)
        requires slot { slot < length self.old }
        requires height { length (stack self.old slot) < MAX_HEIGHT }
        ensures { self.new ≡ with_stack self.old slot
            (stack self.old slot ++ (record { frame = frame; row = row; is_region = is_region })
            ∷ []) }
    {
        let stack = self.stacks[slot];
        let nested = Nested {
            frame,
            row,
            is_region,
        };
        let top = self.nodes.insert_reserved(Node {
            nested,
            below: stack.top,
        });
        self.stacks[slot] = Stack {
            top: Some(top),
            height: stack.height + 1,
        };
    }

    /// The topmost row of a slot.
    pub fn top(&self, slot: usize) -> Option<&Nested>
        requires { slot < length self.now }
        ensures { option_copied result ≡ top (stack self.now slot) }
    {
        Some(&topmost(&self.nodes, self.stacks[slot])?.nested)
    }

    /// The row at a height of a slot's stack.
    pub fn at_height(&self, slot: usize, height: usize) -> Nested
        requires slot { slot < length self.now }
        requires from { 1 ≤ height }
        requires to { height ≤ length (stack self.now slot) }
        ensures { at_height (stack self.now slot) height ≡ Some result }
    {
        row_at(&self.nodes, self.stacks[slot], height)
    }

    /// Replaces the frame of a slot's topmost row.
    pub fn set_top(&mut self, slot: usize, frame: Frame)
        requires slot { slot < length self.old }
        requires height { 0 < length (stack self.old slot) }
        ensures { self.new ≡ with_stack self.old slot (with_top_frame (stack self.old slot) frame) }
    {
        let Some(top) = self.stacks[slot].top else {
            unreachable!();
        };
        self.nodes[top].nested.frame = frame;
    }

    /// Takes the topmost row of a slot.
    pub fn pop(&mut self, slot: usize) -> Nested
        requires slot { slot < length self.old }
        requires height { 0 < length (stack self.old slot) }
        ensures value { top (stack self.old slot) ≡ Some result }
        ensures rest { self.new ≡ with_stack self.old slot
            (below (stack self.old slot) (length (stack self.old slot))) }
    {
        let stack = self.stacks[slot];
        let Some(top) = stack.top else {
            unreachable!();
        };
        let node = self.nodes.remove(top);
        let height = stack.height - 1;
        self.stacks[slot] = Stack {
            top: node.below,
            height,
        };
        node.nested
    }

    /// The height of a slot's highest row that is not a region, or 0 if there is none. The rows
    /// from there to the top are those that `pop_task` takes.
    pub fn task_height(&self, slot: usize) -> usize
        requires { slot < length self.now }
        ensures { result ≡ task_height (stack self.now slot) }
    {
        highest_task(&self.nodes, self.stacks[slot])
    }

    /// Takes a slot's highest row that is not a region, and the regions above it.
    pub fn pop_task(&mut self, slot: usize)
        requires { slot < length self.old }
        ensures { self.new ≡ with_stack self.old slot
            (below (stack self.old slot) (task_height (stack self.old slot))) }
    {
        let kept = self.task_height(slot).saturating_sub(1);
        while kept < self.height(slot) {
            self.pop(slot);
        }
    }

    /// How many rows are on a slot's stack, `MAX_HEIGHT` at most.
    pub fn height(&self, slot: usize) -> usize
        requires { slot < length self.now }
        ensures value { result ≡ length (stack self.now slot) }
        ensures few { result ≤ MAX_HEIGHT }
    {
        self.stacks[slot].height
    }
}

/// The topmost row of a stack, if it has one.
fn topmost(nodes: &Slab<Node>, stack: Stack) -> Option<&Node>
    ensures { option_copied result ≡ option_and_then (get nodes.now) stack.top }
{
    nodes.get(stack.top?)
}

/// The row at a height of a stack, found from the top downwards.
fn row_at(nodes: &Slab<Node>, mut stack: Stack, height: usize) -> Nested
    requires whole { IsWhole nodes.now stack }
    requires from { 1 ≤ height }
    requires to { height ≤ stack.height }
    ensures { at_height (rows_of nodes.now stack) height ≡ Some result }
{
    loop {
        let Some(node) = topmost(nodes, stack) else {
            unreachable!();
        };
        if stack.height == height {
            return node.nested;
        }
        stack = Stack {
            top: node.below,
            height: stack.height - 1,
        };
    }
}

/// The height of a stack's highest row that is not a region, or 0 if there is none.
fn highest_task(nodes: &Slab<Node>, mut stack: Stack) -> usize
    requires { IsWhole nodes.now stack }
    ensures { result ≡ task_height (rows_of nodes.now stack) }
{
    while let Some(node) = topmost(nodes, stack) {
        if !node.nested.is_region {
            break;
        }
        stack = Stack {
            top: node.below,
            height: stack.height - 1,
        };
    }
    stack.height
}
