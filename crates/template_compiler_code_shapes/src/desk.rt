//! The shapes that are noted while a stream is checked, and the places that wait.

ghost use Rattle.std.specs.Prelude.{◌≡◌, ◌∷◌, [], ℕ, ◌<◌, ◌≤◌, Option, Some, None, IfOk, IfSome, IsErrOf, option_map};
ghost use Rattle.template_compiler_code_shapes.specs.Shapes.{Shape, start};
ghost use Rattle.template_compiler_code_shapes.specs.Outlines.{shape_of};
ghost use Rattle.template_compiler_code_shapes.specs.Ways.{jump_of};
ghost use Rattle.template_compiler_code_shapes.specs.Desks.{slot_in, noted_in, waiting_in, room_in, weight_of, Stands, Clashes, ClashesAt};

use crate::outline::Outline;
use crate::ways::Jump;
use std::alloc::{AllocError, Global};

/// Why the check of a stream stops.
#[derive(Clone, Copy, Debug, PartialEq, Eq)]
pub enum Stop {
    /// The stream is not good.
    Bad,
    /// Memory was refused.
    Memory,
}

/// Shapes at places, and the places that wait to be visited, the next one last.
#[derive(Drop)]
pub struct Desk {
    slots: Vec<Option<Outline>>,
    waiting: Vec<usize>,
}

impl Desk {
    /// A desk with so much room, the start noted and waiting.
    pub fn begin(alloc: Global, room: usize) -> Result<Desk, AllocError>
        requires { 0 < room }
        ensures first { IfOk result (λ desk. noted_in desk 0 ≡ Some start) }
        ensures only { IfOk result (λ desk. (q : ℕ) (s : Shape) → noted_in desk q ≡ Some s → (q ≡ 0) × (s ≡ start)) }
        ensures waiting { IfOk result (λ desk. waiting_in desk ≡ 0 ∷ []) }
        ensures room { IfOk result (λ desk. room_in desk ≡ room) }
    {
        let mut slots = Vec::new(alloc);
        slots.push(Some(Outline::start(alloc)))?;
        for count in 1..room {
            slots.push(None)?;
        }
        let mut waiting = Vec::new(alloc);
        waiting.push(0)?;
        Ok(Desk { slots, waiting })
    }

    /// Notes a shape at a place, where none or the same is noted; the place waits if none was.
    pub fn note(&mut self, place: usize, shape: Outline) -> Result<(), Stop>
        requires { place < room_in self.old }
        ensures stands { IfOk result (λ _. Stands self.old self.new place (shape_of shape)) }
        ensures clash { IsErrOf result Stop.Bad → Clashes self.old place (shape_of shape) }
        ensures room { room_in self.new ≡ room_in self.old }
        ensures lighter { weight_of self.new ≤ weight_of self.old }
    {
        if let Some(there) = &self.slots[place] {
            if there.is_same(&shape) {
                return Ok(());
            }
            return Err(Stop::Bad);
        }
        match self.waiting.push(place) {
            Ok(()) => {}
            Err(_refused) => return Err(Stop::Memory),
        }
        self.slots[place] = Some(shape);
        Ok(())
    }

    /// Notes the shape of a jump at its target.
    pub fn note_jump(&mut self, jump: Option<Jump>) -> Result<(), Stop>
        requires { IfSome jump (λ j. j.to < room_in self.old) }
        ensures none { IfOk result (λ _. option_map jump_of jump ≡ None → self.new ≡ self.old) }
        ensures stands { IfOk result
            (λ _. (to : ℕ) (t : Shape) → ◌≡◌ {A = Option (ℕ × Shape)} (option_map jump_of jump) (Some (to, t))
            → Stands self.old self.new to t) }
        ensures clash { IsErrOf result Stop.Bad → ClashesAt self.old (option_map jump_of jump) }
        ensures room { room_in self.new ≡ room_in self.old }
        ensures lighter { weight_of self.new ≤ weight_of self.old }
    {
        if let Some(Jump { to, shape }) = jump {
            self.note(to as usize, shape)?;
        }
        Ok(())
    }

    /// The shape that is noted at a place.
    pub fn noted(&self, place: usize) -> Result<Option<Outline>, Stop>
        requires { place < room_in self.now }
        ensures noted { IfOk result (λ shape. option_map shape_of shape ≡ noted_in self.now place) }
        ensures memory { IsErrOf result Stop.Bad → ⊥ }
    {
        let Some(there) = &self.slots[place] else {
            return Ok(None);
        };
        match there.copy() {
            Ok(shape) => Ok(Some(shape)),
            Err(_refused) => Err(Stop::Memory),
        }
    }

    /// A place that waits, which waits no more.
    pub fn next(&mut self) -> Option<usize>
        ensures next { IfSome result (λ place. waiting_in self.old ≡ place ∷ waiting_in self.new) }
        ensures none { result ≡ None → waiting_in self.old ≡ [] }
        ensures noted { noted_in self.new ≡ noted_in self.old }
        ensures room { room_in self.new ≡ room_in self.old }
        ensures lighter { IfSome result (λ _. weight_of self.new < weight_of self.old) }
    {
        self.waiting.pop()
    }
}
