//! A list of free numbers.
ghost use Rattle.std.specs.Prelude.{◌≡◌, ◌<◌, [], ◌∷◌, ◌++◌, length, IfOk};
ghost use Rattle.std.specs.List.{range_with_len};

use crate::no_memory::NoMemory;
use std::alloc::Global;
use std::marker::Model;

/// The numbers of places that are free, in room that is reserved by `below`. A number is taken and given back in
/// constant time. Contracts see the list and its room; `IsFreeList` says when it lists the free places of a table.
#[derive(Drop)]
pub struct FreeList {
    numbers: Vec<u32>,
    most: u32,
}

impl Model for FreeList {
    ghost use Rattle.std.specs.Prelude.{length, vec_capacity};
    ghost use Rattle.genie_base.specs.FreeLists.{FreeNumbers, IsRoomy};

    ghost Value = { FreeNumbers };

    ghost view = { λ a. record { list = a.numbers.items; room = a.most } };

    ghost invariant = { λ a. IsRoomy (length a.numbers.items) a.most (vec_capacity a.numbers) };
}

impl FreeList {
    /// The numbers below `n`, and room for no more.
    pub fn below(alloc: Global, n: u32) -> Result<FreeList, NoMemory>
        ensures { IfOk result (λ free. free ≡ record { list = range_with_len 0 n; room = n }) }
    {
        let mut numbers = Vec::with_capacity(alloc, n as usize)?;
        for number in 0..n {
            numbers.push_reserved(number);
        }
        Ok(FreeList { numbers, most: n })
    }

    /// How many numbers are free.
    pub fn len(&self) -> u32
        ensures { result ≡ length self.now.list }
    {
        self.numbers.len() as u32
    }

    /// Takes the last number of the list.
    pub fn take(&mut self) -> u32
        requires { 0 < length self.old.list }
        ensures list { self.old.list ≡ self.new.list ++ result ∷ [] }
        ensures room { self.new.room ≡ self.old.room }
    {
        let Some(number) = self.numbers.pop() else {
            unreachable!()
        };
        number
    }

    /// Puts a number at the end of the list.
    pub fn give(&mut self, number: u32)
        requires { length self.old.list < self.old.room }
        ensures { self.new ≡ record { list = self.old.list ++ number ∷ []; room = self.old.room } }
    {
        self.numbers.push_reserved(number);
    }
}
