//! The numbers of frames, by what they are asked for by.
#![tactic(auto, using(crate::proofs::FrameLemmas::stored))]

ghost use Rattle.std.specs.Prelude.{◌≡◌, OnOk, IfSome, None, true};
ghost use Rattle.title_register.specs.declared.frame_key.FrameKey.{FrameKey};
ghost use Rattle.title_register.specs.Frames.{has_key, number_in, with_number};

use crate::frame_key::FrameKey;
use ebl_base::NoMemory;
use std::alloc::Global;
use std::collections::BTreeMap;

/// The number of the frame that a key asks for, under each key for which there is room.
#[derive(Drop)]
pub(crate) struct FrameNumbers {
    numbers: BTreeMap<FrameKey, Option<usize>>,
}

impl FrameNumbers {
    /// No number under any key.
    pub(crate) fn new(alloc: Global) -> Self
        ensures { (key : FrameKey) → number_in result.numbers key ≡ None }
    {
        FrameNumbers {
            numbers: BTreeMap::new(alloc),
        }
    }

    /// The number under a key.
    pub(crate) fn number(&self, key: FrameKey) -> Option<usize>
        ensures { result ≡ number_in self.now.numbers key }
    {
        match self.numbers.get(&key) {
            Some(number) => *number,
            None => None,
        }
    }

    /// Makes room for a key, if there is one. No number changes, out of memory neither.
    pub(crate) fn make_room(&mut self, key: Option<FrameKey>) -> Result<(), NoMemory>
        ensures same { (other : FrameKey) → number_in self.new.numbers other ≡ number_in self.old.numbers other }
        ensures ok { OnOk result (IfSome key (λ k. has_key self.new.numbers k ≡ true)) }
        ensures rooms { (other : FrameKey)
            → has_key self.old.numbers other ≡ true → has_key self.new.numbers other ≡ true }
    {
        let Some(key) = key else {
            return Ok(());
        };
        if !self.numbers.contains_key(&key) {
            self.numbers.insert(key, None)?;
        }
        Ok(())
    }

    /// Puts a number under a key for which there is room, if there is a key. It allocates nothing.
    pub(crate) fn put(&mut self, key: Option<FrameKey>, number: usize)
        requires { IfSome key (λ k. has_key self.old.numbers k ≡ true) }
        ensures numbers { (other : FrameKey)
            → number_in self.new.numbers other ≡ with_number key number (number_in self.old.numbers) other }
        ensures rooms { (other : FrameKey)
            → has_key self.old.numbers other ≡ true → has_key self.new.numbers other ≡ true }
    {
        let Some(key) = key else {
            return;
        };
        match self.numbers.insert(key, Some(number)) {
            Ok(_) => {}
            Err(_) => unreachable!(),
        }
    }
}
